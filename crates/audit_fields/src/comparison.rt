//! Two streams, as far as they came.
ghost use Rattle.std.specs.Prelude.{◌≡◌, ◌≤◌, drop, length};
ghost use Rattle.audit_fields.specs.FromField.{from_field};

use crate::backlog::{Backlog, cut_front};
use crate::compare::{before_field, compare};
use std::alloc::Global;
use std::marker::Model;
use thiserror::Error;
use wio_core::NoMemory;

/// Why a piece wasn't heard.
#[derive(Clone, Copy, Debug, PartialEq, Eq, Error)]
pub enum HearEnd {
    /// What was sent isn't like what is told.
    #[error("what was sent is unlike what is told")]
    Unlike,
    /// There was no memory.
    #[error("there was no memory")]
    NoMemory,
}

// So many of the bytes told are let go, and what stands behind them before the next field message.
fn pass(told: &mut Backlog, count: usize)
    requires { count ≤ length told.old }
    ensures { told.new ≡ from_field (drop count told.old) }
{
    let (_, left) = told.as_slice().split_at(count);
    let others = before_field(left);
    told.let_go(count + others);
}

/// What one application is told, and what another broker sent it: compared as they come. It keeps
/// what was told from the first field message on that wasn't sent yet, and the part of a message
/// that was sent last.
///
/// In contracts it is these two.
#[derive(Drop)]
pub struct Comparison {
    told: Backlog,
    begun: Vec<u8>,
}

impl Model for Comparison {
    ghost use Rattle.std.specs.Prelude.{◌≡◌};
    ghost use Rattle.audit_fields.specs.Comparing.{Comparing};
    ghost use Rattle.audit_fields.specs.FromField.{from_field};

    ghost Value = { Comparing };

    ghost view = { λ c. record { told = c.told; begun = c.begun.items } };

    ghost invariant = { λ c. from_field c.told ≡ c.told };
}

impl Comparison {
    ghost use Rattle.std.specs.Prelude.{◌≡◌, ◌≤◌, ◌+◌, ◌*◌, ◌++◌, [], ℕ, List, length};
    ghost use Rattle.std.specs.Prelude.{IfOk, IfErr, OnOk, OnErr};
    ghost use Rattle.audit_fields.specs.Comparing.{Follows, IsHeard, IsUnheard};
    ghost use Rattle.audit_fields.specs.FromField.{from_field};

    /// Nothing was told and nothing sent. Takes no memory.
    pub fn new(alloc: Global) -> Comparison
        ensures empty { result ≡ record { told = []; begun = [] } }
        ensures follows { Follows [] [] result }
    {
        Comparison {
            told: Backlog::new(alloc),
            begun: Vec::new(alloc),
        }
    }

    /// How many bytes it keeps in memory. What was told begins with a field message that wasn't
    /// sent yet, or has no whole message: others leave as they are told.
    pub fn kept(&self) -> usize
        ensures from_field { from_field self.now.told ≡ self.now.told }
        ensures least { length self.now.told + length self.now.begun ≤ result }
        ensures most { result ≤ 2 * length self.now.told + length self.now.begun }
    {
        self.told.kept() + self.begun.len()
    }

    /// Tells more: what stands before the first field message leaves at once. `NoMemory` is its one
    /// error, after which all is as before.
    pub fn tell(&mut self, bytes: &[u8]) -> Result<(), NoMemory>
        ensures ok { OnOk result (self.new ≡ record self.old {
          told = from_field (self.old.told ++ bytes.now);
        }) }
        ensures follows { OnOk result ((told sent : List ℕ) → Follows told sent self.old →
            Follows (told ++ bytes.now) sent self.new) }
        ensures err { OnErr result (self.new ≡ self.old) }
    {
        self.told.push(bytes)?;
        pass(&mut self.told, 0);
        Ok(())
    }

    /// Hears more of what was sent, and answers how many dones it completes.
    ///
    /// `Unlike` comes exactly where all that was sent isn't like all that was told. `NoMemory` may
    /// come too. After an error all is as before.
    pub fn hear(&mut self, piece: &[u8]) -> Result<u64, HearEnd>
        ensures heard { IfOk result (λ n. (told sent : List ℕ) → Follows told sent self.old →
            IsHeard told sent piece.now n self.new) }
        ensures unheard { IfErr result (λ why. (told sent : List ℕ) →
            Follows told sent self.old → IsUnheard told (sent ++ piece.now) why) }
        ensures same { OnErr result (self.new ≡ self.old) }
    {
        let before = self.begun.len();
        if self.begun.extend_from_slice(piece).is_err() {
            return Err(HearEnd::NoMemory);
        }
        let Some(compared) = compare(self.told.as_slice(), &self.begun) else {
            self.begun.truncate(before);
            return Err(HearEnd::Unlike);
        };
        cut_front(&mut self.begun, compared.sent);
        pass(&mut self.told, compared.told);
        Ok(compared.dones)
    }
}
