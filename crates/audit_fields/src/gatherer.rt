//! What each application is told, beside what another broker sent it.
ghost use Rattle.std.specs.Prelude.{◌≡◌, ◌-◌, ◌≤◌, OnOk};
ghost use Rattle.audit_fields.specs.Gathering.{gained_by, told_at};

use crate::HearEnd;
use crate::gained::{gain, least_above, lose};
use crate::side::{Side, hear_side, is_app_at, join_side, tell_side};
use broker_core::{Entry, Relay, Watch};
use relay_model::{Act, Mods};
use std::alloc::Global;
use std::marker::Model;
use wio_core::NoMemory;

// What was put for the peer with the number.
fn gather(
    sides: &mut Vec<Side>,
    gained: &mut Vec<u32>,
    number: u32,
    bytes: &[u8],
) -> Result<(), NoMemory>
    requires { 1 ≤ number }
    ensures sides { OnOk result (sides.new.items ≡ told_at (number - 1) bytes.now
        sides.old.items) }
    ensures gained { OnOk result (gained.new.items ≡ gained_by number gained.old.items) }
{
    gain(gained, number)?;
    tell_side(sides.as_mut_slice(), (number - 1) as usize, bytes)
}

/// Gathers what is put for each application, and which peers gained anything.
///
/// In contracts it is a `Gathering`. It is short from the first thing on for which it found no
/// memory, and then says nothing.
#[derive(Drop)]
pub struct Gatherer {
    alloc: Global,
    // In the order in which they joined.
    sides: Vec<Side>,
    // Those for whom something may be stored, by their numbers.
    gained: Vec<u32>,
    is_short: bool,
}

impl Model for Gatherer {
    ghost use Rattle.audit_fields.specs.Gathering.{Gathering};

    ghost Value = { Gathering };

    ghost view = { λ g. record {
      sides = g.sides.items;
      gained = g.gained.items;
      is_short = g.is_short;
    } };
}

impl Gatherer {
    ghost use Rattle.std.specs.Prelude.{◌≡◌, ◌≢◌, [], ℕ, List, false, length, IfOk, IfErr, OnErr};
    ghost use Rattle.broker_model.specs.declared.journal.Entry.{Entry as Happened};
    ghost use Rattle.audit_fields.specs.Gathering.{is_gained, IsLeast};
    ghost use Rattle.audit_fields.specs.Going.{IsGathered};
    ghost use Rattle.audit_fields.specs.Hearing.{IsHeardOf, IsSent, IsUnlike};

    /// Nobody joined. Takes no memory.
    pub fn new(alloc: Global) -> Gatherer
        ensures new { result ≡ record { sides = []; gained = []; is_short = false } }
        ensures gathered { (capacity : ℕ) → IsGathered capacity (λ q. []) [] result }
    {
        Gatherer {
            alloc,
            sides: Vec::new(alloc),
            gained: Vec::new(alloc),
            is_short: false,
        }
    }

    /// Whether there was no memory for something that was to be gathered.
    pub fn is_short(&self) -> bool
        ensures { result ≡ self.now.is_short }
    {
        self.is_short
    }

    /// How many peers joined.
    pub fn count(&self) -> usize
        ensures { result ≡ length self.now.sides }
    {
        self.sides.len()
    }

    /// The lowest number of a peer that gained something, above the one and not past the most.
    pub fn least_above(&self, above: u32, most: usize) -> Option<u32>
        ensures { IsLeast self.now.gained above most result }
    {
        least_above(&self.gained, above, most)
    }

    /// Nothing is stored for the peer with the number any more.
    pub fn empty(&mut self, number: u32)
        ensures sides { self.new ≡ record self.old { gained = self.new.gained } }
        ensures gone { is_gained number self.new.gained ≡ false }
        ensures others { (q : ℕ) → q ≢ number →
            is_gained q self.new.gained ≡ is_gained q self.old.gained }
    {
        lose(&mut self.gained, number);
    }

    /// Hears more of what was sent to the peer with the number, and answers how many dones it
    /// completes; none where it is no application that joined.
    ///
    /// `Unlike` comes exactly where it is one, and what was sent to it isn't like what it's told.
    /// `NoMemory` may come too. After an error all is as before.
    pub fn hear(&mut self, number: u32, bytes: &[u8]) -> Result<u64, HearEnd>
        ensures heard { IfOk result (λ n. (capacity : ℕ) (sent after : ℕ → List ℕ)
            (journal : List Happened) → IsGathered capacity sent journal self.old →
            IsSent number bytes.now journal sent after →
            IsHeardOf capacity number bytes.now journal sent n after self.new) }
        ensures unlike { IfErr result (λ why. (capacity : ℕ) (sent : ℕ → List ℕ)
            (journal : List Happened) → IsGathered capacity sent journal self.old →
            IsUnlike capacity number bytes.now journal sent why) }
        ensures whole { self.new.is_short ≡ self.old.is_short }
        ensures same { OnErr result (self.new ≡ self.old) }
    {
        let Some(place) = number.checked_sub(1) else {
            return Ok(0);
        };
        let place = place as usize;
        if !is_app_at(&self.sides, place) {
            return Ok(0);
        }
        hear_side(self.sides.as_mut_slice(), place, bytes)
    }
}

impl Watch for Gatherer {
    ghost use Rattle.audit_fields.specs.Gathering.{MayGather};

    ghost may_follow = { MayGather };

    fn entered(&mut self, _number: u32, entry: &Entry, _act: &Act, _relay: &Relay) {
        if let Entry::Join(role) = entry {
            if self.is_short {
                return;
            }
            self.is_short = join_side(self.alloc, *role, &mut self.sides).is_err();
        }
    }

    fn placed(&mut self, _number: u32, _peer: u32, _id: u32, _x: i64, _y: i64) {}

    fn passed(&mut self, _number: u32, _time: u32, _key: u32, _state: u32) {}

    fn modified(&mut self, _number: u32, _mods: Mods) {}

    fn put(&mut self, _number: u32, peer: u32, bytes: &[u8], _tokens: &[(usize, u32)]) {
        if self.is_short || peer == 0 {
            return;
        }
        let (sides, gained) = (&mut self.sides, &mut self.gained);
        self.is_short = gather(sides, gained, peer, bytes).is_err();
    }
}
