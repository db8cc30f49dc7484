//! An audit as far as its lines came.
ghost use Rattle.std.specs.Prelude.{◌≡◌};
ghost use Rattle.audit_run.specs.Judged.{answer_of, of_stop};

use crate::AuditLine;
use crate::taking::play_step;
use audit_fields::{Gatherer, HearEnd};
use broker_core::Journal;
use broker_model::NoMemory;
use broker_steps::{ENTRY_LIMIT, Limits, STORE_LIMIT, WEIGHT_LIMIT};
use seat_set::{Kept, Player, Stop};
use std::alloc::Global;
use std::marker::Model;
use thiserror::Error;

/// Why an audit doesn't go on.
#[derive(Clone, Copy, Debug, PartialEq, Eq, Error)]
pub enum AuditEnd {
    /// What the broker sent isn't what it owes.
    #[error("the broker sent something else")]
    No,
    /// The journal is full for a step or a take: so much it holds.
    #[error("the journal is full with {} entries", .0.entries)]
    JournalFull(Kept),
    /// There was no memory.
    #[error("there was no memory")]
    NoMemory,
}

// Why a step ends the audit.
fn of_stop(stop: Stop) -> AuditEnd
    ensures { result ≡ of_stop stop }
{
    match stop {
        Stop::Full(kept) => AuditEnd::JournalFull(kept),
        Stop::NoMemory => AuditEnd::NoMemory,
    }
}

// What a step that was played, or wasn't, is for the audit.
fn answer(played: Result<(), Stop>) -> Result<(), AuditEnd>
    ensures { result ≡ answer_of played }
{
    match played {
        Ok(()) => Ok(()),
        Err(stop) => Err(of_stop(stop)),
    }
}

/// Judges what a broker sent by what it was told, line by line.
///
/// In contracts it is what was played, what was gathered of it, how many dones were counted, and
/// why it ended, if it did. `Stands` says of which lines it is the audit.
#[derive(Drop)]
pub struct Audit {
    player: Player,
    gatherer: Gatherer,
    dones: u64,
    ended: Option<AuditEnd>,
}

impl Model for Audit {
    ghost use Rattle.audit_run.specs.Standing.{Auditing};

    ghost Value = { Auditing };

    ghost view = { λ a. record {
      player = a.player;
      gathering = a.gatherer;
      dones = a.dones;
      ended = a.ended;
    } };
}

impl Audit {
    ghost use Rattle.std.specs.Prelude.{◌≡◌, ℕ, List, [], ◌∷◌, min, IfOk, IfErr, IfSome, Some};
    ghost use Rattle.std.specs.Prelude.{None, Err, OnOk, OnErr, is_some, true};
    ghost use Rattle.audit_run.specs.declared.audit_line.AuditLine.{AuditLine as Line};
    ghost use Rattle.audit_run.specs.Judged.{dones_of, journal_of, most_dones, IsAuditLine, IsFair};
    ghost use Rattle.audit_run.specs.Judged.{IsEnd};
    ghost use Rattle.audit_run.specs.Standing.{Stands};
    ghost use Rattle.seat_set.specs.Playing.{IsShort};

    /// No line came yet. `NoMemory` is its one error.
    pub fn new(alloc: Global) -> Result<Audit, NoMemory>
        ensures stands { IfOk result (Stands []) }
    {
        let limits = Limits {
            entries: ENTRY_LIMIT,
            store: STORE_LIMIT,
            weight: WEIGHT_LIMIT,
        };
        Ok(Audit {
            player: Player::new(alloc, limits)?,
            gatherer: Gatherer::new(alloc),
            dones: 0,
            ended: None,
        })
    }

    /// How many dones were counted: those that what was sent to applications has whole.
    pub fn dones(&self) -> u64
        ensures { (lines : List Line) → Stands lines self.now →
            result ≡ min (dones_of lines) most_dones }
    {
        self.dones
    }

    /// What was played, also after an error. Fewer than 256 entries are in memory: it answers those
    /// alone. Besides those an audit keeps what the peers and objects of the seat keep, and what
    /// applications were told from the first field message on that they weren't sent yet.
    pub fn journal(&self) -> &Journal
        ensures entries { result.now.entries ≡ self.now.player.play.journal }
        ensures kept { result.now.kept_from ≡ self.now.player.kept_from }
        ensures short { IsShort self.now.player.play.journal result.now.kept_from }
    {
        self.player.journal()
    }

    /// Judges the next line.
    ///
    /// `No` comes exactly where it is an `out` line that isn't good, `JournalFull` exactly where the
    /// journal is full for a step of it or a take after it, before which it stopped. `NoMemory` may
    /// come too. After an error each line is answered the same, and all stays.
    pub fn line(&mut self, line: &AuditLine) -> Result<(), AuditEnd>
        requires valid { IsAuditLine line.now }
        ensures fair { OnOk result ((lines : List Line) → Stands lines self.old →
            IsFair line.now lines) }
        ensures stands { OnOk result ((lines : List Line) → Stands lines self.old →
            Stands (line.now ∷ lines) self.new) }
        ensures end { IfErr result (λ why. (lines : List Line) → Stands lines self.old →
            IsEnd line.now lines why) }
        ensures counted { OnErr result (self.new.dones ≡ self.old.dones) }
        ensures no { result ≡ Err AuditEnd.No → self.old.ended ≡ None →
            self.new ≡ record self.old { ended = Some AuditEnd.No } }
        ensures full { (kept : Kept) (lines : List Line) →
            result ≡ Err (AuditEnd.JournalFull kept) → Stands lines self.old →
            self.new.player.play.journal ≡ journal_of (line.now ∷ lines) }
        ensures ended { IfErr result (λ why. self.new.ended ≡ Some why) }
        ensures again { IfSome self.old.ended (λ why. result ≡ Err why) }
        ensures stays { is_some self.old.ended ≡ true → self.new ≡ self.old }
    {
        if let Some(why) = self.ended {
            return Err(why);
        }
        let judged = self.judge(line);
        if let Err(why) = judged {
            self.ended = Some(why);
        }
        judged
    }

    // The line of an audit that goes on.
    fn judge(&mut self, line: &AuditLine) -> Result<(), AuditEnd>
        requires valid { IsAuditLine line.now }
        ensures fair { OnOk result ((lines : List Line) → Stands lines self.old →
            IsFair line.now lines) }
        ensures stands { OnOk result ((lines : List Line) → Stands lines self.old →
            Stands (line.now ∷ lines) self.new) }
        ensures end { IfErr result (λ why. (lines : List Line) → Stands lines self.old →
            IsEnd line.now lines why) }
        ensures counted { OnErr result (self.new.dones ≡ self.old.dones) }
        ensures no { result ≡ Err AuditEnd.No → self.new ≡ self.old }
        ensures full { (kept : Kept) (lines : List Line) →
            result ≡ Err (AuditEnd.JournalFull kept) → Stands lines self.old →
            self.new.player.play.journal ≡ journal_of (line.now ∷ lines) }
        ensures unended { self.new.ended ≡ self.old.ended }
    {
        match line {
            AuditLine::Step(stamp, said) => {
                let played = play_step(&mut self.player, &mut self.gatherer, *stamp, said);
                answer(played)
            }
            AuditLine::Out(number, bytes) => match self.gatherer.hear(*number, bytes.as_slice()) {
                Ok(more) => {
                    self.dones = self.dones.saturating_add(more);
                    Ok(())
                }
                Err(HearEnd::Unlike) => Err(AuditEnd::No),
                Err(HearEnd::NoMemory) => Err(AuditEnd::NoMemory),
            },
        }
    }
}
