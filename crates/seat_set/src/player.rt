//! A session that is played line by line.
ghost use Rattle.std.specs.Prelude.{◌≡◌};
ghost use Rattle.seat_set.specs.Playing.{end_with};

use crate::session::{Session, Stop};
use broker_core::{Journal, Kept, StampList, Watch};
use broker_steps::{Limits, Stamp};
use lines_transcript::Printer;
use relay_core::Relay;
use session_text::SessionLine;
use std::alloc::Global;
use std::marker::Model;
use thiserror::Error;
use wio_core::NoMemory;

/// Where a session's line couldn't be played to its end. The text is what was written before.
#[derive(Debug, Drop, Error)]
pub enum PlayEnd {
    /// The journal is full for a step: so much it holds.
    #[error("the journal is full with {} entries", .0.entries)]
    JournalFull(Kept, String),
    /// There was no memory.
    #[error("there was no memory")]
    NoMemory(String),
}

/// Plays a session line by line. After an error it plays nothing more, and its journal stays what
/// was played, with as many entries in memory. Where 256 or more are in memory after a line that it
/// played, all are let go, and else none.
///
/// In contracts it is its limits, what was played so far, how many entries were let go, and whether
/// and why an error came.
#[derive(Drop)]
pub struct Player {
    alloc: Global,
    // Boxed, so that a player is small to move.
    session: Box<Session>,
    stopped: Option<Stop>,
}

impl Model for Player {
    ghost use Rattle.std.specs.Prelude.{is_some};
    ghost use Rattle.seat_set.specs.Playing.{Playing, IsShort};

    ghost Value = { Playing };

    ghost view = { λ p. record {
      limits = p.session.value.limits;
      play = p.session.value.play;
      stamps = p.session.value.stamps;
      kept_from = p.session.value.kept_from;
      is_spent = is_some p.stopped;
      stopped = p.stopped;
    } };

    ghost invariant = { λ p. IsShort p.session.value.play.journal p.session.value.kept_from };
}

// How a line ends, with its text.
fn ended(stop: Stop, text: String) -> PlayEnd
    ensures { result ≡ end_with stop text }
{
    match stop {
        Stop::Full(kept) => PlayEnd::JournalFull(kept, text),
        Stop::NoMemory => PlayEnd::NoMemory(text),
    }
}

impl Player {
    ghost use Rattle.std.specs.Prelude.{◌≡◌, [], length, false, true, Some, None, Err, IfOk, IfErr};
    ghost use Rattle.std.specs.Prelude.{IfSome, OnOk, OnErr};
    ghost use Rattle.broker_steps.specs.Ranges.{IsLimits};
    ghost use Rattle.session_text.specs.Steps.{IsSessionLine};
    ghost use Rattle.session_text.specs.declared.line.SessionLine.TheVariants as lines;
    ghost use Rattle.relay_core.specs.Stands.{StandsFor};
    ghost use Rattle.broker_model.specs.Resolve.{past_of, resolve};
    ghost use Rattle.broker_model.specs.Settle.{history, outer};
    ghost use Rattle.broker_model.specs.Stamps.{stamps, step_stamps};
    ghost use Rattle.seat_set.specs.Played.{line_played};
    ghost use Rattle.seat_set.specs.Playing.{AreStamped, IsPlayed, IsWatched, IsMore};
    ghost use Rattle.seat_set.specs.Playing.{IsShort, IsWritten, IsStopped, IsAgain, stop_of};
    ghost use Rattle.seat_set.specs.Playing.{kept_from_after};

    /// Nobody joined yet. Asks for limits in their ranges. `NoMemory` is its one error.
    pub fn new(alloc: Global, limits: Limits) -> Result<Player, NoMemory>
        requires limits { IsLimits limits }
        ensures new { IfOk result (λ p. p ≡ record {
          limits = limits;
          play = record { journal = []; unread = [] };
          stamps = [];
          kept_from = 0;
          is_spent = false;
          stopped = None;
        }) }
    {
        Ok(Player {
            alloc,
            session: Box::new(alloc, Session::new(alloc, limits)?)?,
            stopped: None,
        })
    }

    /// Plays a line, and tells who watches of each entry that it makes.
    ///
    /// `Full` comes where the journal is full for a step of the line, before which it stopped.
    /// `NoMemory` may come at any time, and then a front of the line's steps was played. After an
    /// error each line answers the same, and nothing is played.
    pub fn line_watched<W: Watch>(
        &mut self,
        line: &SessionLine,
        stamp: Stamp,
        watch: &mut W,
    ) -> Result<(), Stop>
        requires valid { IsSessionLine line.now }
        ensures played { self.old.is_spent ≡ false →
            IsPlayed (line_played self.old.limits line.now self.old.play) result self.new.play }
        ensures ok { OnOk result (self.new ≡ record self.old {
          play = self.new.play;
          stamps = self.new.stamps;
          kept_from = self.new.kept_from;
        }) }
        ensures stopped { IfErr result (λ stop. self.new.stopped ≡ Some stop) }
        ensures spent { OnErr result (self.new.is_spent ≡ true) }
        ensures again { IfSome self.old.stopped (λ stop. result ≡ Err stop) }
        ensures stays { self.old.is_spent ≡ true → self.new ≡ self.old }
        ensures limits { self.new.limits ≡ self.old.limits }
        ensures kept { self.old.is_spent ≡ false →
            self.new.kept_from ≡ kept_from_after self.old.kept_from (length self.new.play.journal) }
        ensures stamped { AreStamped stamp self.old.play.journal self.old.stamps
            self.new.play.journal self.new.stamps }
        ensures watched { IsWatched W.may_follow self.old.limits.store self.old.play.journal
            watch.old self.new.play.journal watch.new }
    {
        if let Some(stop) = self.stopped {
            return Err(stop);
        }
        let played = self.session.line(line, stamp, watch);
        self.session.let_go();
        if let Err(stop) = played {
            self.stopped = Some(stop);
        }
        played
    }

    /// Plays the line of a peer's bytes, as `line_watched` does.
    #[inline(always)]
    pub fn bytes_watched<W: Watch>(
        &mut self,
        number: u32,
        piece: &[u8],
        stamp: Stamp,
        watch: &mut W,
    ) -> Result<(), Stop>
        ensures played { self.old.is_spent ≡ false →
            IsPlayed (line_played self.old.limits (lines.Bytes number piece.now) self.old.play)
            result self.new.play }
        ensures ok { OnOk result (self.new ≡ record self.old {
          play = self.new.play;
          stamps = self.new.stamps;
          kept_from = self.new.kept_from;
        }) }
        ensures stopped { IfErr result (λ stop. self.new.stopped ≡ Some stop) }
        ensures spent { OnErr result (self.new.is_spent ≡ true) }
        ensures again { IfSome self.old.stopped (λ stop. result ≡ Err stop) }
        ensures stays { self.old.is_spent ≡ true → self.new ≡ self.old }
        ensures limits { self.new.limits ≡ self.old.limits }
        ensures kept { self.old.is_spent ≡ false →
            self.new.kept_from ≡ kept_from_after self.old.kept_from (length self.new.play.journal) }
        ensures stamped { AreStamped stamp self.old.play.journal self.old.stamps
            self.new.play.journal self.new.stamps }
        ensures watched { IsWatched W.may_follow self.old.limits.store self.old.play.journal
            watch.old self.new.play.journal watch.new }
    {
        if let Some(stop) = self.stopped {
            return Err(stop);
        }
        let played = self.session.bytes(number, piece, stamp, watch);
        self.session.let_go();
        if let Err(why) = played {
            self.stopped = Some(why);
        }
        played
    }

    // A line, and its part of the transcript if there was memory for it.
    fn printed(&mut self, line: &SessionLine, stamp: Stamp) -> (Result<(), Stop>, Option<String>)
        requires valid { IsSessionLine line.now }
        ensures played { self.old.is_spent ≡ false →
            IsPlayed (line_played self.old.limits line.now self.old.play) result.0 self.new.play }
        ensures ok { OnOk result.0 (self.new ≡ record self.old {
          play = self.new.play;
          stamps = self.new.stamps;
          kept_from = self.new.kept_from;
        }) }
        ensures stopped { IfErr result.0 (λ stop. self.new.stopped ≡ Some stop) }
        ensures spent { OnErr result.0 (self.new.is_spent ≡ true) }
        ensures limits { self.new.limits ≡ self.old.limits }
        ensures kept { self.old.is_spent ≡ false →
            self.new.kept_from ≡ kept_from_after self.old.kept_from (length self.new.play.journal) }
        ensures stamped { AreStamped stamp self.old.play.journal self.old.stamps
            self.new.play.journal self.new.stamps }
        ensures grew { IsMore self.old.play.journal self.new.play.journal }
        ensures text { IfSome result.1
            (IsWritten self.old.limits.store self.old.play self.new.play) }
    {
        let mut printer = Printer::new(self.alloc);
        let played = self.line_watched(line, stamp, &mut printer);
        (played, printer.finish())
    }

    /// Plays a line, and answers its part of the transcript.
    ///
    /// `JournalFull` comes where the journal is full for a step of the line, before which it
    /// stopped. `NoMemory` may come at any time, and then the text is a front of what was played.
    /// After an error each line answers the same with an empty text, and nothing is played.
    pub fn line(&mut self, line: &SessionLine, stamp: Stamp) -> Result<String, PlayEnd>
        requires valid { IsSessionLine line.now }
        ensures ok { self.old.is_spent ≡ false → IfOk result
            (λ text. let p = line_played self.old.limits line.now self.old.play in
            (p.is_full ≡ false) × (self.new ≡ record self.old
            { play = p.play; stamps = self.new.stamps; kept_from = self.new.kept_from }) ×
            IsWritten self.old.limits.store self.old.play p.play text) }
        ensures full { self.old.is_spent ≡ false → IfErr result (IsStopped self.old.limits.store
            (line_played self.old.limits line.now self.old.play) self.old.play self.new.play) }
        ensures stopped { IfErr result (λ e. self.new.stopped ≡ Some (stop_of e)) }
        ensures spent { OnErr result (self.new.is_spent ≡ true) }
        ensures again { IfSome self.old.stopped (λ stop. IsAgain stop result) }
        ensures stays { self.old.is_spent ≡ true → self.new ≡ self.old }
        ensures limits { self.new.limits ≡ self.old.limits }
        ensures kept { self.old.is_spent ≡ false →
            self.new.kept_from ≡ kept_from_after self.old.kept_from (length self.new.play.journal) }
        ensures stamped { AreStamped stamp self.old.play.journal self.old.stamps
            self.new.play.journal self.new.stamps }
    {
        if let Some(stop) = self.stopped {
            return Err(ended(stop, String::new(self.alloc)));
        }
        match self.printed(line, stamp) {
            (Ok(()), Some(text)) => Ok(text),
            (Err(stop), Some(text)) => Err(ended(stop, text)),
            (_, None) => {
                self.stopped = Some(Stop::NoMemory);
                Err(PlayEnd::NoMemory(String::new(self.alloc)))
            }
        }
    }

    /// How many entries the journal has, also after an error.
    pub fn entries(&self) -> u32
        ensures number { result ≡ length self.now.play.journal }
    {
        self.session.journal().len()
    }

    /// How many peers joined, alive or not. Their numbers go from 1.
    pub fn peers(&self) -> u32
        ensures { result ≡ length (past_of self.now.play.journal).joined }
    {
        self.session.shared.peers()
    }

    /// The relay of the seat, as it stands after what was played.
    pub fn relay(&self) -> &Relay
        ensures { StandsFor result.now (resolve self.now.play.journal) }
    {
        self.session.shared.relay()
    }

    /// What was played, also after an error. It is the history of its outer steps. Fewer than 256
    /// entries are in memory: it answers those alone.
    pub fn journal(&self) -> &Journal
        ensures entries { result.now.entries ≡ self.now.play.journal }
        ensures kept { result.now.kept_from ≡ self.now.kept_from }
        ensures short { IsShort self.now.play.journal result.now.kept_from }
        ensures history { history self.now.limits.store (outer self.now.play.journal)
            ≡ self.now.play.journal }
    {
        self.session.journal()
    }

    /// The stamps of the journal's entries, also after an error. Each step has the author that was
    /// given with its line. Those of entries that were let go went with them.
    pub fn stamps(&self) -> &StampList
        ensures stamps { result.now.stamps ≡ self.now.stamps }
        ensures kept { result.now.kept_from ≡ self.now.kept_from }
        ensures short { IsShort self.now.play.journal result.now.kept_from }
        ensures each { length self.now.stamps ≡ length self.now.play.journal }
        ensures stamped { stamps self.now.play.journal (step_stamps self.now.play.journal
            self.now.stamps) ≡ self.now.stamps }
    {
        self.session.stamps()
    }
}
