//! One of several seats.
ghost use Rattle.std.specs.Prelude.{◌≡◌, length, IfOk, OnOk, OnErr, None};
ghost use Rattle.broker_steps.specs.Ranges.{IsLimits};
ghost use Rattle.session_text.specs.Steps.{IsSessionLine};
ghost use Rattle.session_text.specs.declared.line.SessionLine.TheVariants as lines;
ghost use Rattle.seat_set.specs.Playing.{IsWatched};
ghost use Rattle.seat_set.specs.Seats.{fresh, seat_after};
ghost use Rattle.seat_set.specs.Begun.{IsBegun};

use crate::{Kept, Player, Stop, Watch};
use broker_steps::{Limits, Stamp};
use session_text::SessionLine;
use std::alloc::Global;
use std::marker::Model;
use wio_core::NoMemory;

// A line of form 1 has no stamp.
const UNSTAMPED: Stamp = Stamp {
    moment: 0,
    author: 0,
};

/// A seat, which plays lines until its journal is full for a step.
#[derive(Drop)]
pub(crate) struct SeatPlayer {
    player: Player,
    stopped: Option<Stop>,
}

impl Model for SeatPlayer {
    ghost use Rattle.std.specs.Prelude.{◌≡◌, false, None};
    ghost use Rattle.seat_set.specs.Seats.{Seat, seat_of};

    ghost Value = { Seat };

    ghost view = { λ s. seat_of s.player s.stopped };

    ghost invariant = { λ s. s.stopped ≡ None → s.player.is_spent ≡ false };
}

impl SeatPlayer {
    /// Nothing was played yet.
    pub(crate) fn new(alloc: Global, limits: Limits) -> Result<SeatPlayer, NoMemory>
        requires limits { IsLimits limits }
        ensures { IfOk result (λ seat. seat ≡ fresh limits) }
    {
        Ok(SeatPlayer {
            player: Player::new(alloc, limits)?,
            stopped: None,
        })
    }

    /// How many entries the journal has.
    pub(crate) fn entries(&self) -> u32
        ensures { result ≡ length self.now.play.journal }
    {
        self.player.entries()
    }

    /// How much the journal held where a step met it full.
    pub(crate) fn full(&self) -> Option<Kept>
        ensures { result ≡ self.now.full }
    {
        match self.stopped {
            Some(Stop::Full(kept)) => Some(kept),
            Some(Stop::NoMemory) | None => None,
        }
    }

    /// Plays a line, and tells who watches of each entry that it makes, up to the step that the
    /// journal is full for.
    pub(crate) fn play<W: Watch>(
        &mut self,
        line: &SessionLine,
        watch: &mut W,
    ) -> Result<(), NoMemory>
        requires valid { IsSessionLine line.now }
        requires open { self.old.full ≡ None }
        ensures ok { OnOk result (self.new ≡ seat_after line.now self.old) }
        ensures part { OnErr result (IsBegun line.now self.old self.new) }
        ensures watched { OnOk result (IsWatched W.may_follow self.old.limits.store
            self.old.play.journal watch.old self.new.play.journal watch.new) }
    {
        if self.stopped.is_some() {
            return Err(NoMemory);
        }
        match self.player.line_watched(line, UNSTAMPED, watch) {
            Ok(()) => Ok(()),
            Err(Stop::Full(kept)) => {
                self.stopped = Some(Stop::Full(kept));
                Ok(())
            }
            Err(Stop::NoMemory) => {
                self.stopped = Some(Stop::NoMemory);
                Err(NoMemory)
            }
        }
    }

    /// Plays the line of a peer's bytes, as `play` does.
    #[inline(always)]
    pub(crate) fn play_bytes<W: Watch>(
        &mut self,
        peer: u32,
        piece: &[u8],
        watch: &mut W,
    ) -> Result<(), NoMemory>
        requires open { self.old.full ≡ None }
        ensures ok { OnOk result (self.new ≡ seat_after (lines.Bytes peer piece.now) self.old) }
        ensures part { OnErr result (IsBegun (lines.Bytes peer piece.now) self.old self.new) }
        ensures watched { OnOk result (IsWatched W.may_follow self.old.limits.store
            self.old.play.journal watch.old self.new.play.journal watch.new) }
    {
        if self.stopped.is_some() {
            return Err(NoMemory);
        }
        match self.player.bytes_watched(peer, piece, UNSTAMPED, watch) {
            Ok(()) => Ok(()),
            Err(Stop::Full(full)) => {
                self.stopped = Some(Stop::Full(full));
                Ok(())
            }
            Err(Stop::NoMemory) => {
                self.stopped = Some(Stop::NoMemory);
                Err(NoMemory)
            }
        }
    }
}
