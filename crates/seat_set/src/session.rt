//! The lines of a session that are one step each, played through the shared state.
use crate::ending::{forget_ended, keep_live};
use crate::short_journal::keep_short;
use crate::unread::{Unread, lives};
use broker_core::{JoinRefusal, Journal, Kept, Refused, Shared, StampList, Took, Watch};
use broker_cutter::Cutter;
use broker_steps::{Limits, PeerStep, Stamp, Step, TokenList};
use relay_model::Role;
use session_text::SessionLine;
use std::alloc::{AllocError, Global};
use std::marker::Model;
use thiserror::Error;
use wio_core::NoMemory;
use wl_wire::MESSAGE_LIMIT;

/// How many taken bytes a small buffer has room for.
const FEW: usize = 256;

/// Why a session isn't played further.
#[derive(Clone, Copy, Debug, PartialEq, Eq, Error)]
pub enum Stop {
    /// The journal is full for a step: so much it holds.
    #[error("the journal is full with {} entries", .0.entries)]
    Full(Kept),
    /// There was no memory.
    #[error("there was no memory")]
    NoMemory,
}

impl From<NoMemory> for Stop {
    ghost use Rattle.std.specs.Prelude.{◌≡◌};
    ghost use Rattle.seat_set.specs.declared.session.Stop.TheVariants as stops;

    ghost from_gives = { λ _ e. e ≡ stops.NoMemory };

    fn from(_: NoMemory) -> Self {
        Stop::NoMemory
    }
}

impl From<AllocError> for Stop {
    ghost use Rattle.std.specs.Prelude.{◌≡◌};
    ghost use Rattle.seat_set.specs.declared.session.Stop.TheVariants as stops;

    ghost from_gives = { λ _ e. e ≡ stops.NoMemory };

    fn from(_: AllocError) -> Self {
        Stop::NoMemory
    }
}

// A session that goes on. In contracts it is its limits and what was played so far.
#[derive(Drop)]
pub(crate) struct Session {
    pub alloc: Global,
    pub shared: Shared,
    // Of each live peer, in the order in which they joined.
    pub unread: Vec<Unread>,
}

impl Model for Session {
    ghost use Rattle.std.specs.Prelude.{map};
    ghost use Rattle.seat_set.specs.Unread.{waiting};
    ghost use Rattle.seat_set.specs.Playing.{Ongoing, AreWaiting, AreLive};

    ghost Value = { Ongoing };

    ghost view = { λ s. record {
      limits = s.shared.limits;
      play = record { journal = s.shared.journal; unread = map waiting s.unread.items };
      stamps = s.shared.stamps;
      kept_from = s.shared.kept_from;
    } };

    ghost invariant = { λ s. AreWaiting s.shared.journal (map waiting s.unread.items)
        × AreLive s.shared.journal (map waiting s.unread.items) };
}

impl Session {
    ghost use Rattle.std.specs.Prelude.{◌≡◌, ◌≤◌, [], length, IfOk, IfSome, true, if◌then◌else◌};
    ghost use Rattle.std.specs.Prelude.{Ok};
    ghost use Rattle.relay_model.specs.declared.act.EndCause.TheVariants.{Gone};
    ghost use Rattle.broker_steps.specs.declared.step.Step.TheVariants as steps;
    ghost use Rattle.broker_steps.specs.Ranges.{IsLimits, IsStep, IsWithin, token_limit};
    ghost use Rattle.session_text.specs.Steps.{IsSessionLine};
    ghost use Rattle.broker_model.specs.declared.journal.Entry.TheVariants as entries;
    ghost use Rattle.broker_model.specs.Ids.{peer_at};
    ghost use Rattle.broker_model.specs.Resolve.{past_of};
    ghost use Rattle.broker_model.specs.Settle.{history, outer};
    ghost use Rattle.broker_model.specs.Stamps.{stamps, step_stamps};
    ghost use Rattle.broker_core.specs.Broker.{entry_of, IsSaid};
    ghost use Rattle.broker_core.specs.declared.taking.Standing.TheVariants.{Alive};
    ghost use Rattle.broker_model.specs.Out.{stored};
    ghost use Rattle.broker_core.specs.Taking.{lives, out_at, standing_of};
    ghost use Rattle.seat_set.specs.Played.{step_played, gone_played, join_played, take_played};
    ghost use Rattle.seat_set.specs.Played.{tokens_played, line_played};
    ghost use Rattle.seat_set.specs.Playing.{AreStamped, IsPlayed, IsWatched, IsThere};
    ghost use Rattle.seat_set.specs.Playing.{IsEnough, IsShort, kept_from_after};

    /// Nobody joined yet. `NoMemory` is its one error.
    pub(crate) fn new(alloc: Global, limits: Limits) -> Result<Session, NoMemory>
        requires limits { IsLimits limits }
        ensures new { IfOk result (λ s. s ≡ record {
          limits = limits;
          play = record { journal = []; unread = [] };
          stamps = [];
          kept_from = 0;
        }) }
    {
        Ok(Session {
            alloc,
            shared: Shared::new(alloc, limits)?,
            unread: Vec::new(alloc),
        })
    }

    /// Whether the peer with the number joined and is alive.
    pub(crate) fn lives(&self, number: u32) -> bool
        ensures value { result ≡ lives self.now.play.journal number }
        ensures alive { result ≡ true → standing_of self.now.play.journal number ≡ Alive }
    {
        lives(&self.shared, number)
    }

    /// The journal.
    pub(crate) fn journal(&self) -> &Journal
        ensures entries { result.now.entries ≡ self.now.play.journal }
        ensures kept { result.now.kept_from ≡ self.now.kept_from }
        ensures history { history self.now.limits.store (outer self.now.play.journal)
            ≡ self.now.play.journal }
    {
        self.shared.journal()
    }

    /// The stamps of the journal.
    pub(crate) fn stamps(&self) -> &StampList
        ensures stamps { result.now.stamps ≡ self.now.stamps }
        ensures kept { result.now.kept_from ≡ self.now.kept_from }
        ensures each { length self.now.stamps ≡ length self.now.play.journal }
        ensures stamped { stamps self.now.play.journal (step_stamps self.now.play.journal
            self.now.stamps) ≡ self.now.stamps }
    {
        self.shared.stamps()
    }

    /// Where many entries of the journal are in memory, all are let go, with their stamps, and else
    /// none.
    #[inline(always)]
    pub(crate) fn let_go(&mut self)
        ensures same { self.new ≡ record self.old {
          kept_from = kept_from_after self.old.kept_from (length self.old.play.journal);
        } }
        ensures short { IsShort self.new.play.journal self.new.kept_from }
    {
        keep_short(&mut self.shared);
    }

    /// A step of a live peer or of the shell.
    pub(crate) fn step<W: Watch>(
        &mut self,
        step: &Step,
        stamp: Stamp,
        watch: &mut W,
    ) -> Result<(), Stop>
        requires step { IsStep step.now }
        requires said { IsSaid step.now }
        requires there { IsThere step.now self.old.play.journal }
        ensures limits { self.new.limits ≡ self.old.limits }
        ensures kept { self.new.kept_from ≡ self.old.kept_from }
        ensures played { IsPlayed (step_played self.old.limits (entry_of step.now) self.old.play)
            result self.new.play }
        ensures stamped { AreStamped stamp self.old.play.journal self.old.stamps
            self.new.play.journal self.new.stamps }
        ensures watched { IsWatched W.may_follow self.old.limits.store self.old.play.journal
            watch.old self.new.play.journal watch.new }
    {
        match self.shared.apply_watched(step, stamp, watch) {
            Ok(_) => {
                forget_ended(&self.shared, &mut self.unread);
                Ok(())
            }
            Err(Refused::JournalFull(kept)) => Err(Stop::Full(kept)),
            Err(Refused::NoMemory) => Err(Stop::NoMemory),
            Err(Refused::NoPeer | Refused::Ended(_)) => unreachable!(),
        }
    }

    /// A peer joins, unless so many are alive.
    pub(crate) fn join<W: Watch>(
        &mut self,
        role: Role,
        stamp: Stamp,
        watch: &mut W,
    ) -> Result<(), Stop>
        ensures limits { self.new.limits ≡ self.old.limits }
        ensures kept { self.new.kept_from ≡ self.old.kept_from }
        ensures played { IsPlayed (join_played self.old.limits (entries.Join role) self.old.play)
            result self.new.play }
        ensures stamped { AreStamped stamp self.old.play.journal self.old.stamps
            self.new.play.journal self.new.stamps }
        ensures watched { IsWatched W.may_follow self.old.limits.store self.old.play.journal
            watch.old self.new.play.journal watch.new }
    {
        let cutter = Cutter::new(self.alloc)?;
        self.unread.reserve(1)?;
        match self.shared.join_watched(role, stamp, watch) {
            Ok(number) => {
                let _ = self.unread.push(Unread { number, cutter });
                keep_live(&self.shared, &mut self.unread);
                Ok(())
            }
            Err(JoinRefusal::TooManyPeers(_)) => Ok(()),
            Err(JoinRefusal::JournalFull(kept)) => Err(Stop::Full(kept)),
            Err(JoinRefusal::NoMemory) => Err(Stop::NoMemory),
        }
    }

    /// The link of a peer ends, if it is alive.
    pub(crate) fn gone<W: Watch>(
        &mut self,
        number: u32,
        stamp: Stamp,
        watch: &mut W,
    ) -> Result<(), Stop>
        ensures limits { self.new.limits ≡ self.old.limits }
        ensures kept { self.new.kept_from ≡ self.old.kept_from }
        ensures played { IsPlayed (gone_played self.old.limits number self.old.play)
            result self.new.play }
        ensures stamped { AreStamped stamp self.old.play.journal self.old.stamps
            self.new.play.journal self.new.stamps }
        ensures watched { IsWatched W.may_follow self.old.limits.store self.old.play.journal
            watch.old self.new.play.journal watch.new }
    {
        if !self.lives(number) {
            return Ok(());
        }
        self.step(&Step::Peer(number, PeerStep::Gone), stamp, watch)
    }

    /// Tokens of a peer, if it is alive.
    pub(crate) fn tokens<W: Watch>(
        &mut self,
        number: u32,
        tokens: &TokenList,
        stamp: Stamp,
        watch: &mut W,
    ) -> Result<(), Stop>
        requires { IsWithin token_limit (length tokens.now) }
        ensures limits { self.new.limits ≡ self.old.limits }
        ensures kept { self.new.kept_from ≡ self.old.kept_from }
        ensures played { IsPlayed (tokens_played self.old.limits number tokens.now self.old.play)
            result self.new.play }
        ensures stamped { AreStamped stamp self.old.play.journal self.old.stamps
            self.new.play.journal self.new.stamps }
        ensures watched { IsWatched W.may_follow self.old.limits.store self.old.play.journal
            watch.old self.new.play.journal watch.new }
    {
        if !self.lives(number) {
            return Ok(());
        }
        let step = Step::Peer(number, PeerStep::Tokens(tokens.copy(self.alloc)?));
        self.step(&step, stamp, watch)
    }

    // The first bytes that are stored for a peer go into the buffer, which nobody reads. It has room for
    // as many as there are, or are asked for.
    fn take_into<W: Watch>(
        &mut self,
        number: u32,
        most: u32,
        bytes: &mut [u8],
        stamp: Stamp,
        watch: &mut W,
    ) -> Result<(), Stop>
        requires most { 1 ≤ most }
        requires some { 1 ≤ length bytes.old }
        requires piece { length bytes.old ≤ 4096 }
        requires enough { IfSome (out_at self.old.limits.store self.old.play.journal number)
            (IsEnough (length bytes.old) most) }
        ensures limits { self.new.limits ≡ self.old.limits }
        ensures kept { self.new.kept_from ≡ self.old.kept_from }
        ensures played { IsPlayed (take_played self.old.limits number most self.old.play
            (peer_at (past_of self.old.play.journal) number)) result self.new.play }
        ensures stamped { AreStamped stamp self.old.play.journal self.old.stamps
            self.new.play.journal self.new.stamps }
        ensures watched { IsWatched W.may_follow self.old.limits.store self.old.play.journal
            watch.old self.new.play.journal watch.new }
    {
        let mut tokens = [0u32; 256];
        match self
            .shared
            .take_watched(number, bytes, &mut tokens, stamp, watch)
        {
            Took::Bytes(..) => {
                forget_ended(&self.shared, &mut self.unread);
                Ok(())
            }
            Took::NoPeer | Took::Closed | Took::Empty => Ok(()),
            Took::JournalFull(kept) => Err(Stop::Full(kept)),
            Took::NoMemory => Err(Stop::NoMemory),
        }
    }

    // By way of a buffer for as many bytes as a take may ask for, which is made for this alone.
    #[inline(never)]
    fn take_many<W: Watch>(
        &mut self,
        number: u32,
        most: u32,
        stamp: Stamp,
        watch: &mut W,
    ) -> Result<(), Stop>
        requires some { 1 ≤ most }
        requires piece { most ≤ 4096 }
        ensures limits { self.new.limits ≡ self.old.limits }
        ensures kept { self.new.kept_from ≡ self.old.kept_from }
        ensures played { IsPlayed (take_played self.old.limits number most self.old.play
            (peer_at (past_of self.old.play.journal) number)) result self.new.play }
        ensures stamped { AreStamped stamp self.old.play.journal self.old.stamps
            self.new.play.journal self.new.stamps }
        ensures watched { IsWatched W.may_follow self.old.limits.store self.old.play.journal
            watch.old self.new.play.journal watch.new }
    {
        let mut bytes = [0u8; MESSAGE_LIMIT];
        self.take_into(number, most, &mut bytes[..most as usize], stamp, watch)
    }

    // By way of a small buffer, where no more are stored than it has room for.
    #[inline(never)]
    fn take_few<W: Watch>(
        &mut self,
        number: u32,
        most: u32,
        stamp: Stamp,
        watch: &mut W,
    ) -> Result<(), Stop>
        requires some { 1 ≤ most }
        requires few { IfSome (out_at self.old.limits.store self.old.play.journal number)
            (λ out. length (stored out) ≤ 256) }
        ensures limits { self.new.limits ≡ self.old.limits }
        ensures kept { self.new.kept_from ≡ self.old.kept_from }
        ensures played { IsPlayed (take_played self.old.limits number most self.old.play
            (peer_at (past_of self.old.play.journal) number)) result self.new.play }
        ensures stamped { AreStamped stamp self.old.play.journal self.old.stamps
            self.new.play.journal self.new.stamps }
        ensures watched { IsWatched W.may_follow self.old.limits.store self.old.play.journal
            watch.old self.new.play.journal watch.new }
    {
        let mut bytes = [0u8; FEW];
        let length = FEW.min(most as usize);
        self.take_into(number, most, &mut bytes[..length], stamp, watch)
    }

    /// The first bytes that are stored for a peer are taken.
    pub(crate) fn take<W: Watch>(
        &mut self,
        number: u32,
        most: u32,
        stamp: Stamp,
        watch: &mut W,
    ) -> Result<(), Stop>
        requires some { 1 ≤ most }
        requires piece { most ≤ 4096 }
        ensures limits { self.new.limits ≡ self.old.limits }
        ensures kept { self.new.kept_from ≡ self.old.kept_from }
        ensures played { IsPlayed (take_played self.old.limits number most self.old.play
            (peer_at (past_of self.old.play.journal) number)) result self.new.play }
        ensures stamped { AreStamped stamp self.old.play.journal self.old.stamps
            self.new.play.journal self.new.stamps }
        ensures watched { IsWatched W.may_follow self.old.limits.store self.old.play.journal
            watch.old self.new.play.journal watch.new }
    {
        match self.shared.stored(number) {
            Some(stored) if stored > FEW => self.take_many(number, most, stamp, watch),
            _ => self.take_few(number, most, stamp, watch),
        }
    }

    /// One line.
    pub(crate) fn line<W: Watch>(
        &mut self,
        line: &SessionLine,
        stamp: Stamp,
        watch: &mut W,
    ) -> Result<(), Stop>
        requires valid { IsSessionLine line.now }
        ensures limits { self.new.limits ≡ self.old.limits }
        ensures kept { self.new.kept_from ≡ self.old.kept_from }
        ensures played { IsPlayed (line_played self.old.limits line.now self.old.play)
            result self.new.play }
        ensures stamped { AreStamped stamp self.old.play.journal self.old.stamps
            self.new.play.journal self.new.stamps }
        ensures watched { IsWatched W.may_follow self.old.limits.store self.old.play.journal
            watch.old self.new.play.journal watch.new }
    {
        match line {
            SessionLine::Join(role) => self.join(*role, stamp, watch),
            SessionLine::Bytes(number, piece) => {
                self.bytes(*number, piece.as_slice(), stamp, watch)
            }
            SessionLine::Gone(number) => self.gone(*number, stamp, watch),
            SessionLine::Take(number, most) => self.take(*number, *most, stamp, watch),
            SessionLine::Tokens(number, tokens) => self.tokens(*number, tokens, stamp, watch),
            SessionLine::Shell(step) => self.step(&Step::Shell(*step), stamp, watch),
        }
    }
}
