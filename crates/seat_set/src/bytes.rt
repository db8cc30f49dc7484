//! The lines of a session that are bytes of a peer: a step for each message that they complete.
use crate::ending::forget_ended;
use crate::session::{Session, Stop};
use crate::unread::{Found, place_of};
use broker_core::{Refused, Watch};
use broker_steps::{Stamp, Step};
use wio_core::NoMemory;
use wl_wire::Raw;

impl Session {
    ghost use Rattle.std.specs.Prelude.{◌≡◌, ◌≤◌, ◌++◌, length, true, IfOk, IfSome, OnErr};
    ghost use Rattle.broker_steps.specs.declared.step.PeerStep.TheVariants as peers;
    ghost use Rattle.broker_model.specs.declared.journal.Entry.TheVariants as entries;
    ghost use Rattle.broker_core.specs.declared.taking.Standing.TheVariants.{Alive};
    ghost use Rattle.broker_core.specs.Taking.{standing_of};
    ghost use Rattle.seat_set.specs.declared.unread.Found.TheVariants as finds;
    ghost use Rattle.broker_core.specs.Taking.{lives};
    ghost use Rattle.seat_set.specs.Played.{unread_of, step_played, bytes_played};
    ghost use Rattle.seat_set.specs.Playing.{AreStamped, IsPlayed, IsWatched, IsRead};

    // The next step that the piece gives behind the unread bytes of a live peer.
    fn read(&mut self, number: u32, piece: &[u8]) -> Result<Found, NoMemory>
        requires live { lives self.old.play.journal number ≡ true }
        ensures read { IfOk result (λ found. IsRead self.old number piece.now found self.new) }
        ensures limits { self.new.limits ≡ self.old.limits }
        ensures kept { self.new.kept_from ≡ self.old.kept_from }
        ensures journal { self.new.play.journal ≡ self.old.play.journal }
        ensures stamps { self.new.stamps ≡ self.old.stamps }
    {
        let Some(place) = place_of(&self.unread, number) else {
            unreachable!()
        };
        self.unread[place].read(self.alloc, piece)
    }

    // The message that the piece is, if it is a whole one and no bytes of the live peer wait.
    #[inline(always)]
    fn whole<'a>(&self, number: u32, piece: &'a [u8]) -> Option<Raw<'a>>
        requires live { lives self.now.play.journal number ≡ true }
        ensures { IfSome result (λ raw.
            IsRead self.now number piece.now
            (finds.Message (peers.Message raw.id raw.opcode raw.body.now) (length piece.now))
            self.now) }
    {
        let Some(place) = place_of(&self.unread, number) else {
            unreachable!()
        };
        match self.unread[place].cutter.front(piece) {
            Some((raw, used)) if used == piece.len() => Some(raw),
            _ => None,
        }
    }

    // A whole message of a live peer.
    #[inline(always)]
    fn message<W: Watch>(
        &mut self,
        number: u32,
        id: u32,
        opcode: u16,
        body: &[u8],
        stamp: Stamp,
        watch: &mut W,
    ) -> Result<(), Stop>
        requires short { length body.now ≤ 4088 }
        requires alive { standing_of self.old.play.journal number ≡ Alive }
        requires live { lives self.old.play.journal number ≡ true }
        ensures limits { self.new.limits ≡ self.old.limits }
        ensures kept { self.new.kept_from ≡ self.old.kept_from }
        ensures played { IsPlayed (step_played self.old.limits
            (entries.Message number id opcode body.now) self.old.play)
            result self.new.play }
        ensures stamped { AreStamped stamp self.old.play.journal self.old.stamps
            self.new.play.journal self.new.stamps }
        ensures watched { IsWatched W.may_follow self.old.limits.store self.old.play.journal
            watch.old self.new.play.journal watch.new }
    {
        match self
            .shared
            .message_watched(number, id, opcode, body, stamp, watch)
        {
            Ok(()) => {
                forget_ended(&self.shared, &mut self.unread);
                Ok(())
            }
            Err(Refused::JournalFull(kept)) => Err(Stop::Full(kept)),
            Err(Refused::NoMemory) => Err(Stop::NoMemory),
            Err(Refused::NoPeer | Refused::Ended(_)) => unreachable!(),
        }
    }

    // Bytes of a peer, message by message.
    #[inline(never)]
    fn message_bytes<W: Watch>(
        &mut self,
        number: u32,
        piece: &[u8],
        stamp: Stamp,
        watch: &mut W,
    ) -> Result<(), Stop>
        ensures limits { self.new.limits ≡ self.old.limits }
        ensures kept { self.new.kept_from ≡ self.old.kept_from }
        ensures played { IsPlayed (bytes_played self.old.limits number piece.now self.old.play)
            result self.new.play }
        ensures stamped { AreStamped stamp self.old.play.journal self.old.stamps
            self.new.play.journal self.new.stamps }
        ensures watched { IsWatched W.may_follow self.old.limits.store self.old.play.journal
            watch.old self.new.play.journal watch.new }
    {
        let mut rest = piece;
        while self.lives(number) {
            match self.read(number, rest)? {
                Found::Message(step, used) => {
                    self.step(&Step::Peer(number, step), stamp, watch)?;
                    let (_, more) = rest.split_at(used);
                    if more.is_empty() {
                        return Ok(());
                    }
                    rest = more;
                }
                Found::Nothing => return Ok(()),
                Found::BadSize(step) => return self.step(&Step::Peer(number, step), stamp, watch),
            }
        }
        Ok(())
    }

    /// Bytes of a peer. Those of one that isn't alive say nothing.
    #[inline(always)]
    pub(crate) fn bytes<W: Watch>(
        &mut self,
        number: u32,
        piece: &[u8],
        stamp: Stamp,
        watch: &mut W,
    ) -> Result<(), Stop>
        ensures limits { self.new.limits ≡ self.old.limits }
        ensures kept { self.new.kept_from ≡ self.old.kept_from }
        ensures played { IsPlayed (bytes_played self.old.limits number piece.now self.old.play)
            result self.new.play }
        ensures stamped { AreStamped stamp self.old.play.journal self.old.stamps
            self.new.play.journal self.new.stamps }
        ensures watched { IsWatched W.may_follow self.old.limits.store self.old.play.journal
            watch.old self.new.play.journal watch.new }
    {
        if self.lives(number) {
            if let Some(raw) = self.whole(number, piece) {
                return self.message(number, raw.id, raw.opcode, raw.body, stamp, watch);
            }
        }
        self.message_bytes(number, piece, stamp, watch)
    }
}
