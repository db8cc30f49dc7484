//! The calls of readers, writers and the shell.
ghost use Rattle.std.specs.Prelude.{◌≡◌, ◌≤◌, length, Err};
ghost use Rattle.relay_model.specs.declared.act.EndCause.{EndCause};
ghost use Rattle.broker_steps.specs.declared.step.Step.TheVariants as steps;
ghost use Rattle.broker_steps.specs.Ranges.{IsPeerStep, IsShellStep};
ghost use Rattle.broker_core.specs.Broker.{IfBytes, IfNoBytes};
ghost use Rattle.broker_core.specs.Taking.{out_at};
ghost use Rattle.hub_lock.specs.Seats.{having_seen};
ghost use Rattle.hub_lock.specs.Passes.{IsOf};
ghost use Rattle.hub_lock.specs.Plays.{counts_of};
ghost use Rattle.hub_lock.specs.Rooms.{nothing_taken};
ghost use Rattle.hub_lock.specs.Calls.{LegalStep, UnlessMemory, pass_having_seen, IsCopied};
ghost use Rattle.hub_lock.specs.Calls.{IsTake, IsTakeOut};

use crate::call::{Answer, Applying, Ask, Call, Most, Taking};
use crate::hub::Hub;
use crate::pass::{ReaderPass, ShellPass, WriterPass};
use crate::room::{MOST_BYTES, Room};
use broker_core::{Applied, Refused, Took};
use broker_steps::{PeerStep, ShellStep, Step};
use std::mem::replace;
use std::sync::Wait;

// How many bytes and tokens were taken.
fn counts_of(took: Took) -> (usize, usize)
    ensures { result ≡ counts_of took }
{
    match took {
        Took::Bytes(bytes, tokens) => (bytes, tokens),
        _ => (0, 0),
    }
}

impl Hub {
    /// Gives a step of the pass's peer.
    ///
    /// `Ended` comes where the journal has the peer's end, else `JournalFull` where the journal is
    /// full for the step, else `NoMemory` may come. `PeerStep::Gone` is refused for neither the
    /// journal nor memory. (Wait: it promises what it does if it returns.)
    pub fn submit<R: Wait>(
        &self,
        rt: &R,
        pass: &mut ReaderPass,
        step: &PeerStep,
    ) -> Result<Applied, Refused>
        requires own { IsOf self.now pass.old.seat }
        requires step { IsPeerStep step.now }
        ensures pass { pass.new ≡ pass_having_seen pass.old pass.new.seat.seen }
        ensures legal { UnlessMemory step.now
            ((pass.new ≡ pass.old) × (result ≡ Err Refused.NoMemory))
            (LegalStep self.now.limits pass.old.seat pass.new.seat.seen
            (steps.Peer pass.old.peer step.now) result) }
        ensures joined { ¬ (result ≡ Err Refused.NoPeer) }
    {
        match self.copied(step) {
            Some(step) => self.submit_own(rt, pass, step),
            None => Err(Refused::NoMemory),
        }
    }

    /// As `submit`, of a step that is given away. Nothing is copied for the call, so that its turn
    /// is taken in any case.
    pub fn submit_own<R: Wait>(
        &self,
        rt: &R,
        pass: &mut ReaderPass,
        step: PeerStep,
    ) -> Result<Applied, Refused>
        requires own { IsOf self.now pass.old.seat }
        requires step { IsPeerStep step }
        ensures pass { pass.new ≡ pass_having_seen pass.old pass.new.seat.seen }
        ensures legal { LegalStep self.now.limits pass.old.seat pass.new.seat.seen
            (steps.Peer pass.old.peer step) result }
        ensures joined { ¬ (result ≡ Err Refused.NoPeer) }
    {
        let peer = pass.peer;
        let mut call = Call {
            number: pass.member.seat.number(),
            ask: Ask::Apply(Applying::new(Step::Peer(peer, step))),
        };
        let Answer::Applied(applied) = self.play_by(rt, &mut pass.member, &mut call) else {
            unreachable!()
        };
        applied
    }

    // The same step in memory of its own. The end of a link takes none.
    fn copied(&self, step: &PeerStep) -> Option<PeerStep>
        ensures { IsCopied step.now result }
    {
        match step {
            PeerStep::Gone => Some(PeerStep::Gone),
            step => step.copy(self.alloc).ok(),
        }
    }

    /// Gives an order of the shell.
    ///
    /// `JournalFull` comes where the journal is full for the order, else `NoMemory` may come.
    /// (Wait: it promises what it does if it returns.)
    pub fn order<R: Wait>(
        &self,
        rt: &R,
        pass: &mut ShellPass,
        step: &ShellStep,
    ) -> Result<Applied, Refused>
        requires own { IsOf self.now pass.old }
        requires step { IsShellStep step.now }
        ensures pass { pass.new ≡ having_seen pass.old pass.new.seen }
        ensures legal { LegalStep self.now.limits pass.old pass.new.seen
            (steps.Shell step.now) result }
        ensures said { ¬ (result ≡ Err Refused.NoPeer) }
        ensures goes_on { (cause : EndCause) → ¬ (result ≡ Err (Refused.Ended cause)) }
    {
        let mut call = Call {
            number: pass.member.seat.number(),
            ask: Ask::Apply(Applying::new(Step::Shell(*step))),
        };
        let Answer::Applied(applied) = self.play_by(rt, &mut pass.member, &mut call) else {
            unreachable!()
        };
        applied
    }

    /// Takes what is stored for the pass's peer: as many bytes as fit into the buffer, 1 to 4,096,
    /// and the tokens whose messages begin in them, into a buffer for 256 at least.
    ///
    /// `Closed` comes where nothing is stored and the peer has ended, `Empty` where nothing is
    /// stored and it hasn't, else `JournalFull` where the journal is full for a take, else
    /// `NoMemory` may come. (Wait: it promises what it does if it returns.)
    pub fn take<R: Wait>(
        &self,
        rt: &R,
        pass: &mut WriterPass,
        buf: &mut [u8],
        tokens: &mut [u32],
    ) -> Took
        requires own { IsOf self.now pass.old.seat }
        requires some { 1 ≤ length buf.old }
        requires piece { length buf.old ≤ 4096 }
        requires places { 256 ≤ length tokens.old }
        ensures pass { pass.new ≡ pass_having_seen pass.old pass.new.seat.seen }
        ensures legal { IsTake self.now.limits pass.old pass.new buf.old tokens.old buf.new
            tokens.new result }
        ensures joined { ¬ (result ≡ Took.NoPeer) }
    {
        let room = replace(&mut pass.room, self.room());
        let (took, room) = self.take_most(rt, pass, buf.len(), room);
        let bytes = room.bytes();
        let came = room.tokens();
        buf[..bytes.len()].copy_from_slice(bytes);
        tokens[..came.len()].copy_from_slice(came);
        pass.room = room;
        took
    }

    // As `take_into`, of so many bytes at most, and gives the room back.
    fn take_most<R: Wait>(
        &self,
        rt: &R,
        pass: &mut WriterPass,
        most: usize,
        room: Room,
    ) -> (Took, Room)
        requires own { IsOf self.now pass.old.seat }
        requires most { (1 ≤ most) × (most ≤ 4096) }
        ensures pass { pass.new ≡ pass_having_seen pass.old pass.new.seat.seen }
        ensures legal { IsTakeOut self.now.limits pass.old pass.new most result.1 result.0 }
        ensures few { (length result.1.bytes ≤ most) × (length result.1.tokens ≤ 256) }
        ensures joined { ¬ (result.0 ≡ Took.NoPeer) }
    {
        let places = room.into_places().with_memory(self.alloc);
        let peer = pass.peer;
        let mut call = Call {
            number: pass.member.seat.number(),
            ask: Ask::Take(Taking {
                peer,
                most: Most::new(most),
                places,
            }),
        };
        let Answer::Took(took) = self.play_by(rt, &mut pass.member, &mut call) else {
            unreachable!()
        };
        let Call { number: _, ask } = call;
        let (bytes, tokens) = counts_of(took);
        pass.bytes += bytes as u64;
        (took, Room::of(ask.into_places(self.alloc), bytes, tokens))
    }

    /// A room for takes, in which nothing stands. Its memory is made at the first take. (no memory)
    pub fn room(&self) -> Room
        ensures { result ≡ nothing_taken }
    {
        Room::new(self.alloc)
    }

    /// As `take`, of up to 4,096 bytes into the room, which lends them with their tokens. After
    /// another answer than `Bytes` nothing stands in it.
    pub fn take_into<R: Wait>(&self, rt: &R, pass: &mut WriterPass, room: &mut Room) -> Took
        requires own { IsOf self.now pass.old.seat }
        ensures pass { pass.new ≡ pass_having_seen pass.old pass.new.seat.seen }
        ensures legal { IsTakeOut self.now.limits pass.old pass.new 4096 room.new result }
        ensures few { (length room.new.bytes ≤ 4096) × (length room.new.tokens ≤ 256) }
        ensures joined { ¬ (result ≡ Took.NoPeer) }
    {
        let lent = replace(room, self.room());
        let (took, taken) = self.take_most(rt, pass, MOST_BYTES, lent);
        *room = taken;
        took
    }

    /// As `take_into`, and sleeps while there is nothing to take: it never answers `Empty`.
    pub fn wait_take_into<R: Wait>(&self, rt: &R, pass: &mut WriterPass, room: &mut Room) -> Took
        requires own { IsOf self.now pass.old.seat }
        ensures pass { pass.new ≡ pass_having_seen pass.old pass.new.seat.seen }
        ensures legal { IsTakeOut self.now.limits pass.old pass.new 4096 room.new result }
        ensures few { (length room.new.bytes ≤ 4096) × (length room.new.tokens ≤ 256) }
        ensures joined { ¬ (result ≡ Took.NoPeer) }
        ensures waited { ¬ (result ≡ Took.Empty) }
    {
        let peer = pass.peer;
        for _ in rt.forever() {
            let heard = self.bells.heard(peer);
            let answer = self.take_into(rt, pass, room);
            if let Took::Empty = answer {
                self.bells.wait_past(rt, peer, heard);
            } else {
                return answer;
            }
        }
        unreachable!()
    }

    /// As `take`, and sleeps while there is nothing to take: it never answers `Empty`.
    pub fn wait_take<R: Wait>(
        &self,
        rt: &R,
        pass: &mut WriterPass,
        buf: &mut [u8],
        tokens: &mut [u32],
    ) -> Took
        requires own { IsOf self.now pass.old.seat }
        requires some { 1 ≤ length buf.old }
        requires piece { length buf.old ≤ 4096 }
        requires places { 256 ≤ length tokens.old }
        ensures pass { pass.new ≡ pass_having_seen pass.old pass.new.seat.seen }
        ensures legal { IsTake self.now.limits pass.old pass.new buf.old tokens.old buf.new
            tokens.new result }
        ensures joined { ¬ (result ≡ Took.NoPeer) }
        ensures waited { ¬ (result ≡ Took.Empty) }
    {
        let peer = pass.peer;
        for _ in rt.forever() {
            let heard = self.bells.heard(peer);
            let took = self.take(rt, pass, buf, tokens);
            if let Took::Empty = took {
                self.bells.wait_past(rt, peer, heard);
            } else {
                return took;
            }
        }
        unreachable!()
    }
}
