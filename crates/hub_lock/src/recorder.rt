//! Who records: the entries are handed out to it in order, each once, and let go.
ghost use Rattle.std.specs.Prelude.{◌≡◌, ◌≤◌, ◌^◌, ℕ, [], length, None, IfSome, IfNone, IsSome};
ghost use Rattle.turn_lock.specs.Pairs.{NoneOf, IsIn, HasSeen};
ghost use Rattle.hub_lock.specs.Seats.{after_split, split_off, having_seen, naming};
ghost use Rattle.hub_lock.specs.Passes.{IsOf, journal_seen};
ghost use Rattle.hub_lock.specs.Recording.{HasFront, after_handing, recorder, LegalLook};
ghost use Rattle.hub_lock.specs.Recording.{LegalHandOut};

use crate::call::{Answer, Ask, Call, Reply};
use crate::hub::Hub;
use crate::pass::{HubPass, RecorderPass};
use broker_audience::Past;
use broker_core::LetGo;
use std::sync::Wait;

impl Hub {
    /// The pass of who records. It has the root's next number, and nothing was handed out to it. None
    /// where the root named one before: a hub has one at most. (Wait: it promises what it does if it
    /// returns.)
    pub fn recorder<R: Wait>(&self, rt: &R, root: &mut HubPass) -> Option<RecorderPass>
        requires own { IsOf self.now root.old }
        requires room { root.old.next ≤ 2 ^ 63 }
        ensures left { IfSome result (λ pass.
            root.new ≡ after_split (naming (having_seen root.old root.new.seen))) }
        ensures right { IfSome result (λ pass.
            pass ≡ recorder (split_off (having_seen root.old root.new.seen)) []) }
        ensures fresh { IfSome result (λ pass. NoneOf pass.seat.number pass.seat.seen) }
        ensures none { IfNone result (root.new ≡ having_seen root.old root.new.seen) }
        ensures unnamed { root.old.named ≡ None → IsSome result }
        ensures first { root.old.next ≡ 1 → IsSome result }
        ensures legal { LegalLook self.now.limits root.old root.new.seen }
        ensures settled { (n : ℕ) → IsIn n root.old.taken → HasSeen root.new.seen n root.old.seen }
    {
        let mut call = Call {
            number: 0,
            ask: Ask::Name(root.seat.made() + 1),
        };
        let Reply {
            answer,
            rings: _,
            entries,
        } = self.play(rt, &mut root.seat, &mut call);
        root.entries = entries;
        let Answer::Named(named) = answer else {
            unreachable!()
        };
        let _number = named?;
        Some(RecorderPass {
            seat: self.turn.split(&mut root.seat),
            entries,
            count: 0,
            handed: Past::new(),
        })
    }

    /// Hands out the oldest entry that wasn't handed out, with its number and its stamp, and lets it
    /// go; none where all were. (Wait: it promises what it does if it returns.)
    pub fn hand_out<R: Wait>(&self, rt: &R, pass: &mut RecorderPass) -> Option<LetGo>
        requires own { IsOf self.now pass.old.seat }
        ensures pass { pass.new ≡ after_handing pass.old pass.new.seat.seen result }
        ensures legal { LegalHandOut self.now.limits pass.old pass.new.seat.seen result }
    {
        let mut call = Call {
            number: pass.seat.number(),
            ask: Ask::HandOut,
        };
        let Reply {
            answer,
            rings: _,
            entries,
        } = self.play(rt, &mut pass.seat, &mut call);
        pass.entries = entries;
        let Answer::HandedOut(handed) = answer else {
            unreachable!()
        };
        let next = handed?;
        let before = std::mem::replace(&mut pass.handed, Past::new());
        pass.handed = before.with(&next);
        pass.count = next.number;
        Some(next)
    }

    /// As `hand_out`, and sleeps while there is no entry: it answers none only once the record has
    /// ended (`end_record`), where all were handed out.
    pub fn wait_hand_out<R: Wait>(&self, rt: &R, pass: &mut RecorderPass) -> Option<LetGo>
        requires own { IsOf self.now pass.old.seat }
        ensures pass { pass.new ≡ after_handing pass.old pass.new.seat.seen result }
        ensures legal { LegalHandOut self.now.limits pass.old pass.new.seat.seen result }
    {
        for _ in rt.forever() {
            let heard = self.record_bell.heard();
            let is_over = self.record_bell.is_over();
            let next = self.hand_out(rt, pass);
            if next.is_some() || is_over {
                return next;
            }
            self.record_bell.wait_past(rt, heard);
        }
        unreachable!()
    }

    /// The record ends once so many users have left: who records is then no longer kept waiting where
    /// all entries were handed out. No contract speaks of it. (no memory)
    pub fn end_record(&self, users: u64) {
        self.record_bell.end(users);
    }

    /// A user makes no more calls. Of each pass it is said once at most. No contract speaks of it. (no
    /// memory)
    pub fn leave(&self) {
        self.record_bell.leave();
    }
}

impl RecorderPass {
    /// How many entries were handed out: the oldest of the journal that the pass has seen, in order.
    /// (no memory)
    pub fn count(&self) -> u32
        ensures number { result ≡ length self.now.handed }
        ensures front { HasFront self.now }
    {
        self.count
    }

    /// How many entries the journal had that it has seen. (no memory)
    pub fn seen(&self) -> u32
        ensures { result ≡ length (journal_seen self.now.seat) }
    {
        self.entries
    }
}
