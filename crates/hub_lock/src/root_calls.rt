//! The calls of the root: peers join, passes are made and come back, and all is copied.
ghost use Rattle.std.specs.Prelude.{◌≡◌, ◌+◌, ◌<◌, ◌≤◌, ◌^◌, ℕ, IfOk, IfErr, None, Err, length};
ghost use Rattle.broker_model.specs.Settle.{outer};
ghost use Rattle.turn_lock.specs.Pairs.{own, NoneOf, IsIn, HasSeen};
ghost use Rattle.hub_lock.specs.Seats.{after_split, split_off, met_with, having_seen, IsMeeting};
ghost use Rattle.hub_lock.specs.Seats.{IsTallied};
ghost use Rattle.hub_lock.specs.Histories.{taken_in};
ghost use Rattle.hub_lock.specs.Finished.{seat_of};
ghost use Rattle.hub_lock.specs.Passes.{IsOf, steps_of, bytes_of, total_steps, total_bytes};
ghost use Rattle.hub_lock.specs.Steps.{HaveLines};
ghost use Rattle.hub_lock.specs.Calls.{LegalJoin, LegalCopy, IsJoined};

use crate::call::{Answer, Ask, Call};
use crate::hub::Hub;
use crate::pass::{HubPass, Member, Pass, ReaderPass, ShellPass, WriterPass};
use crate::session::{NoSession, Session};
use broker_core::JoinRefusal;
use relay_model::Role;
use std::sync::Wait;

impl Hub {
    // A pass more.
    fn split(&self, root: &mut HubPass) -> Member
        requires own { IsOf self.now root.old }
        requires room { root.old.next < 2 ^ 64 }
        ensures left { root.new ≡ after_split root.old }
        ensures right { result ≡ split_off root.old }
        ensures fresh { NoneOf result.number result.seen }
    {
        Member {
            seat: self.turn.split(&mut root.seat),
            steps: 0,
            entries: root.entries,
        }
    }

    /// A peer joins: the passes of its reader and its writer. They have the root's next two numbers.
    ///
    /// `TooManyPeers` comes where 64 peers are alive, so not before 64 joined, else `JournalFull` where
    /// the journal is full for a join, else `NoMemory` may come. What the root then has seen has no later step of a pass
    /// that was taken back. (Wait: it promises what it does if it returns.)
    pub fn join<R: Wait>(
        &self,
        rt: &R,
        root: &mut HubPass,
        role: Role,
    ) -> Result<(ReaderPass, WriterPass), JoinRefusal>
        requires own { IsOf self.now root.old }
        requires room { root.old.next ≤ 2 ^ 63 }
        ensures joined { IfOk result (λ both.
            IsJoined self.now.limits root.old root.new role both.0 both.1) }
        ensures fresh { IfOk result (λ both. NoneOf both.0.seat.number both.0.seat.seen ×
            NoneOf both.1.seat.number both.1.seat.seen) }
        ensures refused { IfErr result (λ why. (root.new ≡ having_seen root.old root.new.seen) ×
            LegalJoin self.now.limits root.old root.new.seen role (Err why)) }
        ensures settled { (n : ℕ) → IsIn n root.old.taken → HasSeen root.new.seen n root.old.seen }
        ensures few { length (own 0 root.old.seen) < 64 →
            (n : ℕ) → ¬ (result ≡ Err (JoinRefusal.TooManyPeers n)) }
    {
        let mut call = Call {
            number: 0,
            ask: Ask::Join(role, root.made() + 1),
        };
        let Answer::Joined(joined) = self.play_root(rt, root, &mut call) else {
            unreachable!()
        };
        let peer = joined?;
        let reader = self.split(root);
        let writer = self.split(root);
        Ok((
            ReaderPass {
                member: reader,
                peer,
            },
            WriterPass {
                member: writer,
                peer,
                bytes: 0,
                room: self.room(),
            },
        ))
    }

    /// A pass of the shell. It has the root's next number. (no memory)
    pub fn shell(&self, root: &mut HubPass) -> ShellPass
        requires own { IsOf self.now root.old }
        requires room { root.old.next ≤ 2 ^ 63 }
        ensures left { root.new ≡ after_split root.old }
        ensures right { result ≡ split_off root.old }
        ensures fresh { NoneOf result.number result.seen }
    {
        ShellPass {
            member: self.split(root),
        }
    }

    /// Takes a pass back: the root has then seen all that both had, and counts the pass's steps and
    /// bytes among its own. (no memory)
    pub fn finish(&self, root: &mut HubPass, pass: Pass)
        requires own { IsOf self.now root.old }
        requires back { IsOf self.now (seat_of pass) }
        ensures met { root.new ≡ met_with root.old (seat_of pass) }
        ensures both { IsMeeting root.old (seat_of pass) root.new.seen }
        ensures tallied { IsTallied root.new }
        ensures steps { total_steps root.new ≡ total_steps root.old + steps_of (seat_of pass) }
        ensures bytes { total_bytes root.new ≡ total_bytes root.old + bytes_of (seat_of pass) }
    {
        let (member, bytes) = pass.into_parts();
        let Member {
            seat,
            steps,
            entries,
        } = member;
        self.turn.meet(&mut root.seat, seat);
        root.steps += steps;
        root.bytes += bytes;
        root.entries = root.entries.max(entries);
    }

    /// A copy of the limits, of the whole journal as it stands, and of its stamps. Where no pass is
    /// out, the journal's outer steps are as many as the root counts, and they took as many bytes.
    /// It has no later step of a pass that was taken back.
    /// `HandedOut` comes where entries were handed out, so only once the root has named who records
    /// (`recorder`), for which it has to have made a pass; else `NoMemory` may come. (Wait: it promises
    /// what it does if it returns.)
    pub fn session<R: Wait>(&self, rt: &R, root: &mut HubPass) -> Result<Session, NoSession>
        requires own { IsOf self.now root.old }
        ensures root { root.new ≡ having_seen root.old root.new.seen }
        ensures legal { LegalCopy self.now.limits root.old root.new.seen result }
        ensures settled { (n : ℕ) → IsIn n root.old.taken → HasSeen root.new.seen n root.old.seen }
        ensures steps { root.old.out ≡ 0 → IfOk result (λ s.
            length (outer s.journal.entries) ≡ total_steps root.new) }
        ensures bytes { root.old.out ≡ 0 → IfOk result (λ s.
            taken_in s.journal.entries ≡ total_bytes root.new) }
        ensures lines { IfOk result (λ s. HaveLines s.journal.entries) }
        ensures unhanded { root.old.named ≡ None → ¬ (result ≡ Err NoSession.HandedOut) }
        ensures unmade { root.old.next ≡ 1 → ¬ (result ≡ Err NoSession.HandedOut) }
    {
        let mut call = Call {
            number: 0,
            ask: Ask::Copy,
        };
        let Answer::Copied(copied) = self.play_root(rt, root, &mut call) else {
            unreachable!()
        };
        copied
    }
}
