//! The hub, and a turn at its lock.
ghost use Rattle.std.specs.Prelude.{◌≡◌, ◌+◌, ◌<◌, ◌≤◌, ◌^◌, ℕ, [], Some, None, IfOk, length, true};
ghost use Rattle.broker_core.specs.Broker.{Broker};
ghost use Rattle.broker_steps.specs.Ranges.{IsLimits};
ghost use Rattle.turn_lock.specs.Pairs.{IsIn, HasSeen};
ghost use Rattle.turn_lock.specs.Sights as sights;
ghost use Rattle.turn_lock.specs.Sights.{IsLegal};
ghost use Rattle.hub_lock.specs.Passes.{IsOf, bytes_of};
ghost use Rattle.hub_lock.specs.Seats.{fresh_seat, having_seen, IsTallied};
ghost use Rattle.hub_lock.specs.Plays.{MayAsk, bytes_made};
ghost use Rattle.hub_lock.specs.Events.{pass_seat};
ghost use Rattle.hub_lock.specs.Noted.{IsOfRoot, Hands, PlaysEvents};
ghost use Rattle.hub_lock.specs.Calls.{LegalAsk};

use crate::call::{Answer, Call, Reply};
use crate::noted_state::NotedState;
use crate::pass::{HubPass, Member};
use crate::{Bells, RecordBell};
use broker_steps::{Limits, NoMemory};
use std::alloc::Global;
use std::marker::Model;
use std::sync::Wait;
use turn_lock::{Seat, Turn};

/// The shared state of all peers behind a lock. Threads share it, and each of its users has a pass.
/// Contracts see which hub it is, a `HubId`: its lock, and its limits.
#[derive(Drop)]
pub struct Hub {
    pub(crate) turn: Turn<NotedState>,
    pub(crate) limits: Limits,
    pub(crate) bells: Bells,
    pub(crate) record_bell: RecordBell,
    pub(crate) alloc: Global,
}

impl Model for Hub {
    ghost use Rattle.hub_lock.specs.Passes.{HubId};

    ghost Value = { HubId };

    ghost view = { λ h. record { turn = h.turn; limits = h.limits } };
}

impl Hub {
    /// A hub that nobody joined yet, with these limits, and the root of its passes. `NoMemory` is
    /// its one error.
    pub fn new(alloc: Global, limits: Limits) -> Result<(Hub, HubPass), NoMemory>
        requires { IsLimits limits }
        ensures limits { IfOk result (λ made. made.0.limits ≡ limits) }
        ensures root { IfOk result (λ made.
            made.1 ≡ fresh_seat made.0.turn 0 (Some limits) []) }
    {
        let state = NotedState::new(alloc, limits)?;
        let (turn, seat) = Turn::new(alloc, state)?;
        Ok((
            Hub {
                turn,
                limits,
                bells: Bells::new(),
                record_bell: RecordBell::new(),
                alloc,
            },
            HubPass {
                seat,
                steps: 0,
                bytes: 0,
                entries: 0,
            },
        ))
    }

    // Plays a call, and rings for those whom it told or ended, and for who records.
    pub(crate) fn play<R: Wait>(
        &self,
        rt: &R,
        seat: &mut Seat<NotedState>,
        call: &mut Call,
    ) -> Reply
        requires own { IsOf self.now (pass_seat seat.old) }
        requires number { call.old.number ≡ seat.old.number }
        ensures seat { seat.new ≡ sights.having_seen seat.old seat.new.seen }
        ensures legal { IsLegal PlaysEvents seat.old call.old seat.new.seen call.new result }
        ensures fits { length seat.new.seen < 2 ^ 64 }
        ensures tallied { seat.new.number ≡ 0 → sights.IsTallied seat.new }
    {
        let reply = self.turn.turn(rt, seat, call);
        self.bells.ring(reply.rings);
        if reply.answer.is_made() {
            self.record_bell.ring();
        }
        reply
    }

    // A call of a pass that isn't the root.
    pub(crate) fn play_by<R: Wait>(&self, rt: &R, member: &mut Member, call: &mut Call) -> Answer
        requires own { IsOf self.now member.old }
        requires number { call.old.number ≡ member.old.number }
        requires may { MayAsk member.old.seen member.old.number call.old.ask }
        ensures member { member.new ≡ having_seen member.old member.new.seen }
        ensures legal { LegalAsk self.now.limits member.old member.new.seen member.old.number
            call.old.ask call.new.ask result }
        ensures bytes { bytes_of member.new ≡ bytes_of member.old + bytes_made result }
    {
        let Reply {
            answer,
            rings: _,
            entries,
        } = self.play(rt, &mut member.seat, call);
        member.entries = entries;
        if answer.is_made() {
            member.steps += 1;
        }
        answer
    }

    // A call of the root.
    pub(crate) fn play_root<R: Wait>(&self, rt: &R, root: &mut HubPass, call: &mut Call) -> Answer
        requires own { IsOf self.now root.old }
        requires number { call.old.number ≡ 0 }
        requires may { MayAsk root.old.seen 0 call.old.ask }
        requires asks { IsOfRoot call.old.ask }
        ensures first { root.old.number ≡ 0 }
        ensures root { root.new ≡ having_seen root.old root.new.seen }
        ensures legal { LegalAsk self.now.limits root.old root.new.seen 0
            call.old.ask call.new.ask result }
        ensures tallied { IsTallied root.new }
        ensures settled { (n : ℕ) → IsIn n root.old.taken → HasSeen root.new.seen n root.old.seen }
        ensures nobody { root.old.next ≤ 1 → root.old.named ≡ None }
        ensures unnamed { root.old.named ≡ None →
            (b : Broker) × Hands 0 call.old.ask result b None }
    {
        let Reply {
            answer,
            rings: _,
            entries,
        } = self.play(rt, &mut root.seat, call);
        root.entries = entries;
        if answer.is_made() {
            root.steps += 1;
        }
        answer
    }
}
