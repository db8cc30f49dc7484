//! The value behind the lock, with a history of its steps and of what was noted of who records.
ghost use Rattle.std.specs.Prelude.{◌≡◌, [], IfOk};
ghost use Rattle.broker_steps.specs.Ranges.{IsLimits};
ghost use Rattle.hub_lock.specs.Lawful.{IsLawful};
ghost use Rattle.hub_lock.specs.Events.{with_mark};

use crate::call::{Call, Reply};
use crate::event::{Event, Mark};
use crate::state::HubState;
use broker_audience::Past;
use broker_steps::{Limits, NoMemory};
use std::alloc::Global;
use std::marker::Model;
use turn_lock::Story;

/// The state of a hub. Its marks take no memory: contracts alone see them.
#[derive(Drop)]
pub struct NotedState {
    state: HubState,
    marks: Past<Mark>,
}

impl Model for NotedState {
    ghost use Rattle.std.specs.Prelude.{◌≡◌, ◌+◌, length};
    ghost use Rattle.hub_lock.specs.Lawful.{history_of};
    ghost use Rattle.hub_lock.specs.Events.{events_with, tally_of, notes_in};
    ghost use Rattle.hub_lock.specs.Noted.{Noted, tally_in};

    ghost Value = { Noted };

    ghost view = { λ s. record {
      held = s.state;
      events = events_with s.marks (history_of s.state.broker s.state.readers);
    } };

    ghost invariant = { λ s.
        (tally_of (events_with s.marks (history_of s.state.broker s.state.readers)) ≡
        tally_in s.state)
        × (length (events_with s.marks (history_of s.state.broker s.state.readers)) ≡
        length (history_of s.state.broker s.state.readers) + notes_in (tally_in s.state)) };
}

impl NotedState {
    /// Nobody joined yet. `NoMemory` is its one error.
    pub fn new(alloc: Global, limits: Limits) -> Result<NotedState, NoMemory>
        requires { IsLimits limits }
        ensures limits { IfOk result (λ s. s.held.broker.limits ≡ limits) }
        ensures empty { IfOk result (λ s. s.events ≡ []) }
        ensures lawful { IfOk result (λ s. IsLawful limits []) }
    {
        let state = HubState::new(alloc, limits)?;
        Ok(NotedState {
            state,
            marks: Past::new(),
        })
    }
}

// The marks, with one more where there is one.
fn with_mark(marks: Past<Mark>, mark: Option<Mark>) -> Past<Mark>
    ensures { result ≡ with_mark mark marks }
{
    match mark {
        Some(mark) => marks.with(&mark),
        None => marks,
    }
}

impl Story for NotedState {
    ghost use Rattle.broker_steps.specs.declared.limits.Limits.{Limits};
    ghost use Rattle.hub_lock.specs.declared.event.Event.{Event};
    ghost use Rattle.hub_lock.specs.Noted.{PlaysEvents};

    type Constant = Limits;

    type Entry = Event;

    type Call = Call;

    type Reply = Reply;

    ghost constant = { λ s. s.held.broker.limits };

    ghost history = { λ s. s.events };

    ghost number = { λ call. call.number };

    ghost plays = { PlaysEvents };

    fn play(&mut self, call: &mut Call) -> Reply {
        let number = call.number;
        let before = self.state.steps();
        let reply = self.state.play(call);
        let has_step = before < self.state.steps();
        let mark = Mark::of(number, reply.answer.note(), has_step);
        let marks = std::mem::replace(&mut self.marks, Past::new());
        self.marks = with_mark(marks, mark);
        reply
    }

    fn length(&self) -> u64 {
        self.state.events()
    }

    fn number(call: &Call) -> u64 {
        call.number
    }
}
