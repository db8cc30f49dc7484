//! What stands in the lock's history: the outer steps, which passes show, and notes of who records. They
//! are for contracts: no event is made.
use crate::step::OuterStep;

/// What a play adds to the lock's history.
pub enum Event {
    Step(OuterStep),
    Noted(Note),
}

/// What a play notes of who records.
#[derive(Clone, Copy)]
pub enum Note {
    /// The pass with this number is to record.
    Names(u64),
    /// An entry was handed out to it.
    HandsOut,
}

/// What a play adds, where the journal has the steps.
#[derive(Clone, Copy)]
pub(crate) enum Mark {
    Step,
    Noted(u64, Note),
}

impl Mark {
    ghost use Rattle.std.specs.Prelude.{◌≡◌};
    ghost use Rattle.hub_lock.specs.Events.{mark_by};

    /// What the play of the pass with this number adds, with its note or with a step.
    pub fn of(number: u64, note: Option<Note>, has_step: bool) -> Option<Mark>
        ensures { result ≡ mark_by number note has_step }
    {
        match note {
            Some(note) => Some(Mark::Noted(number, note)),
            None if has_step => Some(Mark::Step),
            None => None,
        }
    }
}
