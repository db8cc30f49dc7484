//! Why a job isn't done to its end.
use hub_calls::{Kept, PassStop};
use thiserror::Error;
use wl_wire::NoMemory;

/// Why a job isn't done to its end.
#[derive(Clone, Copy, Debug, PartialEq, Eq, Error)]
pub enum JobEnd {
    /// The journal is full for the job's next step: so much it holds.
    #[error("the journal is full with {} entries", .0.entries)]
    JournalFull(Kept),
    /// The method was told something that its client can't read: a keymap, whose descriptor no
    /// client of a trial is given.
    #[error("the method was told an event that it can't read")]
    BadEvent,
    /// There was no memory.
    #[error("there was no memory")]
    NoMemory,
}

impl From<PassStop> for JobEnd {
    ghost use Rattle.std.specs.Prelude.{◌≡◌};
    ghost use Rattle.trial_typing.specs.Ends.{end_by};

    ghost from_gives = { λ stop end. end ≡ end_by stop };

    fn from(stop: PassStop) -> Self {
        match stop {
            PassStop::JournalFull(kept) => JobEnd::JournalFull(kept),
            PassStop::NoMemory => JobEnd::NoMemory,
        }
    }
}

impl From<NoMemory> for JobEnd {
    ghost use Rattle.std.specs.Prelude.{◌≡◌};
    ghost use Rattle.trial_typing.specs.declared.job_end.JobEnd.TheVariants as ends;

    ghost from_gives = { λ _ end. end ≡ ends.NoMemory };

    fn from(_: NoMemory) -> Self {
        JobEnd::NoMemory
    }
}
