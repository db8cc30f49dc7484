//! Why a job isn't begun.
use broker_core::{JoinRefusal, Kept};
use hub_calls::PassStop;
use thiserror::Error;
use wio_core::NoMemory;

/// Why a job isn't begun. Passes that were made for it came back.
#[derive(Clone, Copy, Debug, PartialEq, Eq, Error)]
pub enum NoJob {
    /// So many peers are alive, the most that may be.
    #[error("{0} peers are alive")]
    TooManyPeers(u32),
    /// The journal is full for the peer's join, or for a message of its set-up: so much it holds.
    #[error("the journal is full with {} entries", .0.entries)]
    JournalFull(Kept),
    /// There was no memory.
    #[error("there was no memory")]
    NoMemory,
}

impl From<JoinRefusal> for NoJob {
    ghost use Rattle.std.specs.Prelude.{◌≡◌};
    ghost use Rattle.trial_threads.specs.NoJobs.{refused_by};

    ghost from_gives = { λ why no_job. no_job ≡ refused_by why };

    fn from(why: JoinRefusal) -> Self {
        match why {
            JoinRefusal::TooManyPeers(alive) => NoJob::TooManyPeers(alive),
            JoinRefusal::JournalFull(kept) => NoJob::JournalFull(kept),
            JoinRefusal::NoMemory => NoJob::NoMemory,
        }
    }
}

impl From<PassStop> for NoJob {
    ghost use Rattle.std.specs.Prelude.{◌≡◌};
    ghost use Rattle.trial_threads.specs.NoJobs.{stopped_by};

    ghost from_gives = { λ stop no_job. no_job ≡ stopped_by stop };

    fn from(stop: PassStop) -> Self {
        match stop {
            PassStop::JournalFull(kept) => NoJob::JournalFull(kept),
            PassStop::NoMemory => NoJob::NoMemory,
        }
    }
}

impl From<NoMemory> for NoJob {
    ghost use Rattle.std.specs.Prelude.{◌≡◌};
    ghost use Rattle.trial_threads.specs.declared.no_job.NoJob.TheVariants as none;

    ghost from_gives = { λ _ no_job. no_job ≡ none.NoMemory };

    fn from(_: NoMemory) -> Self {
        NoJob::NoMemory
    }
}
