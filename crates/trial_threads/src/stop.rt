//! Why a trial isn't played to its end.
ghost use Rattle.std.specs.Prelude.{◌≡◌};
ghost use Rattle.trial_threads.specs.Stops.{stop_by_begin, stop_by_job, first_stop_in};

use crate::NoJob;
use crate::running::Running;
use broker_core::Kept;
use trial_typing::JobEnd;

/// Why a trial isn't played to its end.
#[derive(Clone, Copy, Debug, PartialEq, Eq)]
pub enum Stop {
    /// The journal is full for a step: so much it holds.
    Full(Kept),
    /// So many peers are alive that no more can join, which doesn't come in a trial.
    TooManyPeers(u32),
    /// There was an event that the method can't read, which doesn't come in a trial.
    BadEvent,
    /// There was no memory.
    NoMemory,
}

/// Why it stops where a job isn't begun.
pub(crate) fn stop_of_begin(why: NoJob) -> Stop
    ensures { result ≡ stop_by_begin why }
{
    match why {
        NoJob::JournalFull(kept) => Stop::Full(kept),
        NoJob::TooManyPeers(alive) => Stop::TooManyPeers(alive),
        NoJob::NoMemory => Stop::NoMemory,
    }
}

// Why it stops where a job isn't done.
fn stop_of_job(end: JobEnd) -> Stop
    ensures { result ≡ stop_by_job end }
{
    match end {
        JobEnd::JournalFull(kept) => Stop::Full(kept),
        JobEnd::BadEvent => Stop::BadEvent,
        JobEnd::NoMemory => Stop::NoMemory,
    }
}

/// How the first job ended that wasn't done, if there is one.
#[tactic(auto, using(crate::proofs::JobsLeft::stop_step, crate::proofs::JobsLeft::stop_end))]
pub(crate) fn first_stop(jobs: &[Running]) -> Option<Stop>
    ensures { result ≡ first_stop_in jobs.now }
{
    for running in jobs {
        if let Err(end) = running.ended {
            return Some(stop_of_job(end));
        }
    }
    None
}
