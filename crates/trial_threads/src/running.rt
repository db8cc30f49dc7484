//! A job, and what became of it.
ghost use Rattle.std.specs.Prelude.{◌≡◌};
ghost use Rattle.trial_threads.specs.Jobs.{idle_job};

use trial_jobs::TrialJob;
use trial_typing::JobEnd;

/// A job, and whether its peer goes on when it was done, or why it wasn't. One that isn't run yet has
/// the end `NoMemory`: it made nothing.
#[derive(Drop)]
pub struct Running {
    pub job: TrialJob,
    pub ended: Result<bool, JobEnd>,
}

impl Running {
    /// A job that isn't run yet.
    pub(crate) fn new(job: TrialJob) -> Running
        ensures { result ≡ idle_job job }
    {
        Running {
            job,
            ended: Err(JobEnd::NoMemory),
        }
    }
}
