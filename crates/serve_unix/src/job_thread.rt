//! A thread that does a job.
ghost use Rattle.std.specs.Prelude.{◌≡◌, IfOk, IfErr};
ghost use Rattle.serve_jobs.specs.Tags.{Tag, IsReportOf};
ghost use Rattle.serve_unix.specs.Outcomes.{IsOutcomeOf};

use crate::outcome::{Given, Outcome};
use serve_jobs::Job;
use std::alloc::Global;
use std::convert::Infallible;
use std::snapshot::Snapshot;
use std::sync::atomic::{AtomicBool, Ordering};
use std::sync::{Arc, Wait};
use std::thread;
use std::thread::{PromisedHandle, Threads};

/// A job that was begun. Its one meaning for contracts is the job's tag.
pub trait Running<J: Job>: Drop {
    ghost tag: { Self → Tag };

    /// Waits for the job's result.
    fn done<R: Threads + Wait>(self, rt: &R) -> J::Done
        ensures tag { J.done_tag result ≡ tag self }
        ensures report { IsReportOf (J.done_tag result) (J.report result) };
}

/// The thread of a job.
#[derive(Drop)]
pub struct JobThread<J: Job + Drop> {
    inner: PromisedHandle<Outcome<J>, Given<J>>,
}

impl<J: Job + Drop> Running<J> for JobThread<J> {
    ghost tag = { λ t. J.tag t.inner.promise.0.value };

    fn done<R: Threads + Wait>(self, rt: &R) -> J::Done {
        match self.inner.join(rt) {
            Outcome::Done(done) => done,
            Outcome::Back(job) => job.run(rt),
        }
    }
}

/// Waits forever. What is before it doesn't come when a program runs.
pub(crate) fn never<R: Wait>(rt: &R) -> Infallible {
    for _ in rt.forever() {
        thread::yield_now();
    }
    unreachable!()
}

// Starts a thread for the job, or hands the job back: where no thread comes, what would have run in
// it is told to stop and runs here, and then it hands over the job.
fn begin<J: Job + Drop + Send + 'static, R: Threads + Wait + Copy + Send + 'static>(
    rt: R,
    stop: Arc<AtomicBool, Global>,
    stops: Arc<AtomicBool, Global>,
    job: J,
) -> Result<JobThread<J>, J>
where
    J::Done: Send + Drop + 'static,
    ensures thread { IfOk result (λ t. J.tag t.inner.promise.0.value ≡ J.tag job) }
    ensures back { IfErr result (λ refused. refused ≡ job) }
{
    let given = Given(Snapshot::of(&job));
    let work = move || -> Outcome<J>
        ensures { IsOutcomeOf J.tag J.done_tag J.report job result }
    {
        if stops.load(Ordering::SeqCst) {
            Outcome::Back(job)
        } else {
            Outcome::Done(job.run(&rt))
        }
    };
    match thread::spawn_with(&rt, given, work) {
        Ok(inner) => Ok(JobThread { inner }),
        Err(refused) => {
            stop.store(true, Ordering::SeqCst);
            match (refused.value)() {
                Outcome::Back(job) => Err(job),
                Outcome::Done(_) => match never(&rt) {},
            }
        }
    }
}

/// Starts a thread for the job. Where there is no thread or no memory for it, hands the job back.
pub fn begin_job<J: Job + Drop + Send + 'static, R: Threads + Wait + Copy + Send + 'static>(
    rt: R,
    alloc: Global,
    job: J,
) -> Result<JobThread<J>, J>
where
    J::Done: Send + Drop + 'static,
    ensures thread { IfOk result (λ t. J.tag t.inner.promise.0.value ≡ J.tag job) }
    ensures back { IfErr result (λ refused. refused ≡ job) }
{
    let Ok(stop) = Arc::new(alloc, AtomicBool::new(false)) else {
        return Err(job);
    };
    let Ok(stops) = Arc::try_clone(&stop) else {
        return Err(job);
    };
    begin(rt, stop, stops, job)
}
