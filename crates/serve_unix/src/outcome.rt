//! What a thread hands over.
use serve_jobs::Job;
use std::snapshot::Snapshot;
use std::thread::Promise;

/// The result of a job, or the job of a thread that was told not to begin it.
#[derive(Drop)]
pub enum Outcome<J: Job + Drop> {
    /// The job was done: its result.
    Done(J::Done),
    /// The job comes back as it was.
    Back(J),
}

/// The job that a thread was given. It has no bytes: contracts read the job's tag of it.
#[derive(Drop)]
pub struct Given<J>(pub Snapshot<J>);

impl<J: Job + Drop> Promise<Outcome<J>> for Given<J> {
    ghost use Rattle.serve_unix.specs.Outcomes.{IsOutcomeOf};

    ghost kept_by = { λ p r. IsOutcomeOf J.tag J.done_tag J.report p.0.value r };
}
