//! The method's job.
ghost use Rattle.std.specs.Prelude.{IfOk};
ghost use Rattle.trial_typing.specs.Ends.{done_of};
ghost use Rattle.trial_jobs.specs.MethodLaw.{IsMethodReady, MethodRuns, typist_in};
ghost use Rattle.trial_jobs.specs.MethodGoing.{IsMethodPlayed};

use crate::batch_list::BatchList;
use crate::method_batches::make_batch;
use crate::method_turns::answer_all;
use client_side::MethodClient;
use hub_lock::{Hub, ReaderPass, WriterPass};
use std::alloc::Global;
use std::sync::Wait;
use trial_client_logs::MethodLog;
use trial_run::TrialTypist;
use trial_typing::JobEnd;

/// How many rounds the method's job makes: in each it takes and answers until nothing is stored, and
/// commits one batch of its script.
pub const ROUNDS: usize = 1_000;

/// The method as a peer of a hub: its passes, what its user commits, its client, and what happened.
#[derive(Drop)]
pub struct MethodJob {
    /// The pass of the peer's reader.
    pub reader: ReaderPass,
    /// The pass of the same peer's writer.
    pub writer: WriterPass,
    /// What the method's user commits.
    pub batches: BatchList,
    /// The client.
    pub client: MethodClient<TrialTypist>,
    /// What happened so far.
    pub log: MethodLog,
}

/// In each of a thousand rounds the method takes and answers until nothing is stored, and then
/// commits the next batch of its script. It stops where its peer has ended. Says whether the peer
/// goes on.
///
/// `JournalFull` comes where the journal is full for the job's next step, `BadEvent` where the
/// method was told what its client can't read, `NoMemory` may come. (Wait: it promises what it does
/// if it returns.)
pub fn play_method<R: Wait>(
    rt: &R,
    alloc: Global,
    hub: &Hub,
    job: &mut MethodJob,
) -> Result<bool, JobEnd>
    requires ready { IsMethodReady hub.now job.old }
    ensures runs { MethodRuns hub.now.limits job.old job.new (done_of result) }
    ensures goes { IfOk result (IsMethodPlayed hub.now.limits (typist_in job.old) job.new) }
{
    for round in 0..ROUNDS {
        let still_here = answer_all(rt, alloc, hub, job, true, 0)?;
        if !still_here {
            return Ok(false);
        }
        let goes_on = make_batch(rt, alloc, hub, job, round)?;
        if !goes_on {
            return Ok(false);
        }
    }
    Ok(true)
}

/// Plays the method's job as `play_method` does, where nobody goes on with it.
pub fn run_method<R: Wait>(
    rt: &R,
    alloc: Global,
    hub: &Hub,
    job: &mut MethodJob,
) -> Result<(), JobEnd>
    requires ready { IsMethodReady hub.now job.old }
    ensures { MethodRuns hub.now.limits job.old job.new result }
{
    let _goes_on = play_method(rt, alloc, hub, job)?;
    Ok(())
}
