//! A job is run.
ghost use Rattle.std.specs.Prelude.{IfOk};
ghost use Rattle.trial_typing.specs.Ends.{done_of};
ghost use Rattle.trial_jobs.specs.JobLaw.{IsReady, Runs, HasPlayed};

use crate::job::TrialJob;
use crate::method_job::play_method;
use hub_lock::{Gate, Hub};
use std::alloc::Global;
use std::sync::Wait;
use trial_typing::{JobEnd, play_field, run_shell};

/// Plays the part of one field, of the method, or of the shell. Says whether its peer goes on; the
/// shell, which has none, does.
///
/// A field's job makes the field's own edits in order, and after each takes and answers until
/// nothing is stored; the gate is told before and after each own edit, with the number of the
/// field's peer and that of the edit among the field's own, from 1. The method's job makes a
/// thousand rounds: it takes and answers until nothing is stored, and then commits its script's next
/// batch. The shell's job gives its orders. A peer that has ended submits and takes no more.
///
/// `JournalFull` comes where the journal is full for the job's next step, `BadEvent` where the
/// method was told what its client can't read, `NoMemory` at any time. (Wait: it promises what it
/// does if it returns.)
pub fn play_job<R: Wait, G: Gate>(
    rt: &R,
    alloc: Global,
    hub: &Hub,
    job: &mut TrialJob,
    gate: &G,
) -> Result<bool, JobEnd>
    requires ready { IsReady hub.now job.old }
    ensures runs { Runs hub.now.limits job.old job.new (done_of result) }
    ensures goes { IfOk result (HasPlayed hub.now.limits job.old job.new) }
{
    match job {
        TrialJob::Field(job) => play_field(rt, alloc, hub, job, gate),
        TrialJob::Method(job) => play_method(rt, alloc, hub, job),
        TrialJob::Shell(job) => {
            run_shell(rt, hub, job)?;
            Ok(true)
        }
    }
}

/// Plays a job as `play_job` does, where nobody goes on with it.
pub fn run_job<R: Wait, G: Gate>(
    rt: &R,
    alloc: Global,
    hub: &Hub,
    job: &mut TrialJob,
    gate: &G,
) -> Result<(), JobEnd>
    requires ready { IsReady hub.now job.old }
    ensures { Runs hub.now.limits job.old job.new result }
{
    let _goes_on = play_job(rt, alloc, hub, job, gate)?;
    Ok(())
}
