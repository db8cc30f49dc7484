//! The batches of the method's own user.
ghost use Rattle.std.specs.Prelude.{◌≡◌, ◌+◌, ◌<◌, Bool, true, List, length};
ghost use Rattle.broker_steps.specs.declared.limits.Limits.{Limits};
ghost use Rattle.client_side.specs.Messages as messages;
ghost use Rattle.trial_run.specs.declared.typist.TrialTypist.{TrialTypist};
ghost use Rattle.trial_jobs.specs.MethodLaw.{first_batches};
ghost use Rattle.trial_jobs.specs.MethodGoing.{IsMethodOf, MethodKeeps, IsMethodGoing, IsMethodAt};
ghost use Rattle.trial_jobs.specs.MethodGoing.{MethodCommits, MethodGoes};

use crate::method_job::MethodJob;
use crate::method_turns::send;
use hub_calls::Sent;
use hub_lock::Hub;
use std::alloc::Global;
use std::sync::Wait;
use trial_client_logs::{MethodEntry, batch_copy, batch_view};
use trial_typing::JobEnd;

// The batch with the index: the client commits it, and the log has it.
fn commit_own(alloc: Global, job: &mut MethodJob, index: usize) -> Result<(), JobEnd>
    requires within { index < length job.old.batches }
    ensures same { job.new ≡ record job.old { client = job.new.client; log = job.new.log } }
    ensures commits { (limits : Limits) (typist : TrialTypist) (waits : List messages.Sent)
        (quiet : Bool) →
        IsMethodGoing limits typist job.old (first_batches job.old index) waits quiet →
        MethodCommits limits typist job.new (first_batches job.old (index + 1)) quiet result }
{
    let batch = &job.batches.as_slice()[index];
    let entry = MethodEntry::Batch(batch_copy(alloc, batch)?);
    job.client.batch(&batch_view(batch))?;
    job.log.push(entry)?;
    Ok(())
}

/// The batch with the index, if there is one, is committed and sent. Says whether the peer goes on.
pub(crate) fn make_batch<R: Wait>(
    rt: &R,
    alloc: Global,
    hub: &Hub,
    job: &mut MethodJob,
    index: usize,
) -> Result<bool, JobEnd>
    requires of { IsMethodOf hub.now job.old }
    ensures keeps { MethodKeeps hub.now.limits job.old job.new }
    ensures goes { (typist : TrialTypist) (quiet : Bool) →
        IsMethodAt hub.now.limits typist job.old (first_batches job.old index) quiet true →
        MethodGoes hub.now.limits typist job.new (first_batches job.old (index + 1)) quiet result }
{
    let count = job.batches.as_slice().len();
    if index >= count {
        return Ok(true);
    }
    commit_own(alloc, job, index)?;
    match send(rt, alloc, hub, job)? {
        Sent::All => Ok(true),
        Sent::Ended(_) => Ok(false),
    }
}
