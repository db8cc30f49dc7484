//! The edits of a field's own user.
ghost use Rattle.std.specs.Prelude.{◌≡◌, ◌+◌, ◌<◌, List, length};
ghost use Rattle.broker_steps.specs.declared.limits.Limits.{Limits};
ghost use Rattle.client_side.specs.Messages as messages;
ghost use Rattle.trial_typing.specs.FieldLaw.{first_edits};
ghost use Rattle.trial_typing.specs.FieldGoing.{IsFieldOf, FieldKeeps, IsFieldGoing, IsFieldAt};
ghost use Rattle.trial_typing.specs.FieldGoing.{FieldEdits, FieldGoes};

use crate::field_job::FieldJob;
use crate::field_turns::send;
use crate::job_end::JobEnd;
use hub_calls::Sent;
use hub_lock::Hub;
use std::alloc::Global;
use std::sync::Wait;
use trial_client_logs::{FieldEntry, edit_copy, edit_view};

// The edit with the index: the client makes it, and the log has it.
fn edit_own(alloc: Global, job: &mut FieldJob, index: usize) -> Result<(), JobEnd>
    requires within { index < length job.old.edits }
    ensures same { job.new ≡ record job.old { client = job.new.client; log = job.new.log } }
    ensures edits { (limits : Limits) (waits : List messages.Sent) →
        IsFieldGoing limits job.old (first_edits job.old index) waits →
        FieldEdits limits job.new (first_edits job.old (index + 1)) result }
{
    let edit = &job.edits.as_slice()[index];
    let entry = FieldEntry::Own(edit_copy(alloc, edit)?);
    let _ = job.client.edit(&edit_view(edit))?;
    job.log.push(entry)?;
    Ok(())
}

/// An own edit is made and, where the peer goes on, sent. Says whether it goes on.
pub(crate) fn make_edit<R: Wait>(
    rt: &R,
    alloc: Global,
    hub: &Hub,
    job: &mut FieldJob,
    index: usize,
    goes_on: bool,
) -> Result<bool, JobEnd>
    requires of { IsFieldOf hub.now job.old }
    requires within { index < length job.old.edits }
    ensures keeps { FieldKeeps hub.now.limits job.old job.new }
    ensures goes { IsFieldAt hub.now.limits job.old (first_edits job.old index) goes_on →
        FieldGoes hub.now.limits job.new (first_edits job.old (index + 1)) result }
{
    edit_own(alloc, job, index)?;
    if !goes_on {
        return Ok(false);
    }
    match send(rt, alloc, hub, job)? {
        Sent::All => Ok(true),
        Sent::Ended(_) => Ok(false),
    }
}
