//! A field's job.
ghost use Rattle.std.specs.Prelude.{IfOk};
ghost use Rattle.trial_typing.specs.Ends.{done_of};
ghost use Rattle.trial_typing.specs.FieldLaw.{IsFieldReady, FieldRuns};
ghost use Rattle.trial_typing.specs.FieldGoing.{IsFieldPlayed};

use crate::field_edits::make_edit;
use crate::field_turns::answer_all;
use crate::job_end::JobEnd;
use crate::lists::EditList;
use client_side::FieldClient;
use hub_lock::{Gate, Hub, ReaderPass, WriterPass};
use std::alloc::Global;
use std::sync::Wait;
use trial_client_logs::FieldLog;

/// A field as a peer of a hub: its passes, what its user is to do, its client, and what happened.
#[derive(Drop)]
pub struct FieldJob {
    /// The pass of the peer's reader.
    pub reader: ReaderPass,
    /// The pass of the same peer's writer.
    pub writer: WriterPass,
    /// What the field's own user does.
    pub edits: EditList,
    /// The client.
    pub client: FieldClient,
    /// What happened so far.
    pub log: FieldLog,
}

/// The field's own edits are made in their order, and after each the field takes and answers until
/// nothing is stored. The gate is told before and after each own edit, with the number of the
/// field's peer and that of the edit, from 1. A peer that has ended submits and takes no more. Says
/// whether the peer goes on.
///
/// `JournalFull` comes where the journal is full for the job's next step, `NoMemory` may come;
/// `BadEvent` doesn't. (Wait: it promises what it does if it returns.)
pub fn play_field<R: Wait, G: Gate>(
    rt: &R,
    alloc: Global,
    hub: &Hub,
    job: &mut FieldJob,
    gate: &G,
) -> Result<bool, JobEnd>
    requires ready { IsFieldReady hub.now job.old }
    ensures runs { FieldRuns hub.now.limits job.old job.new (done_of result) }
    ensures goes { IfOk result (IsFieldPlayed hub.now.limits job.new) }
{
    let peer = job.reader.peer();
    let count = job.edits.as_slice().len();
    let mut goes_on = true;
    for index in 0..count {
        let number = index as u64 + 1;
        gate.before(peer, number);
        goes_on = make_edit(rt, alloc, hub, job, index, goes_on)?;
        gate.after(peer, number);
        goes_on = answer_all(rt, alloc, hub, job, goes_on, 0)?;
    }
    Ok(goes_on)
}

/// Does what `play_field` does, with its errors, and doesn't say whether the peer goes on.
pub fn run_field<R: Wait, G: Gate>(
    rt: &R,
    alloc: Global,
    hub: &Hub,
    job: &mut FieldJob,
    gate: &G,
) -> Result<(), JobEnd>
    requires ready { IsFieldReady hub.now job.old }
    ensures { FieldRuns hub.now.limits job.old job.new result }
{
    let _goes_on = play_field(rt, alloc, hub, job, gate)?;
    Ok(())
}
