//! A field's job begins.
ghost use Rattle.std.specs.Prelude.{◌≡◌, ◌≤◌, ◌<◌, ◌^◌, ℕ, length, Err, IfOk, IfErr};
ghost use Rattle.relay_model.specs.declared.role.Role.TheVariants as roles;
ghost use Rattle.client_side.specs.Messages.{field_setup};
ghost use Rattle.turn_lock.specs.Pairs.{own};
ghost use Rattle.hub_lock.specs.Passes.{IsOf};
ghost use Rattle.trial_typing.specs.FieldLaw.{IsFieldReady};
ghost use Rattle.trial_threads.specs.Begun.{HasBegun};
ghost use Rattle.trial_threads.specs.NoJobs.{IsWithout, count_of};

use crate::no_job::NoJob;
use crate::peer::begin_peer;
use client_side::FieldClient;
use hub_lock::{Hub, HubPass};
use relay_model::Role;
use std::alloc::Global;
use std::sync::Wait;
use trial_client_logs::FieldLog;
use trial_typing::{EditList, FieldJob};

/// The peer of a field joins and sends its set-up: the job of a user that makes these edits is
/// ready.
///
/// `TooManyPeers` comes where 64 peers are alive, so not before 64 joined, `JournalFull` where the
/// journal is full for the join or for a message of the set-up, `NoMemory` may come; then the
/// passes that were made came back.
/// (Wait: it promises what it does if it returns.)
pub fn begin_field<R: Wait>(
    rt: &R,
    alloc: Global,
    hub: &Hub,
    root: &mut HubPass,
    edits: EditList,
) -> Result<FieldJob, NoJob>
    requires own { IsOf hub.now root.old }
    requires room { root.old.next ≤ 2 ^ 63 }
    ensures ready { IfOk result (λ job. IsFieldReady hub.now job) }
    ensures begun { IfOk result (λ job.
        HasBegun hub.now.limits root.old root.new roles.App job.reader job.writer) }
    ensures edits { IfOk result (λ job. job.edits ≡ edits) }
    ensures none { IfErr result (IsWithout hub.now root.old root.new (count_of field_setup)) }
    ensures few { length (own 0 root.old.seen) < 64 →
        (n : ℕ) → ¬ (result ≡ Err (NoJob.TooManyPeers n)) }
{
    let mut client = FieldClient::new(alloc)?;
    let (reader, writer) = begin_peer(rt, alloc, hub, root, Role::App, client.to_send())?;
    client.sent();
    Ok(FieldJob {
        reader,
        writer,
        edits,
        client,
        log: FieldLog::new(alloc),
    })
}
