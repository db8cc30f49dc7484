//! The method's job begins.
ghost use Rattle.std.specs.Prelude.{◌≡◌, ◌≤◌, ◌<◌, ◌^◌, ℕ, length, Err, IfOk, IfErr};
ghost use Rattle.relay_model.specs.declared.role.Role.TheVariants as roles;
ghost use Rattle.client_side.specs.Messages.{method_setup};
ghost use Rattle.turn_lock.specs.Pairs.{own};
ghost use Rattle.hub_lock.specs.Passes.{IsOf};
ghost use Rattle.trial_jobs.specs.MethodLaw.{IsFresh, IsMethodReady, typist_in};
ghost use Rattle.trial_threads.specs.Begun.{HasBegun};
ghost use Rattle.trial_threads.specs.NoJobs.{IsWithout, count_of};

use crate::no_job::NoJob;
use crate::peer::begin_peer;
use client_side::MethodClient;
use hub_lock::{Hub, HubPass};
use relay_model::Role;
use std::alloc::Global;
use std::sync::Wait;
use trial_client_logs::MethodLog;
use trial_jobs::{BatchList, MethodJob};
use trial_run::TrialTypist;

/// The method's peer joins and sends its set-up: the job of a method that types so, and whose user
/// commits these batches, is ready.
///
/// `TooManyPeers` comes where 64 peers are alive, so not before 64 joined, `JournalFull` where the
/// journal is full for the join or for a message of the set-up, `NoMemory` may come; then the
/// passes that were made came back.
/// (Wait: it promises what it does if it returns.)
pub fn begin_method<R: Wait>(
    rt: &R,
    alloc: Global,
    hub: &Hub,
    root: &mut HubPass,
    typist: TrialTypist,
    batches: BatchList,
) -> Result<MethodJob, NoJob>
    requires own { IsOf hub.now root.old }
    requires room { root.old.next ≤ 2 ^ 63 }
    requires fresh { IsFresh typist }
    ensures ready { IfOk result (λ job. IsMethodReady hub.now job) }
    ensures begun { IfOk result (λ job.
        HasBegun hub.now.limits root.old root.new roles.Method job.reader job.writer) }
    ensures same { IfOk result (λ job. (typist_in job ≡ typist) × (job.batches ≡ batches)) }
    ensures none { IfErr result (IsWithout hub.now root.old root.new (count_of method_setup)) }
    ensures few { length (own 0 root.old.seen) < 64 →
        (n : ℕ) → ¬ (result ≡ Err (NoJob.TooManyPeers n)) }
{
    let mut client = MethodClient::new(alloc, typist)?;
    let (reader, writer) = begin_peer(rt, alloc, hub, root, Role::Method, client.to_send())?;
    client.sent();
    Ok(MethodJob {
        reader,
        writer,
        batches,
        client,
        log: MethodLog::new(alloc),
    })
}
