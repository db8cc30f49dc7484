//! The jobs of a script's users begin.
ghost use Rattle.std.specs.Prelude.{◌≡◌, ◌≤◌, ◌∷◌, ◌++◌, ◌+◌, ◌*◌, ◌^◌, [], ℕ, All, List, length, IfErr, OnOk, OnErr};
ghost use Rattle.hub_lock.specs.Passes.{IsOf};
ghost use Rattle.trial_run.specs.declared.typist.TrialTypist.{TrialTypist};
ghost use Rattle.trial_script.specs.Grammar.{IsAction};
ghost use Rattle.trial_jobs.specs.MethodLaw.{IsFresh};
ghost use Rattle.trial_threads.specs.Users.{Part, of_field, of_method, of_shell, fields_from};
ghost use Rattle.trial_threads.specs.Users.{edits_in, batches_in, orders_in, parts_of};
ghost use Rattle.trial_threads.specs.BegunJobs.{IsPut, HaveBegun, IsUnbegun};
ghost use Rattle.trial_threads.specs.Jobs.{AreIdle, idle_job};
ghost use Rattle.trial_threads.specs.Peers.{HaveJoined, AllJoined};

use crate::parts::{batches_in, edits_in, orders_in};
use crate::running::Running;
use crate::{NoJob, begin_field, begin_method, begin_shell};
use hub_lock::{Hub, HubPass};
use std::alloc::Global;
use std::sync::Wait;
use trial_jobs::TrialJob;
use trial_run::TrialTypist;
use trial_script::Action;
use wio_core::NoMemory;

/// What a trial's users do.
#[derive(Drop)]
pub(crate) struct Users<'a> {
    /// How many fields there are: at most 16.
    pub fields: u32,
    /// The time of the first action: the number of its line, modulo 2^32.
    pub first: u32,
    /// What is done, and by whom.
    pub actions: &'a [Action],
}

// One job more, which wasn't run yet.
fn put(jobs: &mut Vec<Running>, job: TrialJob) -> Result<(), NoMemory>
    ensures ok { OnOk result (jobs.new.items ≡ jobs.old.items ++ idle_job job ∷ []) }
    ensures err { OnErr result (jobs.new.items ≡ jobs.old.items) }
{
    jobs.push(Running::new(job))?;
    Ok(())
}

// The job of the field with this number.
fn put_field<R: Wait>(
    rt: &R,
    alloc: Global,
    hub: &Hub,
    root: &mut HubPass,
    number: u32,
    actions: &[Action],
    jobs: &mut Vec<Running>,
) -> Result<(), NoJob>
    requires own { IsOf hub.now root.old }
    requires room { root.old.next ≤ 2 ^ 63 }
    requires actions { All IsAction actions.now }
    ensures own { IsOf hub.now root.new }
    ensures named { root.new.named ≡ root.old.named }
    ensures next { OnOk result (root.new.next ≡ root.old.next + 2) }
    ensures put { OnOk result ((typist : TrialTypist) → IsPut hub.now typist
        (of_field (edits_in number actions.now)) jobs.old.items jobs.new.items) }
    ensures joined { OnOk result (HaveJoined root.old (length jobs.old.items) jobs.old.items →
        HaveJoined root.new (length jobs.new.items) jobs.new.items) }
    ensures err { OnErr result (jobs.new.items ≡ jobs.old.items) }
    ensures one { OnOk result (length jobs.new.items ≡ length jobs.old.items + 1) }
    ensures unbegun { IfErr result (λ why.
        HaveJoined root.old (length jobs.old.items) jobs.old.items →
        length jobs.old.items ≤ 17 → IsUnbegun hub.now.limits root.new jobs.new.items why) }
{
    let edits = edits_in(alloc, number, actions)?;
    let field = begin_field(rt, alloc, hub, root, edits)?;
    put(jobs, TrialJob::Field(field))?;
    Ok(())
}

// The job of the method.
fn put_method<R: Wait>(
    rt: &R,
    alloc: Global,
    hub: &Hub,
    root: &mut HubPass,
    typist: TrialTypist,
    actions: &[Action],
    jobs: &mut Vec<Running>,
) -> Result<(), NoJob>
    requires own { IsOf hub.now root.old }
    requires room { root.old.next ≤ 2 ^ 63 }
    requires fresh { IsFresh typist }
    requires actions { All IsAction actions.now }
    ensures own { IsOf hub.now root.new }
    ensures named { root.new.named ≡ root.old.named }
    ensures next { OnOk result (root.new.next ≡ root.old.next + 2) }
    ensures put { OnOk result (IsPut hub.now typist
        (of_method (batches_in actions.now)) jobs.old.items jobs.new.items) }
    ensures joined { OnOk result (HaveJoined root.old (length jobs.old.items) jobs.old.items →
        HaveJoined root.new (length jobs.new.items) jobs.new.items) }
    ensures err { OnErr result (jobs.new.items ≡ jobs.old.items) }
    ensures one { OnOk result (length jobs.new.items ≡ length jobs.old.items + 1) }
    ensures unbegun { IfErr result (λ why.
        HaveJoined root.old (length jobs.old.items) jobs.old.items →
        length jobs.old.items ≤ 17 → IsUnbegun hub.now.limits root.new jobs.new.items why) }
{
    let batches = batches_in(alloc, actions)?;
    let method = begin_method(rt, alloc, hub, root, typist, batches)?;
    put(jobs, TrialJob::Method(method))?;
    Ok(())
}

// The job of the shell.
fn put_shell(
    alloc: Global,
    hub: &Hub,
    root: &mut HubPass,
    first: u32,
    actions: &[Action],
    jobs: &mut Vec<Running>,
) -> Result<(), NoMemory>
    requires own { IsOf hub.now root.old }
    requires room { root.old.next ≤ 2 ^ 63 }
    requires actions { All IsAction actions.now }
    ensures own { IsOf hub.now root.new }
    ensures named { root.new.named ≡ root.old.named }
    ensures put { OnOk result ((typist : TrialTypist) → IsPut hub.now typist
        (of_shell (orders_in first actions.now)) jobs.old.items jobs.new.items) }
    ensures joined { OnOk result ((n : ℕ) → HaveJoined root.old n jobs.old.items →
        HaveJoined root.new n jobs.new.items) }
    ensures err { OnErr result (jobs.new.items ≡ jobs.old.items) }
{
    let steps = orders_in(alloc, first, actions)?;
    let shell = begin_shell(hub, root, steps);
    put(jobs, TrialJob::Shell(shell))
}

// The jobs of the fields, in order.
fn put_fields<R: Wait>(
    rt: &R,
    alloc: Global,
    hub: &Hub,
    root: &mut HubPass,
    users: &Users<'_>,
    jobs: &mut Vec<Running>,
) -> Result<(), NoJob>
    requires own { IsOf hub.now root.old }
    requires room { root.old.next ≤ 3 }
    requires few { users.now.fields ≤ 16 }
    requires actions { All IsAction users.now.actions.now }
    ensures own { IsOf hub.now root.new }
    ensures named { root.new.named ≡ root.old.named }
    ensures next { OnOk result (root.new.next ≤ 35) }
    ensures all { OnOk result ((typist : TrialTypist) (parts : List Part) →
        HaveBegun hub.now typist parts jobs.old.items →
        HaveBegun hub.now typist (parts ++ fields_from 1 users.now.fields users.now.actions.now)
        jobs.new.items) }
    ensures idle { (typist : TrialTypist) (parts : List Part) →
        HaveBegun hub.now typist parts jobs.old.items → AreIdle hub.now jobs.new.items }
    ensures joined { OnOk result (HaveJoined root.old (length jobs.old.items) jobs.old.items →
        HaveJoined root.new (length jobs.new.items) jobs.new.items) }
    ensures unbegun { IfErr result (λ why.
        HaveJoined root.old (length jobs.old.items) jobs.old.items →
        length jobs.old.items ≤ 1 → IsUnbegun hub.now.limits root.new jobs.new.items why) }
{
    for index in 0..users.fields {
        put_field(rt, alloc, hub, root, index + 1, users.actions, jobs)?;
    }
    Ok(())
}

/// The jobs of the method, of the fields in order, and of the shell.
/// (Wait: it promises what it does if it returns.)
pub(crate) fn begin_jobs<R: Wait>(
    rt: &R,
    alloc: Global,
    hub: &Hub,
    root: &mut HubPass,
    typist: TrialTypist,
    users: &Users<'_>,
    jobs: &mut Vec<Running>,
) -> Result<(), NoJob>
    requires own { IsOf hub.now root.old }
    requires first { root.old.next ≡ 1 }
    requires fresh { IsFresh typist }
    requires few { users.now.fields ≤ 16 }
    requires actions { All IsAction users.now.actions.now }
    requires none { jobs.old.items ≡ [] }
    ensures own { IsOf hub.now root.new }
    ensures named { root.new.named ≡ root.old.named }
    ensures all { OnOk result (HaveBegun hub.now typist
        (parts_of users.now.fields users.now.first users.now.actions.now) jobs.new.items) }
    ensures idle { AreIdle hub.now jobs.new.items }
    ensures joined { OnOk result (HaveJoined root.old 0 [] →
        AllJoined root.new jobs.new.items) }
    ensures unbegun { IfErr result (λ why. HaveJoined root.old 0 [] →
        IsUnbegun hub.now.limits root.new jobs.new.items why) }
{
    put_method(rt, alloc, hub, root, typist, users.actions, jobs)?;
    put_fields(rt, alloc, hub, root, users, jobs)?;
    put_shell(alloc, hub, root, users.first, users.actions, jobs)?;
    Ok(())
}
