//! What jobs left is taken and answered for, when all have come back.
ghost use Rattle.std.specs.Prelude.{◌≡◌};
ghost use Rattle.std.specs.List.{AllByRecursion};
ghost use Rattle.trial_threads.specs.Jobs.{AreJobsOf, IsJobOf, Pairwise};
ghost use Rattle.trial_threads.specs.Drained.{seen_by_shell, seen_by_method, least_for_method};
ghost use Rattle.trial_threads.specs.Drained.{least_for_fields, DrainsMethod, DrainsField};
ghost use Rattle.trial_threads.specs.Drained.{AreDrained};

use crate::running::Running;
use hub_lock::Hub;
use std::alloc::Global;
use std::sync::Wait;
use trial_jobs::{TrialJob, answer_all as answer_all_of_method};
use trial_typing::answer_all as answer_all_of_field;

// Takes and answers for the method, where its peer goes on, until nothing is stored in a journal of
// at least so many entries.
fn drain_method<R: Wait>(rt: &R, alloc: Global, hub: &Hub, running: &mut Running, least: u32)
    requires { IsJobOf hub.now running.old.job }
    ensures { DrainsMethod hub.now least running.old running.new }
{
    let Ok(goes_on) = running.ended else {
        return;
    };
    match &mut running.job {
        TrialJob::Method(job) => {
            running.ended = answer_all_of_method(rt, alloc, hub, job, goes_on, least);
        }
        TrialJob::Field(_) => {}
        TrialJob::Shell(_) => {}
    }
}

// So it does for a field, also until all is seen that the field's reader has.
fn drain_field<R: Wait>(rt: &R, alloc: Global, hub: &Hub, running: &mut Running, least: u32)
    requires { IsJobOf hub.now running.old.job }
    ensures { DrainsField hub.now least running.old running.new }
{
    let Ok(goes_on) = running.ended else {
        return;
    };
    match &mut running.job {
        TrialJob::Field(job) => {
            running.ended = answer_all_of_field(rt, alloc, hub, job, goes_on, least);
        }
        TrialJob::Method(_) => {}
        TrialJob::Shell(_) => {}
    }
}

// How many entries the shell has seen, or the method's reader.
fn seen_by_shell(running: &Running) -> u32
    ensures { result ≡ seen_by_shell running.now.job }
{
    match &running.job {
        TrialJob::Shell(job) => job.pass.seen(),
        TrialJob::Method(_) | TrialJob::Field(_) => 0,
    }
}

fn seen_by_method(running: &Running) -> u32
    ensures { result ≡ seen_by_method running.now.job }
{
    match &running.job {
        TrialJob::Method(job) => job.reader.seen(),
        TrialJob::Shell(_) | TrialJob::Field(_) => 0,
    }
}

// The most of these.
#[tactic(auto, using(crate::proofs::JobsLeft::most_step, crate::proofs::JobsLeft::most_end))]
fn least_for_method(jobs: &[Running]) -> u32
    ensures { result ≡ least_for_method jobs.now }
{
    let mut least = 0;
    for running in jobs {
        least = least.max(seen_by_shell(running));
    }
    least
}

#[tactic(auto, using(crate::proofs::JobsLeft::most_step, crate::proofs::JobsLeft::most_end))]
fn least_for_fields(jobs: &[Running]) -> u32
    ensures { result ≡ least_for_fields jobs.now }
{
    let mut least = least_for_method(jobs);
    for running in jobs {
        least = least.max(seen_by_method(running));
    }
    least
}

// The method's job, among these, is drained.
fn drain_methods<R: Wait>(rt: &R, alloc: Global, hub: &Hub, jobs: &mut [Running], least: u32)
    requires { AreJobsOf hub.now jobs.old }
    ensures { Pairwise (DrainsMethod hub.now least) jobs.old jobs.new }
{
    if let Some((running, more)) = jobs.split_first_mut() {
        drain_method(rt, alloc, hub, running, least);
        drain_methods(rt, alloc, hub, more, least);
    }
}

// The fields' jobs, among these, are drained, one after the other.
fn drain_fields<R: Wait>(rt: &R, alloc: Global, hub: &Hub, jobs: &mut [Running], least: u32)
    requires { AreJobsOf hub.now jobs.old }
    ensures { Pairwise (DrainsField hub.now least) jobs.old jobs.new }
{
    if let Some((running, more)) = jobs.split_first_mut() {
        drain_field(rt, alloc, hub, running, least);
        drain_fields(rt, alloc, hub, more, least);
    }
}

/// The method first, and then the fields in order.
/// (Wait: it promises what it does if it returns.)
pub(crate) fn drain<R: Wait>(rt: &R, alloc: Global, hub: &Hub, jobs: &mut [Running])
    requires { AreJobsOf hub.now jobs.old }
    ensures { AreDrained hub.now jobs.old jobs.new }
{
    let least = least_for_method(jobs);
    drain_methods(rt, alloc, hub, jobs, least);
    let least = least_for_fields(jobs);
    drain_fields(rt, alloc, hub, jobs, least);
}
