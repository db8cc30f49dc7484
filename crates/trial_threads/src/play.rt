//! The jobs of a script's users are played to their end.
ghost use Rattle.std.specs.Prelude.{◌≡◌, ◌≤◌, [], All, length};
ghost use Rattle.hub_lock.specs.Passes.{IsOf};
ghost use Rattle.trial_script.specs.Grammar.{IsAction};
ghost use Rattle.trial_jobs.specs.MethodLaw.{IsFresh};
ghost use Rattle.trial_run.specs.declared.typist.TrialTypist.{TrialTypist};
ghost use Rattle.trial_threads.specs.Users.{parts_of};
ghost use Rattle.trial_threads.specs.Jobs.{AreIdle, AreJobsOf, TypeAs};
ghost use Rattle.trial_threads.specs.Peers.{HaveJoined};
ghost use Rattle.trial_threads.specs.Whole.{HaveDrained, HavePlayed};

use crate::begin::{Users, begin_jobs};
use crate::drain::drain;
use crate::running::Running;
use crate::side_by_side::run_jobs;
use crate::stop::{Stop, first_stop, stop_of_begin};
use hub_lock::{Gate, Hub, HubPass};
use std::alloc::Global;
use std::sync::Wait;
use std::thread::Threads;
use trial_run::TrialTypist;

// Runs them beside each other, and drains.
fn run_all<R: Threads + Wait + Sync, G: Gate + Sync>(
    rt: &R,
    alloc: Global,
    hub: &Hub,
    jobs: &mut [Running],
    gate: &G,
)
    requires { AreIdle hub.now jobs.old }
    ensures drained { (typist : TrialTypist) → TypeAs typist jobs.old →
        HaveDrained hub.now typist jobs.old jobs.new }
    ensures length { length jobs.new ≡ length jobs.old }
{
    run_jobs(rt, alloc, hub, gate, jobs);
    drain(rt, alloc, hub, jobs);
}

/// Begins them, runs them beside each other, and drains. None: they are done.
/// (Wait: it promises what it does if it returns.)
pub(crate) fn play<R: Threads + Wait + Sync, G: Gate + Sync>(
    rt: &R,
    alloc: Global,
    hub: &Hub,
    root: &mut HubPass,
    typist: TrialTypist,
    users: &Users<'_>,
    jobs: &mut Vec<Running>,
    gate: &G,
) -> Option<Stop>
    requires own { IsOf hub.now root.old }
    requires first { root.old.next ≡ 1 }
    requires fresh { IsFresh typist }
    requires few { users.now.fields ≤ 16 }
    requires actions { All IsAction users.now.actions.now }
    requires none { jobs.old.items ≡ [] }
    ensures own { IsOf hub.now root.new }
    ensures named { root.new.named ≡ root.old.named }
    ensures of { AreJobsOf hub.now jobs.new.items }
    ensures played { HaveJoined root.old 0 [] → HavePlayed hub.now typist
        (parts_of users.now.fields users.now.first users.now.actions.now)
        root.new jobs.new.items result }
{
    if let Err(why) = begin_jobs(rt, alloc, hub, root, typist, users, jobs) {
        return Some(stop_of_begin(why));
    }
    run_all(rt, alloc, hub, jobs, gate);
    first_stop(jobs)
}
