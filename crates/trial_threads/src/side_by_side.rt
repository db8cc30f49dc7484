//! Jobs are run beside each other: by halves of halves, each half by a thread.
ghost use Rattle.std.specs.Prelude.{◌≤◌, length};
ghost use Rattle.std.specs.Thread.{IsSync};
ghost use Rattle.trial_threads.specs.Jobs.{AreIdle, IsIdle, IsRun, AreRun};

use crate::running::Running;
use hub_lock::{Gate, Hub};
use std::alloc::Global;
use std::sync::Wait;
use std::thread::{Threads, join_mut};
use trial_jobs::play_job;

// Runs the job.
fn run_one<R: Wait, G: Gate>(rt: &R, alloc: Global, hub: &Hub, running: &mut Running, gate: &G)
    requires idle { IsIdle hub.now running.old }
    ensures { IsRun hub.now running.old running.new }
{
    running.ended = play_job(rt, alloc, hub, &mut running.job, gate);
}

// Runs the one job, or none.
fn run_front<R: Wait, G: Gate>(rt: &R, alloc: Global, hub: &Hub, jobs: &mut [Running], gate: &G)
    requires idle { AreIdle hub.now jobs.old }
    requires one { length jobs.old ≤ 1 }
    ensures { AreRun hub.now jobs.old jobs.new }
{
    if let Some(running) = jobs.first_mut() {
        run_one(rt, alloc, hub, running, gate);
    }
}

/// Runs each job in a thread of its own, and comes back when all are done.
/// (Wait: it promises what it does if it returns.)
pub(crate) fn run_jobs<R: Threads + Wait + Sync, G: Gate + Sync>(
    rt: &R,
    alloc: Global,
    hub: &Hub,
    gate: &G,
    jobs: &mut [Running],
)
    requires idle { AreIdle hub.now jobs.old }
    ensures { AreRun hub.now jobs.old jobs.new }
{
    if jobs.len() < 2 {
        run_front(rt, alloc, hub, jobs, gate);
        return;
    }
    let (front, back) = jobs.split_at_mut(jobs.len() / 2);
    join_mut(
        rt,
        &mut ||
            requires { IsSync R.row × IsSync G.row × AreIdle hub.now front.now }
            ensures { AreRun hub.entry.now front.entry.now front.exit.now }
        { run_jobs(rt, alloc, hub, gate, front) },
        &mut ||
            requires { IsSync R.row × IsSync G.row × AreIdle hub.now back.now }
            ensures { AreRun hub.entry.now back.entry.now back.exit.now }
        { run_jobs(rt, alloc, hub, gate, back) },
    );
}
