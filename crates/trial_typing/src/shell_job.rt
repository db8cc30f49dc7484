//! The shell's job.
ghost use Rattle.std.specs.Prelude.{◌≡◌, []};
ghost use Rattle.hub_lock.specs.Seats.{having_seen};
ghost use Rattle.hub_lock.specs.Passes.{IsOf};
ghost use Rattle.hub_calls.specs.Made.{entries_by, SawMore};
ghost use Rattle.trial_typing.specs.ShellLaw.{IsShellReady, ShellRuns, Orders};

use crate::job_end::JobEnd;
use crate::lists::ShellSteps;
use hub_calls::order_step;
use hub_lock::{Hub, ShellPass};
use std::sync::Wait;

/// The shell of a hub: its pass, and what it orders.
#[derive(Drop)]
pub struct ShellJob {
    /// The pass.
    pub pass: ShellPass,
    /// What it orders.
    pub steps: ShellSteps,
}

// The pass gives the orders, one after the other.
fn give_orders<R: Wait>(
    rt: &R,
    hub: &Hub,
    pass: &mut ShellPass,
    steps: &ShellSteps,
) -> Result<(), JobEnd>
    requires own { IsOf hub.now pass.old }
    requires none { entries_by pass.old ≡ [] }
    ensures pass { pass.new ≡ having_seen pass.old pass.new.seen }
    ensures saw { SawMore hub.now.limits pass.old.seen pass.new.seen }
    ensures ends { Orders hub.now.limits pass.new steps.now result }
{
    for step in steps.as_slice() {
        order_step(rt, hub, pass, step)?;
    }
    Ok(())
}

/// The shell gives its orders, one after the other.
///
/// `JournalFull` comes where the journal is full for the next order, `NoMemory` may come; then it gave
/// those before. (Wait: it promises what it does if it returns.)
pub fn run_shell<R: Wait>(rt: &R, hub: &Hub, job: &mut ShellJob) -> Result<(), JobEnd>
    requires ready { IsShellReady hub.now job.old }
    ensures { ShellRuns hub.now.limits job.old job.new result }
{
    give_orders(rt, hub, &mut job.pass, &job.steps)
}
