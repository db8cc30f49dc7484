//! An order of the shell.
ghost use Rattle.std.specs.Prelude.{◌≡◌};
ghost use Rattle.broker_steps.specs.Ranges.{IsShellStep};
ghost use Rattle.hub_lock.specs.Seats.{having_seen};
ghost use Rattle.hub_lock.specs.Passes.{IsOf};
ghost use Rattle.hub_calls.specs.Made.{SawMore};
ghost use Rattle.hub_calls.specs.Ordered.{Orders};

use crate::stop::PassStop;
use broker_core::Refused;
use broker_steps::ShellStep;
use hub_lock::{Hub, ShellPass};
use std::sync::Wait;

/// Gives an order of the shell.
///
/// `JournalFull` comes where the journal is full for the order, `NoMemory` may come.
/// (Wait: it promises what it does if it returns.)
pub fn order_step<R: Wait>(
    rt: &R,
    hub: &Hub,
    pass: &mut ShellPass,
    step: &ShellStep,
) -> Result<(), PassStop>
    requires own { IsOf hub.now pass.old }
    requires step { IsShellStep step.now }
    ensures pass { pass.new ≡ having_seen pass.old pass.new.seen }
    ensures saw { SawMore hub.now.limits pass.old.seen pass.new.seen }
    ensures orders { Orders hub.now.limits pass.old pass.new step.now result }
{
    match hub.order(rt, pass, step) {
        Ok(_) => Ok(()),
        Err(Refused::JournalFull(kept)) => Err(PassStop::JournalFull(kept)),
        Err(Refused::NoMemory) => Err(PassStop::NoMemory),
        Err(Refused::NoPeer) => unreachable!(),
        Err(Refused::Ended(_)) => unreachable!(),
    }
}
