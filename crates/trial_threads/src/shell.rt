//! The shell's job begins.
ghost use Rattle.std.specs.Prelude.{◌≡◌, ◌≤◌, ◌^◌};
ghost use Rattle.hub_lock.specs.Seats.{after_split, split_off};
ghost use Rattle.hub_lock.specs.Passes.{IsOf};
ghost use Rattle.trial_typing.specs.ShellLaw.{IsShellReady};

use hub_lock::{Hub, HubPass};
use trial_typing::{ShellJob, ShellSteps};

/// The job of a shell that gives these orders is ready. (no memory)
pub fn begin_shell(hub: &Hub, root: &mut HubPass, steps: ShellSteps) -> ShellJob
    requires own { IsOf hub.now root.old }
    requires room { root.old.next ≤ 2 ^ 63 }
    ensures ready { IsShellReady hub.now result }
    ensures pass { result.pass ≡ split_off root.old }
    ensures steps { result.steps ≡ steps }
    ensures left { root.new ≡ after_split root.old }
{
    ShellJob {
        pass: hub.shell(root),
        steps,
    }
}
