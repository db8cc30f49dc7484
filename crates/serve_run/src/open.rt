//! The doors open.
ghost use Rattle.std.specs.Prelude.{◌≡◌, ◌≤◌, ℕ, length, true, OnOk, OnErr};
ghost use Rattle.wio_core.specs.Io.{Rose};
ghost use Rattle.serve_net.specs.declared.door.Door.{Door};
ghost use Rattle.serve_run.specs.Opened.{opened_first};

use serve_net::{Door, Net};
use serve_words::Serving;
use wio_core::Failed;

/// Opens the app, the method and the shell door at their paths, in this order.
pub(crate) fn open_all<N: Net>(net: &mut N, asked: &Serving<'_>) -> Result<(), Failed>
    ensures open { OnOk result ((d : Door) → N.opened net.new d ≡ true) }
    ensures all { OnOk result (N.listens net.new
        ≡ opened_first 3 (length (N.links net.old)) (N.listens net.old)) }
    ensures front { OnErr result ((count : ℕ) × (N.listens net.new
        ≡ opened_first count (length (N.links net.old)) (N.listens net.old))) }
    ensures links { N.links net.new ≡ N.links net.old }
    ensures never_falls { N.fault_count net.old ≤ N.fault_count net.new }
    ensures cause { OnErr result (Rose (N.fault_count net.old) (N.fault_count net.new)) }
    ensures no_fault { OnOk result (N.fault_count net.new ≡ N.fault_count net.old) }
{
    net.listen(Door::App, asked.app)?;
    net.listen(Door::Method, asked.method)?;
    net.listen(Door::Shell, asked.shell)
}
