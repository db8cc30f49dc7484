//! Links come in, and their jobs start.
ghost use Rattle.std.specs.Prelude.{◌≡◌, ◌≢◌, ◌≤◌, ◌+◌, ◌*◌, ◌^◌, true, length, Err};
ghost use Rattle.std.specs.Arc.{arc_value};
ghost use Rattle.turn_lock.specs.Pairs.{own};
ghost use Rattle.wio_core.specs.Io.{Rose};
ghost use Rattle.serve_net.specs.declared.door.Door.{Door};
ghost use Rattle.serve_run.specs.LinkJobs.{role_at};
ghost use Rattle.serve_run.specs.Started.{IsRootOf, CanJoin, LinkStarted, AreAccepted, Starts};

use crate::new_link::NewLink;
use crate::start::{start_peer, start_shell};
use crate::stop::Stop;
use hub_lock::{Gate, Hub, HubPass};
use relay_model::Role;
use serve_jobs::{LinkJob, Spawner};
use serve_net::{LinkSink, LinkSource, Net};
use serve_words::door_of;
use std::alloc::Global;
use std::sync::{Arc, Wait};
use wio_core::Failed;

// The role of the peer that a letter lets in; a shell is none.
fn role_of(letter: u8) -> Option<Role>
    ensures { result ≡ role_at letter }
{
    match letter {
        b'a' => Some(Role::App),
        b'm' => Some(Role::Method),
        b'k' => Some(Role::Keyed),
        _ => None,
    }
}

// Starts the jobs of a link of a peer of this role, or of a shell.
fn start_link<R: Wait, S: LinkSource, K: LinkSink, G: Gate + Drop, W: Spawner<LinkJob<S, K, G>>>(
    rt: &R,
    alloc: Global,
    hub: &Arc<Hub, Global>,
    root: &mut HubPass,
    spawner: &mut W,
    gate: &Arc<G, Global>,
    role: Option<Role>,
    link: NewLink<S, K>,
) -> Result<(), Stop>
    requires ready { (w : _) (j : _) → W.ready w j }
    requires root { CanJoin (arc_value hub.now) root.old }
    ensures started { LinkStarted (arc_value hub.now) root.old root.new (W.started spawner.old)
        (W.started spawner.new) (S.number link.source) role result }
    ensures jobs { Starts W.reports W.before_start W.refusal_count spawner.old spawner.new result }
{
    match role {
        Some(role) => start_peer(rt, alloc, hub, root, spawner, gate, role, link),
        None => start_shell(rt, alloc, hub, root, spawner, link),
    }
}

/// Accepts a link for each letter, in order, and starts its jobs. It waits so many seconds at most
/// for each.
pub(crate) fn accept_all<R: Wait, N: Net, G: Gate + Drop, W: Spawner<LinkJob<N::In, N::Out, G>>>(
    rt: &R,
    alloc: Global,
    hub: &Arc<Hub, Global>,
    root: &mut HubPass,
    net: &mut N,
    spawner: &mut W,
    gate: &Arc<G, Global>,
    letters: &[u8],
    wait: u32,
) -> Result<(), Stop>
    requires ready { (w : _) (j : _) → W.ready w j }
    requires root { IsRootOf (arc_value hub.now) root.old }
    requires room { root.old.next + 2 * length letters.now ≤ 2 ^ 63 }
    requires few { length (own 0 root.old.seen) + length letters.now ≤ 64 }
    requires open { (d : Door) → N.opened net.old d ≡ true }
    ensures accepted { AreAccepted (arc_value hub.now) root.old root.new (W.started spawner.old)
        (W.started spawner.new) (N.links net.old) (N.links net.new) letters.now result }
    ensures open { (d : Door) → N.opened net.new d ≡ true }
    ensures listens { N.listens net.new ≡ N.listens net.old }
    ensures jobs { Starts W.reports W.before_start W.refusal_count spawner.old spawner.new result }
    ensures never_falls { N.fault_count net.old ≤ N.fault_count net.new }
    ensures net { result ≡ Err Stop.NetFault →
        Rose (N.fault_count net.old) (N.fault_count net.new) }
    ensures no_net { result ≢ Err Stop.NetFault →
        N.fault_count net.new ≡ N.fault_count net.old }
{
    for letter in letters {
        let role = role_of(*letter);
        let (source, sink) = match net.accept(door_of(*letter), wait) {
            Ok(link) => link,
            Err(Failed) => return Err(Stop::NetFault),
        };
        let link = NewLink { source, sink };
        if let Err(stop) = start_link(rt, alloc, hub, root, spawner, gate, role, link) {
            return Err(stop);
        }
    }
    Ok(())
}
