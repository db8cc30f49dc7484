//! The server.
ghost use Rattle.std.specs.Prelude.{◌≡◌, ◌≢◌, ◌⊎◌, ◌≤◌, ◌+◌, ◌*◌, ◌^◌, []};
ghost use Rattle.std.specs.Prelude.{length, map, string_bytes, true, false, Some, None, Err};
ghost use Rattle.std.specs.Prelude.{OnOk, IfSome};
ghost use Rattle.std.specs.Arc.{arc_value};
ghost use Rattle.wio_core.specs.Io.{Rose};
ghost use Rattle.broker_steps.specs.Ranges.{IsLimits};
ghost use Rattle.serve_net.specs.declared.door.Door.{Door};
ghost use Rattle.serve_words.specs.Words as grammar;
ghost use Rattle.serve_words.specs.Asked.{asked as asked'};
ghost use Rattle.serve_words.specs.Shape.{is_serve};
ghost use Rattle.serve_run.specs.Opened.{AreOpened};
ghost use Rattle.serve_run.specs.Started.{IsRootOf, AreAccepted, Starts};
ghost use Rattle.serve_run.specs.ServerLaw.{ServerLaw, sides};
ghost use Rattle.turn_lock.specs.Pairs.{own};
ghost use Rattle.hub_lock.specs.Seats.{fresh_seat};

use crate::accept::accept_all;
use crate::finish::finish_run;
use crate::open::open_all;
use crate::status::ServeStatus;
use crate::stop::Stop;
use hub_lock::{Gate, Hub, HubPass};
use serve_jobs::{LinkJob, Spawner};
use serve_net::Net;
use serve_words::{Serving, WordsRefusal, serve_of};
use std::alloc::Global;
use std::sync::{Arc, Wait};
use wio_core::{Failed, Sink};

// Opens the doors, and accepts and starts the links.
fn serve_links<R: Wait, N: Net, G: Gate + Drop, W: Spawner<LinkJob<N::In, N::Out, G>>>(
    rt: &R,
    alloc: Global,
    asked: &Serving<'_>,
    hub: &Arc<Hub, Global>,
    root: &mut HubPass,
    net: &mut N,
    spawner: &mut W,
    gate: &Arc<G, Global>,
) -> Result<(), Stop>
    requires ready { (w : _) (j : _) → W.ready w j }
    requires root { IsRootOf (arc_value hub.now) root.old }
    requires room { root.old.next + 2 * length asked.now.order.now ≤ 2 ^ 63 }
    requires few { length (own 0 root.old.seen) + length asked.now.order.now ≤ 64 }
    ensures accepted { AreAccepted (arc_value hub.now) root.old root.new (W.started spawner.old)
        (W.started spawner.new) (N.links net.old) (N.links net.new) asked.now.order.now result }
    ensures open { OnOk result ((d : Door) → N.opened net.new d ≡ true) }
    ensures opened { AreOpened (N.links net.old) (N.links net.new) (N.listens net.old)
        (N.listens net.new) result }
    ensures jobs { Starts W.reports W.before_start W.refusal_count spawner.old spawner.new result }
    ensures never_falls { N.fault_count net.old ≤ N.fault_count net.new }
    ensures net { result ≡ Err Stop.NetFault →
        Rose (N.fault_count net.old) (N.fault_count net.new) }
    ensures no_net { result ≢ Err Stop.NetFault →
        N.fault_count net.new ≡ N.fault_count net.old }
{
    match open_all(net, asked) {
        Ok(()) => accept_all(
            rt,
            alloc,
            hub,
            root,
            net,
            spawner,
            gate,
            asked.order,
            asked.wait,
        ),
        Err(Failed) => Err(Stop::NetFault),
    }
}

// Serves what the words ask for, by a hub that nobody joined yet.
fn serve_by<R: Wait, N: Net, W: Spawner<LinkJob<N::In, N::Out, G>>, G: Gate + Drop, K: Sink>(
    rt: &R,
    alloc: Global,
    asked: &Serving<'_>,
    hub: &Arc<Hub, Global>,
    root: &mut HubPass,
    net: &mut N,
    spawner: &mut W,
    gate: &Arc<G, Global>,
    output: &mut K,
) -> ServeStatus
    requires ready { (w : _) (j : _) → W.ready w j }
    requires idle { length (W.reports spawner.old) ≡ length (W.started spawner.old) }
    requires limits { (arc_value hub.now).limits ≡ asked.now.limits }
    requires order { length asked.now.order.now ≤ 64 }
    requires new { root.old ≡
        fresh_seat (arc_value hub.now).turn 0 (Some (arc_value hub.now).limits) [] }
    ensures law { ServerLaw (asked' asked.now)
        (sides (N.opened net.old) (N.listens net.old) (N.links net.old) (N.hung_up net.old) (N.fault_count net.old)
        (W.started spawner.old) (W.reports spawner.old) (W.before_start spawner.old)
        (W.refusal_count spawner.old) (K.held output.old) (K.fault_count output.old))
        (sides (N.opened net.new) (N.listens net.new) (N.links net.new) (N.hung_up net.new) (N.fault_count net.new)
        (W.started spawner.new) (W.reports spawner.new) (W.before_start spawner.new)
        (W.refusal_count spawner.new) (K.held output.new) (K.fault_count output.new)) result }
{
    let accepted = serve_links(rt, alloc, asked, hub, root, net, spawner, gate);
    finish_run(
        rt,
        alloc,
        &asked.limits,
        &**hub,
        root,
        net,
        spawner,
        accepted,
        output,
    )
}

// Serves what the words ask for.
fn serve<R: Wait, N: Net, W: Spawner<LinkJob<N::In, N::Out, G>>, G: Gate + Drop, K: Sink>(
    rt: &R,
    alloc: Global,
    asked: &Serving<'_>,
    net: &mut N,
    spawner: &mut W,
    gate: &Arc<G, Global>,
    output: &mut K,
) -> ServeStatus
    requires ready { (w : _) (j : _) → W.ready w j }
    requires idle { length (W.reports spawner.old) ≡ length (W.started spawner.old) }
    requires limits { IsLimits asked.now.limits }
    requires order { length asked.now.order.now ≤ 64 }
    ensures law { ((result ≡ ServeStatus.NoMemory) × (net.new ≡ net.old)
        × (spawner.new ≡ spawner.old) × (output.new ≡ output.old))
        ⊎ ServerLaw (asked' asked.now)
        (sides (N.opened net.old) (N.listens net.old) (N.links net.old) (N.hung_up net.old) (N.fault_count net.old)
        (W.started spawner.old) (W.reports spawner.old) (W.before_start spawner.old)
        (W.refusal_count spawner.old) (K.held output.old) (K.fault_count output.old))
        (sides (N.opened net.new) (N.listens net.new) (N.links net.new) (N.hung_up net.new) (N.fault_count net.new)
        (W.started spawner.new) (W.reports spawner.new) (W.before_start spawner.new)
        (W.refusal_count spawner.new) (K.held output.new) (K.fault_count output.new)) result }
{
    let Ok((hub, mut root)) = Hub::new(alloc, asked.limits) else {
        return ServeStatus::NoMemory;
    };
    let Ok(hub) = Arc::new(alloc, hub) else {
        return ServeStatus::NoMemory;
    };
    serve_by(
        rt, alloc, asked, &hub, &mut root, net, spawner, gate, output,
    )
}

/// Serves the links that the words ask for over one hub. It opens the three doors, accepts one link
/// per letter of the order, joins those of applications and methods, and starts a reader and a
/// writer for each, or one job for a shell. Where a door, a link, a join or a start fails it accepts
/// no further links, and lets the jobs that run go on to their ends. It then writes the hub's
/// recorded session as its entries come, and its end when all are done. Where that can't be written
/// it hangs all links up at once. The spawner has given the results of all that it started before.
/// (Wait: it promises what it does if it returns.)
pub fn run_serve<R: Wait, N: Net, W: Spawner<LinkJob<N::In, N::Out, G>>, G: Gate + Drop, K: Sink>(
    rt: &R,
    alloc: Global,
    words: &[String],
    net: &mut N,
    spawner: &mut W,
    gate: &Arc<G, Global>,
    output: &mut K,
) -> ServeStatus
    requires ready { (w : _) (j : _) → W.ready w j }
    requires idle { length (W.reports spawner.old) ≡ length (W.started spawner.old) }
    // The words are in no grammar exactly where the answer says so, want of memory excepted, and
    // then nothing is done.
    ensures bad_words { result ≡ ServeStatus.BadWords →
        grammar.serve_of (map string_bytes words.now) ≡ None }
    ensures misspelt { is_serve (map string_bytes words.now) ≡ false →
        result ≡ ServeStatus.BadWords }
    ensures refused { grammar.serve_of (map string_bytes words.now) ≡ None →
        (result ≡ ServeStatus.BadWords) ⊎ (result ≡ ServeStatus.NoMemory) }
    ensures untouched { grammar.serve_of (map string_bytes words.now) ≡ None →
        (net.new ≡ net.old) × (spawner.new ≡ spawner.old) × (output.new ≡ output.old) }
    // The server law, where there was memory for a hub.
    ensures law { IfSome (grammar.serve_of (map string_bytes words.now)) (λ asked.
        ((result ≡ ServeStatus.NoMemory) × (net.new ≡ net.old)
        × (spawner.new ≡ spawner.old) × (output.new ≡ output.old))
        ⊎ ServerLaw asked
        (sides (N.opened net.old) (N.listens net.old) (N.links net.old) (N.hung_up net.old) (N.fault_count net.old)
        (W.started spawner.old) (W.reports spawner.old) (W.before_start spawner.old)
        (W.refusal_count spawner.old) (K.held output.old) (K.fault_count output.old))
        (sides (N.opened net.new) (N.listens net.new) (N.links net.new) (N.hung_up net.new) (N.fault_count net.new)
        (W.started spawner.new) (W.reports spawner.new) (W.before_start spawner.new)
        (W.refusal_count spawner.new) (K.held output.new) (K.fault_count output.new)) result) }
{
    match serve_of(words) {
        Ok(asked) => serve(rt, alloc, &asked, net, spawner, gate, output),
        Err(WordsRefusal::BadWords) => ServeStatus::BadWords,
        Err(WordsRefusal::NoMemory) => ServeStatus::NoMemory,
    }
}
