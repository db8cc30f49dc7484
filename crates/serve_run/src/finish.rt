//! A run is brought to its end: the record is written while links run, and the results come back.
ghost use Rattle.std.specs.Prelude.{◌≡◌, ◌≤◌, ◌+◌, ◌^◌, ℕ, [], length};
ghost use Rattle.serve_net.specs.declared.door.Door.{Door};
ghost use Rattle.turn_lock.specs.Pairs.{NoneOf, HasSeen, IsIn};
ghost use Rattle.hub_lock.specs.Seats.{after_split, split_off, having_seen, naming};
ghost use Rattle.hub_lock.specs.Recording.{recorder};
ghost use Rattle.serve_run.specs.Ended.{IsEnded};
ghost use Rattle.serve_run.specs.LinkJobs.{AreOnHub};
ghost use Rattle.serve_run.specs.Started.{IsRootOf};

use crate::collect::collect;
use crate::record::{record_first, record_last};
use crate::status::ServeStatus;
use crate::stop::{Stop, status_with};
use broker_steps::Limits;
use hub_lock::{Gate, Hub, HubPass, RecorderPass};
use serve_jobs::{LinkJob, Spawner};
use serve_net::Net;
use std::alloc::Global;
use std::sync::Wait;
use wio_core::Sink;

// A pass for who records: nobody else of this hub does, so the first round gives it.
fn record_pass<R: Wait>(rt: &R, hub: &Hub, root: &mut HubPass) -> RecorderPass
    requires root { IsRootOf hub.now root.old }
    requires room { root.old.next ≤ 2 ^ 63 }
    ensures left { root.new ≡ after_split (naming (having_seen root.old root.new.seen)) }
    ensures right { result ≡ recorder (split_off (having_seen root.old root.new.seen)) [] }
    ensures fresh { NoneOf result.seat.number result.seat.seen }
    ensures mine { HasSeen root.new.seen 0 root.old.seen }
    ensures settled { (n : ℕ) → IsIn n root.old.taken → HasSeen root.new.seen n root.old.seen }
{
    for _ in rt.forever() {
        if let Some(pass) = hub.recorder(rt, root) {
            return pass;
        }
    }
    unreachable!()
}

/// Writes the recorded session as its entries come while the jobs run, hangs all links up, and takes
/// all results. Where the record can't be written the links end so at once: what isn't recorded isn't
/// served. Else their jobs have come to their ends before.
pub(crate) fn finish_run<
    R: Wait,
    N: Net,
    G: Gate + Drop,
    W: Spawner<LinkJob<N::In, N::Out, G>>,
    K: Sink,
>(
    rt: &R,
    alloc: Global,
    limits: &Limits,
    hub: &Hub,
    root: &mut HubPass,
    net: &mut N,
    spawner: &mut W,
    accepted: Result<(), Stop>,
    output: &mut K,
) -> ServeStatus
    requires root { IsRootOf hub.now root.old }
    requires limits { hub.now.limits ≡ limits.now }
    requires room { root.old.next ≤ 2 ^ 63 }
    requires ours { AreOnHub hub.now (length (W.reports spawner.old)) (W.started spawner.old) }
    requires balance { root.old.out + length (W.reports spawner.old)
        ≡ length (W.started spawner.old) }
    ensures ended { IsEnded hub.now root.old (W.started spawner.old) (W.reports spawner.old)
        (W.reports spawner.new) (K.held output.old) (K.held output.new)
        (K.fault_count output.old) (K.fault_count output.new) accepted result }
    ensures hung_up { N.hung_up net.new ≡ length (N.links net.new) }
    ensures doors { (d : Door) → N.opened net.new d ≡ N.opened net.old d }
    ensures listens { N.listens net.new ≡ N.listens net.old }
    ensures links { N.links net.new ≡ N.links net.old }
    ensures faults { N.fault_count net.new ≡ N.fault_count net.old }
    ensures all { length (W.reports spawner.new) ≡ length (W.started spawner.old) }
    ensures started { W.started spawner.new ≡ W.started spawner.old }
    ensures before { W.before_start spawner.new ≡ W.before_start spawner.old }
    ensures never_falls { W.refusal_count spawner.old ≤ W.refusal_count spawner.new }
    ensures no_refusal { W.refusal_count spawner.new ≡ W.refusal_count spawner.old }
{
    let users = root.made();
    let mut pass = record_pass(rt, hub, root);
    hub.end_record(users);
    let first = record_first(rt, alloc, limits, hub, &mut pass, output);
    net.hang_up();
    let trouble = collect(hub, root, spawner);
    let written = record_last(rt, alloc, hub, root, pass, first, output);
    status_with(written, accepted, trouble)
}
