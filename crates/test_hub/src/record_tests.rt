//! Who records, in a thread of its own beside the calls of two peers: each entry is handed out once, in order, and who
//! records ends when the record does. A ring that is lost would keep the test from ending.
ghost use Rattle.std.specs.Prelude.{◌≡◌};
ghost use Rattle.hub_lock.specs.Passes.{IsOf};

use crate::equal::equal;
use crate::peer::{LIMITS, Steps, Takes, join_peer, step_of};
use broker_steps::PeerStep;
use hub_lock::{Hub, HubPass, NoSession, RecorderPass};
use relay_model::Role;
use std::alloc::Global;
use std::process::Abort;
use std::sync::Wait;
use std::test::Fail;
use std::thread::{Threads, join};

/// How often each peer asks for a callback. What it is told is taken each time.
const TIMES: u32 = 200;

/// The peer asks for a callback, which is done at once.
static SYNC: [u8; 12] = [1, 0, 0, 0, 0, 0, 12, 0, 2, 0, 0, 0];

/// How many entries have each author: the root, who records, and the passes of two peers.
type Authors = [u64; 6];

/// A peer whose calls are made in one thread.
#[derive(Drop)]
struct Peer<'a> {
    steps: Steps<'a>,
    takes: Takes<'a>,
}

// Takes note of all that is handed out, and of the last number that was one more than the one before.
fn record_all<R: Wait>(rt: &R, hub: &Hub, mut pass: RecorderPass) -> (Authors, u32)
    requires own { IsOf hub.now pass.seat }
{
    let mut authors = [0u64; 6];
    let mut last = 0u32;
    for _ in rt.forever() {
        let Some(next) = hub.wait_hand_out(rt, &mut pass) else {
            break;
        };
        if next.number == last.saturating_add(1) {
            last = next.number;
        }
        if let Some(count) = authors.get_mut(next.stamp.author as usize) {
            *count = count.saturating_add(1);
        }
    }
    (authors, last)
}

// A peer asks, and takes what it is told.
fn ask_once<R: Wait>(rt: &R, alloc: Global, steps: &mut Steps<'_>, takes: &mut Takes<'_>) {
    if let Some(step) = step_of(alloc, &SYNC) {
        let _answer = steps.hub.submit(rt, &mut steps.pass, &step);
    }
    let mut bytes = [0; 4096];
    let mut tokens = [0; 256];
    let _took = takes.hub.take(rt, &mut takes.pass, &mut bytes, &mut tokens);
}

// It asks again and again, and ends.
fn ask_often<R: Wait>(rt: &R, alloc: Global, peer: Peer<'_>) {
    let Peer {
        mut steps,
        mut takes,
    } = peer;
    for _ in 0..TIMES {
        ask_once(rt, alloc, &mut steps, &mut takes);
    }
    let Steps { hub, mut pass } = steps;
    let _answer = hub.submit(rt, &mut pass, &PeerStep::Gone);
    hub.leave();
}

// Two peers, each in a thread of its own. Both leave at their ends.
fn ask_both<R: Threads + Wait + Sync>(rt: &R, alloc: Global, one: Peer<'_>, other: Peer<'_>) {
    join(
        rt,
        move || { ask_often(rt, alloc, one) },
        move || { ask_often(rt, alloc, other) },
    );
}

// What was handed out beside two peers.
fn record_beside<R: Threads + Wait + Sync>(
    rt: &R,
    alloc: Global,
    hub: &Hub,
    pass: RecorderPass,
    one: Peer<'_>,
    other: Peer<'_>,
) -> (Authors, u32)
    requires own { IsOf hub.now pass.seat }
{
    let (record, ()) = join(
        rt,
        move || -> (Authors, u32)
            requires { IsOf hub.now pass.seat }
        { record_all(rt, hub, pass) },
        move || { ask_both(rt, alloc, one, other) },
    );
    record
}

#[test]
fn each_entry_is_handed_out_once(rt: HostRuntime) -> Result<(), Fail> {
    let alloc = rt.alloc();
    let (hub, mut root) = Hub::new(alloc, LIMITS)?;
    let Some(pass) = hub.recorder(&rt, &mut root) else {
        return Err(Fail::new("nobody records"));
    };
    equal(&rt, hub.recorder(&rt, &mut root).is_none(), true);
    let Some((steps, takes)) = join_peer(&rt, &hub, &mut root, Role::App) else {
        return Err(Fail::new("no peer joined"));
    };
    let one = Peer { steps, takes };
    let Some((steps, takes)) = join_peer(&rt, &hub, &mut root, Role::App) else {
        return Err(Fail::new("no peer joined"));
    };
    let other = Peer { steps, takes };
    hub.end_record(2);
    let record = record_beside(&rt, alloc, &hub, pass, one, other);
    equal(&rt, record, ([2, 0, 201, 200, 201, 200], 804));
    equal(
        &rt,
        hub.session(&rt, &mut root).err(),
        Some(NoSession::HandedOut),
    );
    Ok(())
}
