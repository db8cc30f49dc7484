//! Peers of a hub, and readers that race for it.
ghost use Rattle.std.specs.Prelude.{◌≡◌, IfSome};
ghost use Rattle.hub_lock.specs.Pairs.{NoneOf};
ghost use Rattle.broker_steps.specs.Ranges.{IsPeerStep};
ghost use Rattle.hub_lock.specs.Passes.{IsOf};

use crate::clock::since;
use broker_steps::{FORM_1_WEIGHT, Limits, PeerStep, Role};
use hub_lock::{Hub, HubPass, ReaderPass, WriterPass};
use std::alloc::Global;
use std::sync::Wait;
use std::thread::{Threads, map_vec};
use std::time::{Clock, Instant};
use wl_wire::{Bytes, Front, front_of};

/// As many entries as there may ever be. The stores have the usual size, since each is cleared when its peer joins, which
/// would be most of what a bench with many peers costs.
pub const LIMITS: Limits = Limits {
    entries: 4_000_000,
    store: 65_536,
    weight: FORM_1_WEIGHT,
};

/// Which number of passes no bench comes near.
const MANY: u64 = 1 << 32;

/// A peer makes its registry, its compositor and surface 4.
const SET_UP: [&[u8]; 3] = [
    b"\x01\0\0\0\x01\0\x0c\0\x02\0\0\0",
    b"\x02\0\0\0\0\0\x28\0\x01\0\0\0\x0e\0\0\0wl_compositor\0\0\0\x01\0\0\0\x03\0\0\0",
    b"\x03\0\0\0\0\0\x0c\0\x04\0\0\0",
];

/// `commit` of the surface, which tells nobody anything.
const COMMIT: &[u8] = b"\x04\0\0\0\x06\0\x08\0";

/// What a reader's thread has.
#[derive(Drop)]
pub struct Reader<'a> {
    pub hub: &'a Hub,
    pub pass: ReaderPass,
    ghost own: { IsOf hub.now pass.seat },
}

/// What a writer's thread has.
#[derive(Drop)]
pub struct Writer<'a> {
    pub hub: &'a Hub,
    pub pass: WriterPass,
    ghost own: { IsOf hub.now pass.seat },
    ghost fresh: { NoneOf pass.seat.number pass.seat.seen },
}

/// The step of a message, or none where there is no memory or no whole message.
pub fn step_of(alloc: Global, message: &[u8]) -> Option<PeerStep>
    ensures { IfSome result IsPeerStep }
{
    let Front::Whole(raw, _) = front_of(message) else {
        return None;
    };
    match Bytes::from_slice(alloc, raw.body) {
        Ok(body) => Some(PeerStep::Message {
            id: raw.id,
            opcode: raw.opcode,
            body,
        }),
        Err(_) => None,
    }
}

/// So many applications join.
pub fn join_all<'a, R: Wait>(
    rt: &R,
    alloc: Global,
    hub: &'a Hub,
    root: &mut HubPass,
    count: u64,
) -> Option<(Vec<Reader<'a>>, Vec<Writer<'a>>)>
    requires own { IsOf hub.now root.old }
{
    let mut readers = Vec::new(alloc);
    let mut writers = Vec::new(alloc);
    for _ in 0..count {
        if root.made() > MANY {
            return None;
        }
        let (reader, writer) = hub.join(rt, root, Role::App).ok()?;
        readers.push(Reader { hub, pass: reader }).ok()?;
        writers.push(Writer { hub, pass: writer }).ok()?;
    }
    Some((readers, writers))
}

// Commits so often, and says how many steps were taken.
fn commit_often<R: Wait>(rt: &R, alloc: Global, reader: Reader<'_>, count: u64) -> u64 {
    let Reader { hub, mut pass } = reader;
    let mut taken = 0u64;
    if let Some(step) = step_of(alloc, COMMIT) {
        for _ in 0..count {
            if hub.submit(rt, &mut pass, &step).is_ok() {
                taken = taken.saturating_add(1);
            }
        }
    }
    taken
}

/// So many readers make so many steps each: how many all made, and in how many nanoseconds. The time is that of the threads
/// alone: all peers have joined before, and the hub goes after it.
pub fn race<R: Threads + Wait + Clock + Sync>(
    rt: &R,
    alloc: Global,
    start: &Instant,
    readers: u64,
    count: u64,
) -> Option<(u64, u64)> {
    let (hub, mut root) = Hub::new(alloc, LIMITS).ok()?;
    let (mut ready, _writers) = join_all(rt, alloc, &hub, &mut root, readers)?;
    for message in &SET_UP {
        let step = step_of(alloc, message)?;
        for reader in ready.iter_mut() {
            let _answer = reader.hub.submit(rt, &mut reader.pass, &step);
        }
    }
    let begun = since(rt, start);
    let all = map_vec(rt, ready, &|reader| commit_often(rt, alloc, reader, count)).ok()?;
    let nanos = since(rt, start).saturating_sub(begun);
    let mut made = 0u64;
    for taken in all {
        made = made.saturating_add(taken);
    }
    Some((made, nanos))
}
