//! Peers of a hub, as jobs for threads: passes, each with its hub, and what a link in memory gives and takes.
ghost use Rattle.std.specs.Prelude.{◌≡◌, IfSome};
ghost use Rattle.broker_steps.specs.Ranges.{IsPeerStep};
ghost use Rattle.hub_lock.specs.Pairs.{NoneOf};
ghost use Rattle.hub_lock.specs.Passes.{IsOf};

use broker_core::Took;
use broker_steps::{FORM_1_WEIGHT, Limits, PeerStep};
use hub_lock::{Gate, Hub, HubPass, ReaderPass, ShellPass, WriterPass};
use peer_link::{ReadEnd, WriteEnd, read_peer, write_peer};
use relay_model::Role;
use std::alloc::{AllocError, Global};
use std::sync::Wait;
use wio_core::{MemSource, Sink};
use wl_wire::{Bytes, Front, front_of};

/// The limits of a server that is given none.
pub const LIMITS: Limits = Limits {
    entries: 1_000_000,
    store: 65_536,
    weight: FORM_1_WEIGHT,
};

/// A number of passes that no test comes near.
const MANY: u64 = 1 << 32;

/// A frame with one message: the peer asks for its registry, and 112 bytes are then stored for it.
pub const ASK: [u8; 16] = [12, 0, 0, 0, 1, 0, 0, 0, 1, 0, 12, 0, 2, 0, 0, 0];

/// So many frames like `ASK`, the ids from 2 on: 112 bytes are then stored for each.
pub fn asks(alloc: Global, count: u32) -> Result<Vec<u8>, AllocError> {
    let mut bytes = Vec::new(alloc);
    for id in 2..count.saturating_add(2) {
        bytes.extend_from_slice(&ASK[..12])?;
        bytes.extend_from_slice(&id.to_le_bytes())?;
    }
    Ok(bytes)
}

/// The step of a message, or none where there is no memory or no whole message.
pub fn step_of(alloc: Global, message: &[u8]) -> Option<PeerStep>
    ensures { IfSome result IsPeerStep }
{
    let Front::Whole(raw, _) = front_of(message) else {
        return None;
    };
    match Bytes::from_slice(alloc, raw.body) {
        Ok(body) => Some(PeerStep::Message {
            id: raw.id,
            opcode: raw.opcode,
            body,
        }),
        Err(_) => None,
    }
}

/// What the reader of a peer has that joined, and gave no step yet.
#[derive(Drop)]
pub struct Reads<'a> {
    pub hub: &'a Hub,
    pub pass: ReaderPass,
    ghost own: { IsOf hub.now pass.seat },
    ghost fresh: { NoneOf pass.seat.number pass.seat.seen },
}

/// What its writer has, which took nothing yet.
#[derive(Drop)]
pub struct Writes<'a> {
    pub hub: &'a Hub,
    pub pass: WriterPass,
    ghost own: { IsOf hub.now pass.seat },
    ghost fresh: { NoneOf pass.seat.number pass.seat.seen },
}

/// What both have.
#[derive(Drop)]
pub struct Link<'a> {
    pub reads: Reads<'a>,
    pub writes: Writes<'a>,
}

/// What gives steps of a peer.
#[derive(Drop)]
pub struct Steps<'a> {
    pub hub: &'a Hub,
    pub pass: ReaderPass,
    ghost own: { IsOf hub.now pass.seat },
}

/// What takes what a peer is told.
#[derive(Drop)]
pub struct Takes<'a> {
    pub hub: &'a Hub,
    pub pass: WriterPass,
    ghost own: { IsOf hub.now pass.seat },
}

/// What gives orders of the shell.
#[derive(Drop)]
pub struct Orders<'a> {
    pub hub: &'a Hub,
    pub pass: ShellPass,
    ghost own: { IsOf hub.now pass },
}

/// A peer joins.
pub fn join_link<'a, R: Wait>(
    rt: &R,
    hub: &'a Hub,
    root: &mut HubPass,
    role: Role,
) -> Option<Link<'a>>
    requires own { IsOf hub.now root.old }
    ensures own { IsOf hub.now root.new }
{
    if root.made() > MANY {
        return None;
    }
    match hub.join(rt, root, role) {
        Ok((reader, writer)) => Some(Link {
            reads: Reads { hub, pass: reader },
            writes: Writes { hub, pass: writer },
        }),
        Err(_) => None,
    }
}

/// The same of a peer whose calls are made one by one.
pub fn join_peer<'a, R: Wait>(
    rt: &R,
    hub: &'a Hub,
    root: &mut HubPass,
    role: Role,
) -> Option<(Steps<'a>, Takes<'a>)>
    requires own { IsOf hub.now root.old }
    ensures own { IsOf hub.now root.new }
{
    let Link { reads, writes } = join_link(rt, hub, root, role)?;
    let Reads {
        hub: one,
        pass: reader,
    } = reads;
    let Writes {
        hub: other,
        pass: writer,
    } = writes;
    Some((
        Steps {
            hub: one,
            pass: reader,
        },
        Takes {
            hub: other,
            pass: writer,
        },
    ))
}

/// A shell's pass.
pub fn shell_of<'a>(hub: &'a Hub, root: &mut HubPass) -> Option<Orders<'a>>
    requires own { IsOf hub.now root.old }
    ensures own { IsOf hub.now root.new }
{
    if root.made() > MANY {
        return None;
    }
    Some(Orders {
        hub,
        pass: hub.shell(root),
    })
}

/// The peer's link gives these bytes, seven at a time, and the reads of these numbers fail: how the link ended, and how
/// many steps its reader made.
pub fn read_all<R: Wait, G: Gate>(
    rt: &R,
    alloc: Global,
    reads: Reads<'_>,
    bytes: Vec<u8>,
    fail: Vec<u64>,
    gate: &G,
) -> (ReadEnd, u64) {
    let Reads { hub, mut pass } = reads;
    let mut source = MemSource::new(bytes, 7, fail);
    let end = read_peer(rt, alloc, hub, &mut pass, &mut source, gate);
    (end, pass.steps())
}

/// What is stored for the peer goes into the sink: how that ended, how many bytes were taken, and what one take more
/// answers, which waits until something is stored or the peer has ended.
pub fn write_all<R: Wait, K: Sink>(
    rt: &R,
    writes: Writes<'_>,
    sink: &mut K,
) -> (WriteEnd, u64, Took) {
    let Writes { hub, mut pass } = writes;
    let end = write_peer(rt, hub, &mut pass, sink);
    let taken = pass.bytes();
    let took = hub.wait_take(rt, &mut pass, &mut [0; 4096], &mut [0; 256]);
    (end, taken, took)
}
