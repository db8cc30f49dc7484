//! The steps of a journal, made again by one thread.
ghost use Rattle.std.specs.Prelude.{◌≡◌, ◌≤◌};

use crate::peer::LIMITS;
use broker_core::{Entry, Journal, Shared, Took};
use broker_steps::{PeerStep, Stamp, Step};
use std::alloc::Global;
use std::test::Fail;
use wl_wire::{Bytes, HEADER_SIZE, MESSAGE_LIMIT};

const GIVEN: Stamp = Stamp {
    moment: 0,
    author: 0,
};

fn play_message(
    alloc: Global,
    shared: &mut Shared,
    peer: u32,
    id: u32,
    opcode: u16,
    body: &Bytes,
) -> Result<(), Fail> {
    if body.len() > MESSAGE_LIMIT - HEADER_SIZE || body.len() % 4 != 0 {
        return Err(Fail::new("a message that is none"));
    }
    let step = PeerStep::Message {
        id,
        opcode,
        body: body.copy(alloc)?,
    };
    shared.apply(&Step::Peer(peer, step), GIVEN)?;
    Ok(())
}

// Takes so many bytes, and adds what they are.
fn play_take(shared: &mut Shared, peer: u32, bytes: u32, taken: &mut Vec<u8>) -> Result<(), Fail> {
    let mut buffer = [0; 4096];
    let size = (bytes as usize).clamp(1, 4096);
    let took = shared.take(peer, &mut buffer[..size], &mut [0; 256], GIVEN);
    let Took::Bytes(count, _) = took else {
        return Err(Fail::new("a take that took nothing"));
    };
    taken.extend_from_slice(&buffer[..count.min(size)])?;
    Ok(())
}

// Makes a step again, and adds what it takes of the peer's.
fn play_entry(
    alloc: Global,
    shared: &mut Shared,
    entry: &Entry,
    peer: u32,
    taken: &mut Vec<u8>,
) -> Result<(), Fail> {
    match entry {
        Entry::Join(role) => {
            shared.join(*role, GIVEN)?;
            Ok(())
        }
        Entry::Message {
            peer,
            id,
            opcode,
            body,
        } => play_message(alloc, shared, *peer, *id, *opcode, body),
        Entry::End { peer, .. } => {
            shared.apply(&Step::Peer(*peer, PeerStep::Gone), GIVEN)?;
            Ok(())
        }
        Entry::Took { peer: of, bytes } if *of == peer => play_take(shared, *of, *bytes, taken),
        Entry::Took { peer: of, bytes } => { play_take(shared, *of, *bytes, &mut Vec::new(alloc)) }
        _ => Err(Fail::new("a step that nobody made")),
    }
}

/// What the takes of a journal for the peer take, where its steps are made again.
pub fn replay(alloc: Global, journal: &Journal, peer: u32) -> Result<Vec<u8>, Fail> {
    let mut shared = Shared::new(alloc, LIMITS)?;
    let mut taken = Vec::new(alloc);
    for number in 1..journal.len().saturating_add(1) {
        if let Some(entry) = journal.entry(number) {
            play_entry(alloc, &mut shared, entry, peer, &mut taken)?;
        }
    }
    Ok(taken)
}
