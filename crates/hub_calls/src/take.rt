//! A take of what is stored for a peer.
ghost use Rattle.std.specs.Prelude.{◌≡◌, ℕ, List};
ghost use Rattle.hub_lock.specs.Histories.{writer_of};
ghost use Rattle.hub_lock.specs.Passes.{IsOf};
ghost use Rattle.hub_lock.specs.Calls.{pass_having_seen};
ghost use Rattle.hub_calls.specs.Made.{SawMore};
ghost use Rattle.hub_calls.specs.Taken.{TakesPiece};

use crate::stop::PassStop;
use broker_core::Took;
use hub_lock::{Hub, WriterPass};
use std::sync::Wait;

/// What a take found.
#[derive(Clone, Copy, Debug, PartialEq, Eq)]
pub enum Piece {
    /// So many bytes, 1 to 4,096, at the front of the buffer.
    Bytes(usize),
    /// Nothing is stored yet.
    Empty,
    /// Nothing is stored, and the peer has ended.
    Closed,
}

// The same take, of a pass whose number is that of its peer's writer.
fn take_as_writer<R: Wait>(
    rt: &R,
    hub: &Hub,
    pass: &mut WriterPass,
    bytes: &mut [u8; 4096],
) -> Result<Piece, PassStop>
    requires own { IsOf hub.now pass.old.seat }
    requires writes { writer_of pass.old.seat.seen pass.old.peer ≡ Some pass.old.seat.number }
    ensures pass { pass.new ≡ pass_having_seen pass.old pass.new.seat.seen }
    ensures saw { SawMore hub.now.limits pass.old.seat.seen pass.new.seat.seen }
    ensures takes { TakesPiece hub.now.limits pass.old pass.new bytes.new result }
{
    let mut tokens = [0; 256];
    match hub.take(rt, pass, bytes, &mut tokens) {
        Took::Bytes(count, _) => Ok(Piece::Bytes(count)),
        Took::Empty => Ok(Piece::Empty),
        Took::Closed => Ok(Piece::Closed),
        Took::JournalFull(kept) => Err(PassStop::JournalFull(kept)),
        Took::NoMemory => Err(PassStop::NoMemory),
        Took::NoPeer => unreachable!(),
    }
}

/// Takes the next bytes that are stored for the pass's peer into the buffer: 4,096, or all where
/// fewer are stored. Tokens that come with them are dropped.
///
/// `JournalFull` comes where something is stored and the journal is full for a take; `NoMemory` may
/// come where something is stored. (Wait: it promises what it does if it returns.)
pub fn take_piece<R: Wait>(
    rt: &R,
    hub: &Hub,
    pass: &mut WriterPass,
    bytes: &mut [u8; 4096],
) -> Result<Piece, PassStop>
    requires own { IsOf hub.now pass.old.seat }
    ensures pass { pass.new ≡ pass_having_seen pass.old pass.new.seat.seen }
    ensures saw { SawMore hub.now.limits pass.old.seat.seen pass.new.seat.seen }
    ensures takes { TakesPiece hub.now.limits pass.old pass.new bytes.new result }
{
    // Whose writer the pass is, its contract tells with the number.
    let _ = pass.peer();
    take_as_writer(rt, hub, pass, bytes)
}
