//! The one place that reads a header: what bytes begin with.
ghost use Rattle.std.specs.Prelude.{◌≡◌, ◌≤◌, ◌↔◌, length, IsTrue};
ghost use Rattle.wl_wire.specs.Messages.{size_of, id_of, opcode_of, body_of, IsGoodSize};
ghost use Rattle.wl_wire.specs.Fronts.{IsFront, HasMessages};

use crate::raw::Raw;
use crate::{HEADER_SIZE, MESSAGE_LIMIT};

/// What bytes begin with.
#[derive(Clone, Copy, Debug)]
pub enum Front<'a> {
    /// A whole message, and how many of the bytes it has: 8 to 4,096.
    Whole(Raw<'a>, usize),
    /// A part of a message, or nothing.
    Part,
    /// A header whose size is under 8, above 4,096 or no multiple of 4.
    BadSize,
}

pub(crate) fn is_good(size: usize) -> bool
    ensures { IsTrue result ↔ IsGoodSize size }
{
    HEADER_SIZE <= size && size <= MESSAGE_LIMIT && size % 4 == 0
}

// The size that the header tells.
pub(crate) fn size_at(bytes: &[u8]) -> usize
    requires { 8 ≤ length bytes.now }
    ensures { result ≡ size_of bytes.now }
{
    bytes[6] as usize + 256 * bytes[7] as usize
}

// A whole message by its parts.
pub(crate) fn raw_of(message: &[u8]) -> Raw<'_>
    requires { 8 ≤ length message.now }
    ensures id { result.id ≡ id_of message.now }
    ensures opcode { result.opcode ≡ opcode_of message.now }
    ensures body { result.body.now ≡ body_of message.now }
{
    let (header, body) = message.split_at(HEADER_SIZE);
    Raw {
        id: u32::from_le_bytes([header[0], header[1], header[2], header[3]]),
        opcode: header[4] as u16 + 256 * header[5] as u16,
        body,
    }
}

/// What the bytes begin with: a whole message, lent by its parts, where they begin with all bytes of one; a bad size,
/// where they begin with a header that tells one; else a part of a message. Copies nothing, and takes no memory.
#[inline(always)]
pub fn front_of(bytes: &[u8]) -> Front<'_>
    ensures front { IsFront bytes.now result }
    ensures messages { HasMessages bytes.now result }
{
    if bytes.len() < HEADER_SIZE {
        return Front::Part;
    }
    let size = size_at(bytes);
    if !is_good(size) {
        return Front::BadSize;
    }
    if bytes.len() < size {
        return Front::Part;
    }
    let (message, _) = bytes.split_at(size);
    Front::Whole(raw_of(message), size)
}
