//! The events in bytes that were put for a peer.
ghost use Rattle.std.specs.Prelude.{◌≡◌, ◌==◌, ◌&&◌};
ghost use Rattle.program_gen.specs.Events.{events_in};

use wl_wire::{Front, Raw, front_of};

// Whether the message comes from the object and has the opcode.
fn is_event(raw: &Raw<'_>, object: u32, opcode: u16) -> bool
    ensures { result ≡ ((raw.now.id == object) && (raw.now.opcode == opcode)) }
{
    raw.id == object && raw.opcode == opcode
}

// How many messages of the object with this opcode stand among those that the bytes begin with.
pub(crate) fn events_in(bytes: &[u8], object: u32, opcode: u16) -> u64
    ensures { result ≡ events_in object opcode bytes.now }
{
    let mut count = 0;
    let mut rest = bytes;
    'messages: while let Front::Whole(raw, used) = front_of(rest) {
        let (_, more) = rest.split_at(used);
        if is_event(&raw, object, opcode) {
            count += 1;
        }
        rest = more;
    }
    count
}
