//! The letters that a generated method types.
ghost use Rattle.std.specs.Prelude.{◌≡◌, ◌<◌};
ghost use Rattle.session_gen.specs.Rows.{letter};

// The letter of a value, from a to z, written to the front of the room.
pub(crate) fn letter_of(value: u32, room: &mut [u8; 4]) -> &str
    ensures { result.now ≡ letter value }
{
    let code = b'a' + (value % 26) as u8;
    char::from(code).encode_utf8(room)
}
