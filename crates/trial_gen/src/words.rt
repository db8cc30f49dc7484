//! The words of a line.
ghost use Rattle.std.specs.Prelude.{◌≡◌, ◌++◌, ◌∷◌, [], OnOk, string_bytes};
ghost use Rattle.std.specs.Fmt.{decimal};
ghost use Rattle.session_text.specs.Words.{hex_word};

use itoa::Buffer;
use std::alloc::Global;
use wio_core::NoMemory;

/// A space and a number behind a text.
pub(crate) fn add_number(text: &mut String, number: u32) -> Result<(), NoMemory>
    ensures { OnOk result
        (string_bytes text.new ≡ string_bytes text.old ++ 32 ∷ decimal number) }
{
    text.push(' ')?;
    text.push_str(Buffer::new().format(number))?;
    Ok(())
}

/// A space and the text of one byte behind a text.
pub(crate) fn add_byte(alloc: Global, text: &mut String, byte: u8) -> Result<(), NoMemory>
    ensures { OnOk result
        (string_bytes text.new ≡ string_bytes text.old ++ 32 ∷ hex_word (byte ∷ [])) }
{
    let word = hex::encode(alloc, &[byte])?;
    text.push(' ')?;
    text.push_str(&word)?;
    Ok(())
}
