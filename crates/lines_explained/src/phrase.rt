//! Words with numbers after them, which every part of a line is made of.
ghost use Rattle.std.specs.Prelude.{◌≡◌, ◌++◌, OnOk, string_bytes};
ghost use Rattle.lines_explained.specs.Phrase.{number_after, phrase};

use itoa::Buffer;
use wio_core::NoMemory;

// A number after a space, if there is one.
fn add_number(line: &mut String, number: Option<u32>) -> Result<(), NoMemory>
    ensures { OnOk result (string_bytes line.new ≡ string_bytes line.old ++ number_after number) }
{
    if let Some(number) = number {
        line.push(' ')?;
        line.push_str(Buffer::new().format(number))?;
    }
    Ok(())
}

/// Adds words, a number after them, and more of both.
pub(crate) fn add_phrase(
    line: &mut String,
    who: &str,
    number: Option<u32>,
    what: &str,
    last: Option<u32>,
) -> Result<(), NoMemory>
    ensures { OnOk result (string_bytes line.new
        ≡ string_bytes line.old ++ phrase who.now number what.now last) }
{
    line.push_str(who)?;
    add_number(line, number)?;
    line.push_str(what)?;
    add_number(line, last)?;
    Ok(())
}
