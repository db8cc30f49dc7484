//! The lines of keys.
ghost use Rattle.std.specs.Prelude.{◌≡◌, ◌≤◌, ◌++◌, OnOk, string_bytes};
ghost use Rattle.trial_gen.specs.Drawn.{letter_line, letter_lines, line_text, lines_text};

use crate::words::{add_byte, add_number};
use std::alloc::Global;
use wio_core::NoMemory;

/// How many keys have letters.
const KEYS: u32 = 26;

// The line of the key behind a text.
fn add_letter(alloc: Global, text: &mut String, key: u32) -> Result<(), NoMemory>
    requires { key ≤ 26 }
    ensures { OnOk result
        (string_bytes text.new ≡ string_bytes text.old ++ line_text (letter_line key)) }
{
    text.push_str("single")?;
    add_number(text, key)?;
    add_byte(alloc, text, 96 + key as u8)?;
    text.push('\n')?;
    Ok(())
}

/// The lines of the keys from 1 on, behind a text.
pub(crate) fn add_letters(alloc: Global, text: &mut String) -> Result<(), NoMemory>
    ensures { OnOk result
        (string_bytes text.new ≡ string_bytes text.old ++ lines_text (letter_lines 26)) }
{
    for index in 0..KEYS {
        add_letter(alloc, text, index + 1)?;
    }
    Ok(())
}
