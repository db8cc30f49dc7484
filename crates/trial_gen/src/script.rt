//! A whole script.
ghost use Rattle.std.specs.Prelude.{◌≡◌, ◌++◌, IfOk, OnOk, string_bytes};
ghost use Rattle.trial_script.specs.declared.line.Line.TheVariants as lines;
ghost use Rattle.trial_gen.specs.Drawn.{field_count, line_text, script_text};

use crate::actions::add_actions;
use crate::letters::add_letters;
use crate::words::add_number;
use std::alloc::Global;
use wio_core::NoMemory;

/// How many fields there are.
const FIELDS: u32 = 4;

// The line of the fields behind a text.
fn add_fields(text: &mut String) -> Result<(), NoMemory>
    ensures { OnOk result (string_bytes text.new
        ≡ string_bytes text.old ++ line_text (lines.Fields field_count)) }
{
    text.push_str("fields")?;
    add_number(text, FIELDS)?;
    text.push('\n')?;
    Ok(())
}

/// The script of a number: the keys 1 to 26 have the letters a to z, there are four fields, and
/// 400 actions follow, which the words of a generator draw that the number seeds. The same number
/// gives the same script.
pub fn drawn_script(alloc: Global, number: u64) -> Result<String, NoMemory>
    ensures { IfOk result (λ text. string_bytes text ≡ script_text number) }
{
    let mut text = String::from_str(alloc, "trial 1\n")?;
    add_letters(alloc, &mut text)?;
    add_fields(&mut text)?;
    add_actions(alloc, &mut text, number)?;
    text.push_str("end\n")?;
    Ok(text)
}
