//! The lines of actions.
ghost use Rattle.std.specs.Prelude.{◌≡◌, ◌<◌, ◌+◌, ◌++◌, OnOk, string_bytes};
ghost use Rattle.trial_script.specs.declared.action.Action.TheVariants as actions;
ghost use Rattle.trial_script.specs.declared.action.FieldEdit.TheVariants as edits;
ghost use Rattle.trial_script.specs.declared.line.Line.TheVariants as lines;
ghost use Rattle.trial_gen.specs.Drawn.{letter, drawn, action_of, action_lines, action_count};
ghost use Rattle.trial_gen.specs.Drawn.{line_text, lines_text};

use crate::words::{add_byte, add_number};
use rand_core::SeedableRng;
use rand_core::utils::NextWord;
use rand_pcg::Lcg64Xsh32;
use std::alloc::Global;
use wio_core::NoMemory;

/// How many actions are drawn.
const ACTIONS: u32 = 400;

// The shell focuses the field.
fn add_use(text: &mut String, field: u32) -> Result<(), NoMemory>
    ensures { OnOk result (string_bytes text.new
        ≡ string_bytes text.old ++ line_text (lines.Act (actions.Use field))) }
{
    text.push_str("use")?;
    add_number(text, field)?;
    text.push('\n')?;
    Ok(())
}

// The shell presses the key of the value.
fn add_press(text: &mut String, value: u32) -> Result<(), NoMemory>
    requires { value < 26 }
    ensures { OnOk result (string_bytes text.new
        ≡ string_bytes text.old ++ line_text (lines.Act (actions.Press (1 + value)))) }
{
    text.push_str("press")?;
    add_number(text, 1 + value)?;
    text.push('\n')?;
    Ok(())
}

// The field's user inserts the letter of the value.
fn add_insert(alloc: Global, text: &mut String, field: u32, value: u32) -> Result<(), NoMemory>
    requires { value < 26 }
    ensures { OnOk result (string_bytes text.new ≡ string_bytes text.old
        ++ line_text (lines.Act (actions.Edit field (edits.Insert (letter value))))) }
{
    text.push_str("insert")?;
    add_number(text, field)?;
    add_byte(alloc, text, b'a' + value as u8)?;
    text.push('\n')?;
    Ok(())
}

// The field's user rubs a character out.
fn add_rub(text: &mut String, field: u32) -> Result<(), NoMemory>
    ensures { OnOk result (string_bytes text.new
        ≡ string_bytes text.old ++ line_text (lines.Act (actions.Edit field edits.Rub))) }
{
    text.push_str("rub")?;
    add_number(text, field)?;
    text.push('\n')?;
    Ok(())
}

// The line of what is done, by its kind.
fn add_kind(
    alloc: Global,
    text: &mut String,
    kind: u32,
    field: u32,
    value: u32,
) -> Result<(), NoMemory>
    requires { value < 26 }
    ensures { OnOk result (string_bytes text.new
        ≡ string_bytes text.old ++ line_text (lines.Act (action_of kind field value))) }
{
    if kind == 0 {
        add_use(text, field)
    } else if kind == 1 {
        add_press(text, value)
    } else if kind == 2 {
        add_insert(alloc, text, field, value)
    } else {
        add_rub(text, field)
    }
}

// The line of the action that a word draws, behind a text.
#[tactic(auto, unfolding(crate::specs::Drawn::drawn))]
fn add_action(alloc: Global, text: &mut String, word: u32) -> Result<(), NoMemory>
    ensures { OnOk result
        (string_bytes text.new ≡ string_bytes text.old ++ line_text (lines.Act (drawn word))) }
{
    let field = 1 + word / 256 % 4;
    let value = word / 65_536 % 26;
    add_kind(alloc, text, word % 4, field, value)
}

/// The lines of the actions of a number, behind a text.
pub(crate) fn add_actions(alloc: Global, text: &mut String, number: u64) -> Result<(), NoMemory>
    ensures { OnOk result (string_bytes text.new
        ≡ string_bytes text.old ++ lines_text (action_lines number action_count)) }
{
    let mut words = Lcg64Xsh32::seed_from_u64(number);
    for made in 0..ACTIONS {
        let word = words.next_word();
        add_action(alloc, text, word)?;
    }
    Ok(())
}
