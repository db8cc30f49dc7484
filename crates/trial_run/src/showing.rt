//! The line that shows a field.
ghost use Rattle.std.specs.Prelude.{◌≡◌, ◌∷◌, ◌++◌, IfOk, OnOk, string_bytes};
ghost use Rattle.std.specs.Fmt.{decimal};
ghost use Rattle.session_text.specs.Words.{hex_word};
ghost use Rattle.trial_run.specs.Lines.{show_line};

use itoa::Buffer;
use std::alloc::Global;
use trial_field::TrialField;
use wio_core::NoMemory;

// A text as a word.
fn hex_of(alloc: Global, text: &str) -> Result<String, NoMemory>
    ensures value { IfOk result (λ s. string_bytes s ≡ hex_word text.now) }
{
    if text.is_empty() {
        Ok(String::from_str(alloc, "-")?)
    } else {
        Ok(hex::encode(alloc, text.as_bytes())?)
    }
}

// Adds a space and a word to a text.
fn add_word(shown: &mut String, word: &str) -> Result<(), NoMemory>
    ensures { OnOk result (string_bytes shown.new ≡ string_bytes shown.old ++ 32 ∷ word.now) }
{
    shown.push(' ')?;
    shown.push_str(word)?;
    Ok(())
}

/// Adds the line of the field with this number: its text, its cursor and its preedit.
#[tactic(auto, unfolding(crate::specs::Lines::show_line))]
pub(crate) fn add_field(
    alloc: Global,
    shown: &mut String,
    number: u32,
    field: &TrialField,
) -> Result<(), NoMemory>
    ensures { OnOk result
        (string_bytes shown.new ≡ string_bytes shown.old ++ show_line number field.now) }
{
    let text = hex_of(alloc, field.text())?;
    let preedit = hex_of(alloc, field.preedit())?;
    shown.push_str("show")?;
    add_word(shown, Buffer::new().format(number))?;
    add_word(shown, &text)?;
    add_word(shown, Buffer::new().format(field.cursor()))?;
    add_word(shown, &preedit)?;
    shown.push('\n')?;
    Ok(())
}
