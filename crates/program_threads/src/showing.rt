//! The line that shows a field.
ghost use Rattle.std.specs.Prelude.{◌≡◌, ◌∷◌, ◌++◌, IfOk, OnOk, string_bytes};
ghost use Rattle.trial_run.specs.Words.{hex_word};
ghost use Rattle.trial_run.specs.Lines.{show_line};

use itoa::Buffer;
use std::alloc::Global;
use trial_run::TrialField;
use wio_core::NoMemory;

// A space and a word behind a text.
fn add_word(text: &mut String, word: &str) -> Result<(), NoMemory>
    ensures { OnOk result (string_bytes text.new ≡ string_bytes text.old ++ 32 ∷ word.now) }
{
    text.push(' ')?;
    text.push_str(word)?;
    Ok(())
}

// A space and a text in hex, or a dash, behind a text.
fn add_hex(alloc: Global, text: &mut String, shown: &str) -> Result<(), NoMemory>
    ensures { OnOk result
        (string_bytes text.new ≡ string_bytes text.old ++ 32 ∷ hex_word shown.now) }
{
    if shown.is_empty() {
        return add_word(text, "-");
    }
    let word = hex::encode(alloc, shown.as_bytes())?;
    add_word(text, &word)
}

/// The line of the field with the number, behind a text: its text, its cursor and its preedit.
#[tactic(auto, unfolding(trial_run::specs::Lines::show_line))]
pub(crate) fn add_field(
    alloc: Global,
    text: &mut String,
    number: u64,
    field: &TrialField,
) -> Result<(), NoMemory>
    ensures { OnOk result
        (string_bytes text.new ≡ string_bytes text.old ++ show_line number field.now) }
{
    text.push_str("show")?;
    add_word(text, Buffer::new().format(number))?;
    add_hex(alloc, text, field.text())?;
    add_word(text, Buffer::new().format(field.cursor()))?;
    add_hex(alloc, text, field.preedit())?;
    text.push('\n')?;
    Ok(())
}
