//! The hold of the seat.
ghost use Rattle.std.specs.Prelude.{◌≡◌, None};
ghost use Rattle.relay_model.specs.Hold.{word_by, word_past, word, is_enabled, is_disabled};
ghost use Rattle.relay_model.specs.Hold.{begins_hold, ends, committed, kept, holder, hold_begun};
ghost use Rattle.relay_plain.specs.Newest.{at_newest};

use crate::focus::{entered, entered_since};
use crate::objects::{is_at, next};
use relay_model::{Act, Label, Word};

// What an act makes of the word of a field, where the acts before it say this.
fn word_by(act: &Act, field: Label, before: Option<Word>) -> Option<Word>
    ensures { result ≡ word_by act.now field before }
{
    match act {
        Act::Enable { field: named } if *named == field => Some(Word::Enabled),
        Act::Disable { field: named } if *named == field => Some(Word::Disabled),
        Act::Commit { field: named } if *named == field => None,
        _ => before,
    }
}

// The last enable or disable of a field past an act, and past the last commit of the field.
fn word_past(from: usize, log: &[Act], field: Label) -> Option<Word>
    ensures { result ≡ word_past from log.now field }
{
    match log {
        [] => None,
        [act, older @ ..] => {
            if next(older) <= from {
                None
            } else {
                word_by(act, field, word_past(from, older, field))
            }
        }
    }
}

// The word of a commit of a field: the last enable or disable since its previous commit and since it was entered
// (`zwp_text_input_v3.commit`).
pub(crate) fn word(log: &[Act], field: Label) -> Option<Word>
    ensures { result ≡ word log.now field }
{
    if entered(log, field) {
        word_past(entered_since(log, field), log, field)
    } else {
        None
    }
}

fn is_enabled(word: Option<Word>) -> bool
    ensures { result ≡ is_enabled word }
{
    matches!(word, Some(Word::Enabled))
}

fn is_disabled(word: Option<Word>) -> bool
    ensures { result ≡ is_disabled word }
{
    matches!(word, Some(Word::Disabled))
}

// The act begins a hold: a commit with the word enable of an entered field, whoever held before.
pub(crate) fn begins_hold(act: &Act, older: &[Act]) -> bool
    ensures { result ≡ begins_hold act.now older.now }
{
    match act {
        Act::Commit { field } => entered(older, *field) && is_enabled(word(older, *field)),
        _ => false,
    }
}

// The act is a commit of the holder with the word disable.
fn ends(act: &Act, older: &[Act], held: Option<Label>) -> bool
    ensures { result ≡ ends act.now older.now held }
{
    match act {
        Act::Commit { field } => is_at(held, *field) && is_disabled(word(older, *field)),
        _ => false,
    }
}

fn committed(act: &Act) -> Option<Label>
    ensures { result ≡ committed act.now }
{
    match act {
        Act::Commit { field } => Some(*field),
        _ => None,
    }
}

// The holder that no commit moves: it keeps the seat while it is entered, by the same focus.
fn kept(log: &[Act], held: Option<Label>) -> Option<Label>
    ensures { result ≡ at_newest (λ act older. kept act older held) None log.now }
{
    match log {
        [] => None,
        [_, older @ ..] => match held {
            Some(field)
                if entered(log, field)
                    && entered_since(log, field) == entered_since(older, field) => { held }
            _ => None,
        },
    }
}

// The field that holds the seat after the newest act, where this one held it before.
pub(crate) fn holder_after(log: &[Act], held: Option<Label>) -> Option<Label>
    requires { held ≡ at_newest (λ act older. holder older) held log.now }
    ensures { result ≡ holder log.now }
{
    match log {
        [] => None,
        [act, older @ ..] => {
            if begins_hold(act, older) {
                committed(act)
            } else if ends(act, older, held) {
                None
            } else {
                kept(log, held)
            }
        }
    }
}

/// The field that holds the seat: the last that committed an enable, while no commit of its own and no focus ended its
/// hold.
pub fn holder(log: &[Act]) -> Option<Label>
    ensures { result ≡ holder log.now }
{
    match log {
        [] => None,
        [_, older @ ..] => holder_after(log, holder(older)),
    }
}

// The last act that began a hold.
pub(crate) fn hold_begun(log: &[Act]) -> usize
    ensures { result ≡ hold_begun log.now }
{
    match log {
        [] => 0,
        [act, older @ ..] => {
            if begins_hold(act, older) {
                next(older)
            } else {
                hold_begun(older)
            }
        }
    }
}
