//! A script's lines, by the number of a line's words.
ghost use Rattle.std.specs.Prelude.{◌≡◌, ℕ, List, Some, codes, true, false, map};
ghost use Rattle.std.specs.Str.{bytes_eq};
ghost use Rattle.session_text.specs.Reading.{Reads};
ghost use Rattle.trial_script.specs.Words.{field_of, key_text_of};
ghost use Rattle.trial_script.specs.Reading.{one_word, header_of, two_words, three_words};
ghost use Rattle.trial_script.specs.Reading.{compose_of, word_of, choose_of, batch_of, seven_words};
ghost use Rattle.trial_script.specs.Reading.{more_words};
ghost use Rattle.trial_script.specs.Reading.{line_of_words};

use crate::action::{Action, Edits, FieldEdit};
use crate::keys::read_keys;
use crate::line::Line;
use compose_method::Text;
use session_text::words::{count, cursor_text, number, signed, text, text_within};
use session_text::{BadLine, LINE_LIMIT};
use std::alloc::Global;

// The most fields of a trial.
const FIELD_LIMIT: u32 = 16;

// The longest text of a key or of a sequence of keys, in bytes.
const KEY_TEXT_LIMIT: usize = 64;

// The most keys of a sequence.
const KEY_LIMIT: usize = 8;

// The most keys of a word.
const WORD_KEY_LIMIT: usize = 16;

// The highest number that a key chooses.
const CHOICE_LIMIT: u32 = 9;

#[tactic(auto, unfolding(crate::specs::Words::field_of))]
fn field(word: &[u8]) -> Result<u32, BadLine>
    ensures { Reads result (field_of word.now) }
{
    count(FIELD_LIMIT, word)
}

#[tactic(auto, unfolding(crate::specs::Words::key_text_of))]
fn key_text(alloc: Global, word: &[u8]) -> Result<Text, BadLine>
    ensures { Reads result (key_text_of word.now) }
{
    let text = text_within(alloc, KEY_TEXT_LIMIT, word)?;
    if text.is_empty() {
        return Err(BadLine::Grammar);
    }
    Ok(text)
}

#[tactic(auto, unfolding(crate::specs::Reading::one_word))]
fn read_one(key: &[u8]) -> Result<Line, BadLine>
    ensures { Reads result (one_word key.now) }
{
    if key == b"leave".as_slice() {
        Ok(Line::Act(Action::Leave))
    } else if key == b"end".as_slice() {
        Ok(Line::End)
    } else {
        Err(BadLine::Grammar)
    }
}

// The form of a script.
#[tactic(auto, unfolding(crate::specs::Reading::header_of))]
fn read_header(form: &[u8]) -> Result<Line, BadLine>
    ensures { Reads result (header_of form.now) }
{
    if form == b"1".as_slice() {
        Ok(Line::Header)
    } else {
        Err(BadLine::Grammar)
    }
}

// The line of that name about the field with the number.
#[inline(always)]
#[tactic(auto, unfolding(crate::specs::Reading::two_words))]
fn line_of_field(key: &[u8], n: u32) -> Option<Line>
    requires header { bytes_eq key.now (codes "trial") ≡ false }
    requires press { bytes_eq key.now (codes "press") ≡ false }
    requires erase { bytes_eq key.now (codes "erase") ≡ false }
    ensures { (a : List ℕ) → field_of a ≡ Some n → result ≡ two_words key.now a }
{
    if key == b"fields".as_slice() {
        Some(Line::Fields(n))
    } else if key == b"use".as_slice() {
        Some(Line::Act(Action::Use(n)))
    } else if key == b"left".as_slice() {
        Some(Line::Act(Action::Edit(n, FieldEdit::Left)))
    } else if key == b"right".as_slice() {
        Some(Line::Act(Action::Edit(n, FieldEdit::Right)))
    } else if key == b"rub".as_slice() {
        Some(Line::Act(Action::Edit(n, FieldEdit::Rub)))
    } else if key == b"pause".as_slice() {
        Some(Line::Act(Action::Pause(n)))
    } else if key == b"resume".as_slice() {
        Some(Line::Act(Action::Resume(n)))
    } else if key == b"show".as_slice() {
        Some(Line::Act(Action::Show(n)))
    } else {
        None
    }
}

// What stands behind `press`.
#[inline(always)]
#[tactic(auto, using(crate::proofs::TwoWords::pressed))]
fn read_press(key: &[u8], a: &[u8]) -> Result<Line, BadLine>
    requires { bytes_eq key.now (codes "press") ≡ true }
    ensures { Reads result (two_words key.now a.now) }
{
    Ok(Line::Act(Action::Press(number(a)?)))
}

// What stands behind `erase`.
#[inline(always)]
#[tactic(auto, using(crate::proofs::TwoWords::erasing))]
fn read_erase(key: &[u8], a: &[u8]) -> Result<Line, BadLine>
    requires { bytes_eq key.now (codes "erase") ≡ true }
    ensures { Reads result (two_words key.now a.now) }
{
    Ok(Line::Erase(number(a)?))
}

#[tactic(auto, using(crate::proofs::TwoWords::by_name))]
fn read_two(key: &[u8], a: &[u8]) -> Result<Line, BadLine>
    ensures { Reads result (two_words key.now a.now) }
{
    if key == b"trial".as_slice() {
        return read_header(a);
    }
    if key == b"press".as_slice() {
        return read_press(key, a);
    }
    if key == b"erase".as_slice() {
        return read_erase(key, a);
    }
    let n = field(a)?;
    match line_of_field(key, n) {
        Some(line) => Ok(line),
        None => Err(BadLine::Grammar),
    }
}

// What follows the name of a word: its text, and the keys.
#[tactic(auto, unfolding(crate::specs::Reading::word_of))]
fn read_word(alloc: Global, a: &[u8], words: &[&[u8]]) -> Result<Line, BadLine>
    ensures { Reads result (word_of a.now (map (λ w. w.now) words.now)) }
{
    let text = key_text(alloc, a)?;
    let keys = read_keys(alloc, words)?;
    if keys.as_slice().len() > WORD_KEY_LIMIT {
        return Err(BadLine::Grammar);
    }
    Ok(Line::Word(text, keys))
}

// A key that chooses, and its number.
fn read_choose(a: &[u8], b: &[u8]) -> Result<Line, BadLine>
    ensures { Reads result (choose_of a.now b.now) }
{
    let key = number(a)?;
    let n = count(CHOICE_LIMIT, b)?;
    Ok(Line::Choose(key, n))
}

#[tactic(auto, unfolding(crate::specs::Reading::three_words))]
fn read_three(alloc: Global, key: &[u8], a: &[u8], b: &[u8]) -> Result<Line, BadLine>
    ensures { Reads result (three_words key.now a.now b.now) }
{
    if key == b"single".as_slice() {
        let key = number(a)?;
        let text = key_text(alloc, b)?;
        Ok(Line::Single(key, text))
    } else if key == b"choose".as_slice() {
        read_choose(a, b)
    } else if key == b"word".as_slice() {
        read_word(alloc, a, &[b])
    } else if key == b"insert".as_slice() {
        let field = field(a)?;
        let text = text_within(alloc, LINE_LIMIT, b)?;
        Ok(Line::Act(Action::Edit(field, FieldEdit::Insert(text))))
    } else {
        Err(BadLine::Grammar)
    }
}

// What follows the name of a sequence of keys: its text, and the keys.
#[tactic(auto, unfolding(crate::specs::Reading::compose_of))]
fn read_compose(alloc: Global, a: &[u8], words: &[&[u8]]) -> Result<Line, BadLine>
    ensures { Reads result (compose_of a.now (map (λ w. w.now) words.now)) }
{
    let text = key_text(alloc, a)?;
    let keys = read_keys(alloc, words)?;
    if keys.as_slice().len() > KEY_LIMIT {
        return Err(BadLine::Grammar);
    }
    Ok(Line::Compose(text, keys))
}

// What follows the name of a batch.
#[tactic(auto, unfolding(crate::specs::Reading::batch_of))]
fn read_batch(
    alloc: Global,
    a: &[u8],
    b: &[u8],
    c: &[u8],
    d: &[u8],
    e: &[u8],
    f: &[u8],
) -> Result<Line, BadLine>
    ensures { Reads result (batch_of a.now b.now c.now d.now e.now f.now) }
{
    let before = number(a)?;
    let after = number(b)?;
    let string = text(alloc, c)?;
    let preedit = cursor_text(alloc, d)?;
    let begin = signed(e)?;
    let end = signed(f)?;
    Ok(Line::Act(Action::Batch(Edits {
        before,
        after,
        string,
        preedit,
        begin,
        end,
    })))
}

// Seven words, of which all but the first two are apart.
#[tactic(auto, unfolding(crate::specs::Reading::seven_words))]
fn read_seven(alloc: Global, key: &[u8], a: &[u8], words: &[&[u8]]) -> Result<Line, BadLine>
    ensures { Reads result (seven_words key.now a.now (map (λ w. w.now) words.now)) }
{
    match words {
        [b, c, d, e, f] if key == b"batch".as_slice() => read_batch(alloc, a, b, c, d, e, f),
        _ => Err(BadLine::Grammar),
    }
}

// Four words or more, likewise.
#[tactic(auto, unfolding(crate::specs::Reading::more_words))]
fn read_more(alloc: Global, key: &[u8], a: &[u8], words: &[&[u8]]) -> Result<Line, BadLine>
    ensures { Reads result (more_words key.now a.now (map (λ w. w.now) words.now)) }
{
    if key == b"compose".as_slice() {
        read_compose(alloc, a, words)
    } else if key == b"word".as_slice() {
        read_word(alloc, a, words)
    } else {
        read_seven(alloc, key, a, words)
    }
}

// The line of the words, the first of which names it.
#[tactic(auto, unfolding(crate::specs::Reading::line_of_words))]
pub fn read_words(alloc: Global, words: &[&[u8]]) -> Result<Line, BadLine>
    ensures { Reads result (line_of_words (map (λ w. w.now) words.now)) }
{
    match words {
        [key] => read_one(key),
        [key, a] => read_two(key, a),
        [key, a, b] => read_three(alloc, key, a, b),
        [key, a, more @ ..] => read_more(alloc, key, a, more),
        _ => Err(BadLine::Grammar),
    }
}
