//! A text, a cursor in it, and a preedit beside it.
ghost use Rattle.std.specs.Prelude.{◌≡◌, ℕ, ◌+◌, ◌≤◌, ◌<◌, ◌↔◌, false, List, [], ◌∷◌, ◌++◌, ◌-◌};
ghost use Rattle.std.specs.Prelude.{take, drop, length, IfOk, IsCharBoundary, string_bytes};
ghost use Rattle.std.specs.Prelude.{string_len, string_capacity};
ghost use Rattle.trial_field.specs.Log.{Entry, done, entry_of, batch_of, IsBatch, HasNoZero};
ghost use Rattle.trial_field.specs.Log.{IsEdit};
ghost use Rattle.trial_field.specs.FieldText.{FieldText, text_limit, whole, after, text_of, insert, left};
ghost use Rattle.trial_field.specs.FieldText.{right, rub, delete, IsSamePlace};
ghost use Rattle.trial_field.specs.Window.{IsWindow};

use crate::batch_view::{BatchView, MAX_PREEDIT};
use crate::edits::Edit;
use crate::places::{character_before, character_behind, window_around};
use std::alloc::Global;
use std::marker::Model;
use wio_core::NoMemory;

/// The longest text of a field, in bytes.
pub const MAX_TEXT: usize = 65_536;

/// A text field: a text, a cursor in it, and a preedit, which is shown at the cursor and isn't part of the text.
///
/// It takes its memory when it is made, and none afterwards. Offsets are in bytes, and the cursor
/// always stands where a character begins or the text ends.
#[derive(Debug, Drop)]
pub struct TrialField {
    text: String,
    cursor: usize,
    preedit: String,
}

impl Model for TrialField {
    ghost use Rattle.trial_field.specs.FieldText.{FieldText};

    ghost Value = { FieldText };

    ghost use Rattle.trial_field.specs.Kept.{seen, IsKept};

    ghost view = { seen };

    ghost invariant = { IsKept };
}

impl TrialField {
    /// An empty field with room for [`MAX_TEXT`] bytes of text and [`MAX_PREEDIT`] bytes of preedit.
    pub fn new(alloc: Global) -> Result<TrialField, NoMemory>
        ensures { IfOk result (λ field. field ≡ text_of []) }
    {
        let text = String::with_capacity(alloc, MAX_TEXT)?;
        let preedit = String::with_capacity(alloc, MAX_PREEDIT)?;
        Ok(TrialField {
            text,
            cursor: 0,
            preedit,
        })
    }

    /// Makes one edit of the field's own user. False where text and cursor are as before: at an
    /// end, for an empty insertion, and for one that the text has no room for. It doesn't touch the
    /// preedit.
    pub fn edit(&mut self, edit: &Edit<'_>) -> bool
        requires { IsEdit edit.now }
        ensures step { self.new ≡ after (entry_of edit.now) self.old }
        ensures log { (log : List Entry) → self.old ≡ text_of log →
            self.new ≡ text_of (entry_of edit.now ∷ log) }
        ensures unchanged { (result ≡ false) ↔ IsSamePlace self.old self.new }
    {
        match edit {
            Edit::Insert(text) => self.insert(text),
            Edit::Left => self.left(),
            Edit::Right => self.right(),
            Edit::Rub => self.rub(),
        }
    }

    /// Takes one batch: drops the old preedit; deletes the batch's range, or nothing where the
    /// range leaves the text or cuts a character; inserts its string as an insertion does; keeps
    /// its preedit. With an empty batch it only drops the preedit, as a `leave` does.
    pub fn done(&mut self, batch: &BatchView<'_>)
        requires { IsBatch batch.now }
        ensures step { self.new ≡ after (done (batch_of batch.now)) self.old }
        ensures log { (log : List Entry) → self.old ≡ text_of log →
            self.new ≡ text_of (done (batch_of batch.now) ∷ log) }
    {
        self.delete(batch.before as usize, batch.after as usize);
        self.insert(batch.string);
        self.show(batch.preedit);
    }

    /// The whole text, at most [`MAX_TEXT`] bytes with no zero byte.
    pub fn text(&self) -> &str
        ensures value { result.now ≡ whole self.now }
        ensures limit { length result.now ≤ text_limit }
        ensures clean { HasNoZero result.now }
    {
        &self.text
    }

    /// The cursor's byte offset in the text, where a character begins or the text ends.
    pub fn cursor(&self) -> usize
        ensures value { result ≡ length self.now.before }
        ensures boundary { IsCharBoundary (whole self.now) result }
    {
        self.cursor
    }

    /// The preedit, at most [`MAX_PREEDIT`] bytes with no zero byte.
    pub fn preedit(&self) -> &str
        ensures value { result.now ≡ self.now.preedit }
        ensures limit { length result.now ≤ MAX_PREEDIT }
        ensures clean { HasNoZero result.now }
    {
        &self.preedit
    }

    /// Where the part of the text begins and ends that `zwp_text_input_v3.set_surrounding_text`
    /// sends, as byte offsets: from 2000 bytes before the cursor, moved up to where a character
    /// begins, to 4000 bytes later, moved down. The cursor is in it.
    pub fn surround_window(&self) -> (usize, usize)
        ensures window { IsWindow (whole self.now) (length self.now.before) result.0 result.1 }
        ensures around { (result.0 ≤ length self.now.before) × (length self.now.before ≤ result.1) }
    {
        window_around(&self.text, self.cursor)
    }

    fn insert(&mut self, text: &str) -> bool
        requires { HasNoZero text.now }
        ensures step { self.new ≡ insert text.now self.old }
        ensures unchanged { (result ≡ false) ↔ IsSamePlace self.old self.new }
    {
        if text.len() > MAX_TEXT - self.text.len() {
            return false;
        }
        match self.text.insert_str(self.cursor, text) {
            Ok(()) => {
                self.cursor += text.len();
                !text.is_empty()
            }
            Err(_) => false,
        }
    }

    fn left(&mut self) -> bool
        ensures step { self.new ≡ left self.old }
        ensures unchanged { (result ≡ false) ↔ IsSamePlace self.old self.new }
    {
        let place = character_before(&self.text, self.cursor);
        let moves = place < self.cursor;
        self.cursor = place;
        moves
    }

    fn right(&mut self) -> bool
        ensures step { self.new ≡ right self.old }
        ensures unchanged { (result ≡ false) ↔ IsSamePlace self.old self.new }
    {
        let place = character_behind(&self.text, self.cursor);
        let moves = self.cursor < place;
        self.cursor = place;
        moves
    }

    fn rub(&mut self) -> bool
        ensures step { self.new ≡ rub self.old }
        ensures unchanged { (result ≡ false) ↔ IsSamePlace self.old self.new }
    {
        let place = character_before(&self.text, self.cursor);
        let rubs = place < self.cursor;
        cut(&mut self.text, place, self.cursor);
        self.cursor = place;
        rubs
    }

    // Deletes so many bytes before the cursor and behind it, or nothing where the range leaves the
    // text or cuts a character.
    fn delete(&mut self, before: usize, behind: usize)
        ensures { self.new ≡ delete before behind self.old }
    {
        if before > self.cursor || behind > self.text.len() - self.cursor {
            return;
        }
        let from = self.cursor - before;
        let to = self.cursor + behind;
        if self.text.is_char_boundary(from) && self.text.is_char_boundary(to) {
            cut(&mut self.text, from, to);
            self.cursor = from;
        }
    }

    // Shows a preedit in place of none.
    fn show(&mut self, preedit: &str)
        requires fits { length preedit.now ≤ MAX_PREEDIT }
        requires clean { HasNoZero preedit.now }
        ensures { self.new ≡ record self.old { preedit = preedit.now } }
    {
        self.preedit.clear();
        let _ = self.preedit.push_str(preedit);
    }
}

// Takes a range out of a text, which moves what stands behind the range and nothing else.
fn cut(text: &mut String, from: usize, to: usize)
    requires ordered { from ≤ to }
    requires from { IsCharBoundary (string_bytes text.old) from }
    requires to { IsCharBoundary (string_bytes text.old) to }
    requires room { string_len text.old ≤ string_capacity text.old }
    ensures bytes { string_bytes text.new ≡ take from (string_bytes text.old) ++ drop to
        (string_bytes text.old) }
    ensures len { string_len text.new + (to - from) ≡ string_len text.old }
    ensures capacity { string_capacity text.old ≤ string_capacity text.new }
{
    let _ = text.replace_range(from..to, "");
}
