//! A method's pending edits: a slot for each kind, whose texts have their room from the beginning.
ghost use Rattle.std.specs.Prelude.{◌≡◌, ◌≤◌, List, [], ◌∷◌, length, IfOk, IsTrue};
ghost use Rattle.std.specs.String.{string_bytes, string_capacity};
ghost use Rattle.wl_wire.specs.Texts.{has_no_zero};
ghost use Rattle.edit_batch.specs.Calls.{Call, String, Preedit, Delete, Reset, last_edits};

use std::alloc::Global;
use std::marker::Model;
use wl_wire::{NoMemory, Text};

/// The longest text of a `zwp_input_method_v2.commit_string`, in bytes: what fits a message of 4,096 bytes beside its
/// header, the text's length and its zero byte.
pub const STRING_LIMIT: usize = 4083;

/// The longest text of a `zwp_input_method_v2.set_preedit_string`, in bytes: two cursors take 8 bytes more.
pub const PREEDIT_LIMIT: usize = 4075;

/// The last edit of each kind, as a commit would take them.
#[derive(Clone, Copy, Debug, PartialEq, Eq)]
pub struct Edits<'a> {
    /// Bytes to delete before the cursor.
    pub before: u32,
    /// Bytes to delete after the cursor.
    pub after: u32,
    /// The text to insert; empty for none.
    pub string: &'a str,
    /// The text being composed; empty for none.
    pub preedit: &'a str,
    /// Where the cursor in the preedit begins, as the method gave it.
    pub begin: i32,
    /// Where the cursor in the preedit ends, as the method gave it.
    pub end: i32,
}

/// The pending edits of one input method.
#[derive(Drop)]
pub struct Pending {
    before: u32,
    after: u32,
    string: String,
    preedit: String,
    begin: i32,
    end: i32,
}

impl Model for Pending {
    ghost use Rattle.std.specs.Prelude.{◌≤◌, IsTrue};
    ghost use Rattle.std.specs.String.{string_bytes, string_capacity};
    ghost use Rattle.wl_wire.specs.Texts.{has_no_zero};
    ghost use Rattle.edit_batch.specs.Calls.{LastEdits};
    ghost use Rattle.edit_batch.specs.declared.pending.TheConstants.{STRING_LIMIT, PREEDIT_LIMIT};

    ghost Value = { LastEdits };

    ghost view = { λ p. record {
      deletion = (p.before, p.after);
      string = string_bytes p.string;
      preedit = record { text = string_bytes p.preedit; begin = p.begin; end = p.end };
    } };

    ghost invariant = { λ p.
        ((STRING_LIMIT ≤ string_capacity p.string) × IsTrue (has_no_zero (string_bytes p.string)))
        × ((PREEDIT_LIMIT ≤ string_capacity p.preedit)
        × IsTrue (has_no_zero (string_bytes p.preedit))) };
}

// Puts a text in the place of the one that is kept, within the room that it has.
fn replace_text(kept: &mut String, text: &Text)
    requires { length text.now ≤ string_capacity kept.old }
    ensures bytes { string_bytes kept.new ≡ text.now }
    ensures clean { IsTrue (has_no_zero (string_bytes kept.new)) }
    ensures capacity { string_capacity kept.old ≤ string_capacity kept.new }
{
    kept.clear();
    let pushed = kept.push_str(text.as_str());
    let holds = pushed.is_ok();
    prove!(holds);
}

impl Pending {
    /// Nothing pending. Reserves `STRING_LIMIT` and `PREEDIT_LIMIT` bytes; no later call takes memory.
    pub fn new(alloc: Global) -> Result<Pending, NoMemory>
        ensures { IfOk result (λ pending. pending ≡ last_edits []) }
    {
        let string = String::with_capacity(alloc, STRING_LIMIT)?;
        let preedit = String::with_capacity(alloc, PREEDIT_LIMIT)?;
        Ok(Pending {
            before: 0,
            after: 0,
            string,
            preedit,
            begin: 0,
            end: 0,
        })
    }

    /// `zwp_input_method_v2.commit_string`: the text to insert at the next commit.
    pub fn string(&mut self, text: &Text)
        requires { length text.now ≤ STRING_LIMIT }
        ensures replaced { self.new ≡ record self.old { string = text.now } }
        ensures last { (calls : List Call) → self.old ≡ last_edits calls →
            self.new ≡ last_edits (String text.now ∷ calls) }
    {
        replace_text(&mut self.string, text);
    }

    /// `zwp_input_method_v2.set_preedit_string`: the text being composed from the next commit on,
    /// and the bytes where its cursor begins and ends. The cursors are kept as they are given.
    pub fn preedit(&mut self, text: &Text, begin: i32, end: i32)
        requires { length text.now ≤ PREEDIT_LIMIT }
        ensures replaced { self.new ≡ record self.old {
          preedit = record
              { text = text.now; begin = begin; end = end };
        } }
        ensures last { (calls : List Call) → self.old ≡ last_edits calls →
            self.new ≡ last_edits (Preedit text.now begin end ∷ calls) }
    {
        replace_text(&mut self.preedit, text);
        self.begin = begin;
        self.end = end;
    }

    /// `zwp_input_method_v2.delete_surrounding_text`: how many bytes before and after the cursor the next commit
    /// deletes.
    pub fn delete(&mut self, before: u32, after: u32)
        ensures replaced { self.new ≡ record self.old { deletion = (before, after) } }
        ensures last { (calls : List Call) → self.old ≡ last_edits calls →
            self.new ≡ last_edits (Delete before after ∷ calls) }
    {
        self.before = before;
        self.after = after;
    }

    /// Forgets all pending edits, as a commit of the method and an activation do.
    pub fn reset(&mut self)
        ensures empty { self.new ≡ last_edits [] }
        ensures last { (calls : List Call) → self.new ≡ last_edits (Reset ∷ calls) }
    {
        self.before = 0;
        self.after = 0;
        self.string.clear();
        self.preedit.clear();
        self.begin = 0;
        self.end = 0;
    }

    /// The last edit of each kind since the last `reset`; where there is none, nothing to delete and empty texts with
    /// cursors 0.
    pub fn edits(&self) -> Edits<'_>
        ensures deletion { (result.before, result.after) ≡ self.now.deletion }
        ensures string { result.string.now ≡ self.now.string }
        ensures preedit { record {
          text = result.preedit.now;
          begin = result.begin;
          end = result.end;
        } ≡ self.now.preedit }
        ensures string_clean { IsTrue (has_no_zero result.string.now) }
        ensures preedit_clean { IsTrue (has_no_zero result.preedit.now) }
    {
        Edits {
            before: self.before,
            after: self.after,
            string: self.string.as_str(),
            preedit: self.preedit.as_str(),
            begin: self.begin,
            end: self.end,
        }
    }
}
