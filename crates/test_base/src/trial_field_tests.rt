//! The worked rows, and each public call once.
ghost use Rattle.std.specs.Prelude.{◌≡◌, pos};
ghost use Rattle.trial_field.specs.Log.{IsEdit, IsBatch};

use crate::equal::{equal, equal_at};
use std::process::Abort;
use std::test::Fail;
use trial_field::{BatchView, Edit, MAX_TEXT, TrialField, character_laws, leave_law};

// Makes the edit, and compares its answer, the text and the cursor.
fn row(
    rt: &impl Abort,
    field: &mut TrialField,
    edit: Edit<'_>,
    changes: bool,
    text: &str,
    cursor: usize,
)
    requires { IsEdit edit }
{
    equal_at(rt, &edit, field.edit(&edit), changes);
    equal_at(rt, &edit, field.text(), text);
    equal_at(rt, &edit, field.cursor(), cursor);
}

#[test]
fn edits_go_by_whole_characters(rt: HostRuntime) -> Result<(), Fail> {
    character_laws();
    leave_law();
    let mut field = TrialField::new(rt.alloc())?;
    let at = &mut field;
    row(&rt, at, Edit::Insert("aé"), true, "aé", 3);
    row(&rt, at, Edit::Right, false, "aé", 3);
    row(&rt, at, Edit::Left, true, "aé", 1);
    row(&rt, at, Edit::Insert("€"), true, "a€é", 4);
    row(&rt, at, Edit::Rub, true, "aé", 1);
    row(&rt, at, Edit::Right, true, "aé", 3);
    Ok(())
}

// Takes the batch, and compares the text, the cursor and the preedit.
fn batch_row(
    rt: &impl Abort,
    field: &mut TrialField,
    batch: BatchView<'_>,
    text: &str,
    cursor: usize,
    preedit: &str,
)
    requires { IsBatch batch }
{
    field.done(&batch);
    equal_at(rt, &batch, field.text(), text);
    equal_at(rt, &batch, field.cursor(), cursor);
    equal_at(rt, &batch, field.preedit(), preedit);
}

fn batch<'a>(before: u32, after: u32, string: &'a str, preedit: &'a str) -> BatchView<'a>
    ensures { result ≡ record {
      before = before;
      after = after;
      string = string.entry;
      preedit =
          preedit.entry;
      begin = pos 0;
      end = pos 0;
    } }
{
    BatchView {
        before,
        after,
        string,
        preedit,
        begin: 0,
        end: 0,
    }
}

#[test]
fn a_batch_deletes_then_inserts_then_shows(rt: HostRuntime) -> Result<(), Fail> {
    let mut field = TrialField::new(rt.alloc())?;
    let at = &mut field;
    row(&rt, at, Edit::Insert("é"), true, "é", 2);
    // The range would cut a character.
    batch_row(&rt, at, batch(1, 0, "x", ""), "éx", 3, "");
    batch_row(&rt, at, batch(3, 0, "abcd", "p"), "abcd", 4, "p");
    row(&rt, at, Edit::Left, true, "abcd", 3);
    row(&rt, at, Edit::Left, true, "abcd", 2);
    equal(&rt, at.preedit(), "p");
    batch_row(&rt, at, batch(1, 1, "y", "q"), "ayd", 2, "q");
    // The range would leave the text at either side.
    batch_row(&rt, at, batch(3, 0, "", "r"), "ayd", 2, "r");
    batch_row(&rt, at, batch(0, 2, "z", ""), "ayzd", 3, "");
    Ok(())
}

#[test]
fn a_full_text_takes_no_more(rt: HostRuntime) -> Result<(), Fail> {
    let mut field = TrialField::new(rt.alloc())?;
    for _ in 0..4_096 {
        equal(&rt, field.edit(&Edit::Insert("0123456789abcdef")), true);
    }
    equal(&rt, field.text().len(), MAX_TEXT);
    equal(&rt, field.edit(&Edit::Insert("a")), false);
    equal(&rt, field.edit(&Edit::Rub), true);
    equal(&rt, field.edit(&Edit::Insert("é")), false);
    equal(&rt, field.cursor(), 65_535);
    equal(&rt, field.edit(&Edit::Insert("a")), true);
    equal(&rt, field.text().len(), 65_536);
    Ok(())
}

#[test]
fn a_window_begins_and_ends_between_characters(rt: HostRuntime) -> Result<(), Fail> {
    let mut field = TrialField::new(rt.alloc())?;
    equal(&rt, field.surround_window(), (0, 0));
    for _ in 0..10_000 {
        equal(&rt, field.edit(&Edit::Insert("€")), true);
    }
    equal(&rt, field.surround_window(), (28_002, 30_000));
    for _ in 0..5_000 {
        equal(&rt, field.edit(&Edit::Left), true);
    }
    equal(&rt, field.cursor(), 15_000);
    equal(&rt, field.surround_window(), (13_002, 17_001));
    Ok(())
}
