//! Batches, counts, and what is relayed.
ghost use Rattle.std.specs.Prelude.{◌≡◌, ◌≤◌, ◌<◌, ◌^◌, length, map, IfOk};
ghost use Rattle.relay_model.specs.Batch.{deletion_by, last_deletion, string_by, last_string};
ghost use Rattle.relay_model.specs.Batch.{preedit_by, last_preedit, batch, commits, commit_count};
ghost use Rattle.relay_model.specs.Batch.{deletion_said, string_said, preedit_said, is_no_preedit};
ghost use Rattle.relay_model.specs.Batch.{group, group_of};
ghost use Rattle.relay_model.specs.Told.{to};
ghost use Rattle.relay_plain.specs.Batch.{text_of, deletion_of, preedit_of, batch_of};
ghost use Rattle.relay_plain.specs.Telling.{Tells};

use crate::activation::begun;
use crate::objects::next;
use crate::telling::tell;
use relay_model::{Act, Label, Said, Text, Told};
use std::alloc::Global;
use wio_core::NoMemory;

// What a method deletes round the cursor.
#[derive(Clone, Copy)]
pub struct Deletion {
    pub before: u32,
    pub after: u32,
}

// A preedit with its cursors. No text stands for the empty one.
#[derive(Clone, Copy)]
pub struct Preedit<'a> {
    pub text: Option<&'a Text>,
    pub begin: i32,
    pub end: i32,
}

// The edits of one commit. No text stands for the empty one.
#[derive(Clone, Copy)]
pub struct Edits<'a> {
    pub deletion: Deletion,
    pub string: Option<&'a Text>,
    pub preedit: Preedit<'a>,
}

const NO_DELETION: Deletion = Deletion {
    before: 0,
    after: 0,
};

const NO_PREEDIT: Preedit<'static> = Preedit {
    text: None,
    begin: 0,
    end: 0,
};

// What an act makes of the last deletion of a method, where the acts before it say this.
fn deletion_by(act: &Act, method: Label, rest: Deletion) -> Deletion
    ensures { deletion_of result ≡ deletion_by act.now method (deletion_of rest) }
{
    match act {
        Act::MDelete {
            method: named,
            before,
            after,
        } if *named == method => Deletion {
            before: *before,
            after: *after,
        },
        Act::MCommit { method: named, .. } if *named == method => NO_DELETION,
        _ => rest,
    }
}

// The last deletion of a method past an act and past the method's last commit
// (`zwp_input_method_v2.delete_surrounding_text`).
fn last_deletion(from: usize, log: &[Act], method: Label) -> Deletion
    ensures { deletion_of result ≡ last_deletion from log.now method }
{
    match log {
        [] => NO_DELETION,
        [act, older @ ..] => {
            if next(older) <= from {
                NO_DELETION
            } else {
                deletion_by(act, method, last_deletion(from, older, method))
            }
        }
    }
}

fn string_by<'a>(act: &'a Act, method: Label, rest: Option<&'a Text>) -> Option<&'a Text>
    ensures { text_of result ≡ string_by act.now method (text_of rest.entry) }
{
    match act {
        Act::MString {
            method: named,
            text,
        } if *named == method => Some(text),
        Act::MCommit { method: named, .. } if *named == method => None,
        _ => rest,
    }
}

// The last string of a method past an act and past the method's last commit (`zwp_input_method_v2.commit_string`).
fn last_string<'a>(from: usize, log: &'a [Act], method: Label) -> Option<&'a Text>
    ensures { text_of result ≡ last_string from log.now method }
{
    match log {
        [] => None,
        [act, older @ ..] => {
            if next(older) <= from {
                None
            } else {
                string_by(act, method, last_string(from, older, method))
            }
        }
    }
}

fn preedit_by<'a>(act: &'a Act, method: Label, rest: Preedit<'a>) -> Preedit<'a>
    ensures { preedit_of result ≡ preedit_by act.now method (preedit_of rest.entry) }
{
    match act {
        Act::MPreedit {
            method: named,
            text,
            begin,
            end,
        } if *named == method => Preedit {
            text: Some(text),
            begin: *begin,
            end: *end,
        },
        Act::MCommit { method: named, .. } if *named == method => NO_PREEDIT,
        _ => rest,
    }
}

// The last preedit of a method past an act and past the method's last commit
// (`zwp_input_method_v2.set_preedit_string`).
fn last_preedit<'a>(from: usize, log: &'a [Act], method: Label) -> Preedit<'a>
    ensures { preedit_of result ≡ last_preedit from log.now method }
{
    match log {
        [] => NO_PREEDIT,
        [act, older @ ..] => {
            if next(older) <= from {
                NO_PREEDIT
            } else {
                preedit_by(act, method, last_preedit(from, older, method))
            }
        }
    }
}

// What a commit of a method makes one batch: its last edits since its previous commit and since its activation began.
fn batch<'a>(log: &'a [Act], method: Label) -> Edits<'a>
    requires { length log.now < 2 ^ 32 }
    ensures { batch_of result ≡ batch log.now method }
{
    let from = begun(log).unwrap_or(0);
    Edits {
        deletion: last_deletion(from, log, method),
        string: last_string(from, log, method),
        preedit: last_preedit(from, log, method),
    }
}

// How often a field committed.
fn commits(log: &[Act], field: Label) -> usize
    ensures number { result ≡ commits log.now field }
    ensures within { result ≤ length log.now }
{
    match log {
        [] => 0,
        [act, older @ ..] => match act {
            Act::Commit { field: named } if *named == field => commits(older, field) + 1,
            _ => commits(older, field),
        },
    }
}

// The count of a field's commits, entered or not, as a number of 32 bits (`zwp_text_input_v3.done`).
fn commit_count(log: &[Act], field: Label) -> u32
    ensures { result ≡ commit_count log.now field }
{
    (commits(log, field) % 4_294_967_296) as u32
}

fn copy_of(alloc: Global, text: Option<&Text>) -> Result<Text, NoMemory>
    ensures { IfOk result (λ copy. copy ≡ text_of text.entry) }
{
    match text {
        Some(text) => text.copy(alloc),
        None => Ok(Text::empty(alloc)),
    }
}

fn tell_deletion(field: Label, deletion: Deletion, told: &mut Vec<Told>) -> Result<(), NoMemory>
    ensures { Tells result told.old told.new (map (to field) (deletion_said (deletion_of
        deletion))) }
{
    if deletion.before == 0 && deletion.after == 0 {
        return Ok(());
    }
    let event = Said::Delete {
        before: deletion.before,
        after: deletion.after,
    };
    tell(field, event, told)
}

fn tell_string(
    alloc: Global,
    field: Label,
    string: Option<&Text>,
    told: &mut Vec<Told>,
) -> Result<(), NoMemory>
    ensures { Tells result told.old told.new (map (to field) (string_said (text_of string.entry))) }
{
    let text = copy_of(alloc, string)?;
    if text.is_empty() {
        return Ok(());
    }
    tell(field, Said::CommitString { text }, told)
}

fn tell_preedit(
    alloc: Global,
    field: Label,
    preedit: Preedit,
    told: &mut Vec<Told>,
) -> Result<(), NoMemory>
    ensures { Tells result told.old told.new
        (map (to field) (preedit_said (preedit_of preedit.entry))) }
{
    let text = copy_of(alloc, preedit.text)?;
    if text.is_empty() && preedit.begin == 0 && preedit.end == 0 {
        return Ok(());
    }
    let event = Said::Preedit {
        text,
        begin: preedit.begin,
        end: preedit.end,
    };
    tell(field, event, told)
}

// Tells the events of a batch: deletion, string and preedit, each unless it is empty, and then the done with the count.
fn tell_batch(
    alloc: Global,
    field: Label,
    batch: Edits,
    count: u32,
    told: &mut Vec<Told>,
) -> Result<(), NoMemory>
    ensures { Tells result told.old told.new (map (to field) (group (batch_of batch.entry) count)) }
{
    tell_deletion(field, batch.deletion, told)?;
    tell_string(alloc, field, batch.string, told)?;
    tell_preedit(alloc, field, batch.preedit, told)?;
    tell(field, Said::FieldDone { serial: count }, told)
}

// Tells a field what a method's commit relays to it.
pub fn tell_group(
    alloc: Global,
    act: &Act,
    older: &[Act],
    field: Label,
    told: &mut Vec<Told>,
) -> Result<(), NoMemory>
    requires { length older.now < 2 ^ 32 }
    ensures { Tells result told.old told.new (map (to field) (group_of act.now older.now field)) }
{
    match act {
        Act::MCommit { method, .. } => {
            let count = commit_count(older, field);
            tell_batch(alloc, field, batch(older, *method), count, told)
        }
        _ => Ok(()),
    }
}
