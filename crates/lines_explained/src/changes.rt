//! What an act changed of the seat.
ghost use Rattle.std.specs.Prelude.{◌≡◌, ◌++◌, OnOk, string_bytes};
ghost use Rattle.lines_explained.specs.Changes.{has_moved, course_of, moved_words, course_words};
ghost use Rattle.lines_explained.specs.Changes.{changes_words};

use crate::phrase::add_phrase;
use relay_model::Label;
use relay_reasons::Seat;
use wio_core::NoMemory;

/// What became of the activation of the serving method.
#[derive(Clone, Copy, Debug, PartialEq, Eq)]
pub enum Course {
    /// One begins, in the place of one that stood, if one did.
    Begins,
    /// The one that stands goes on, and the method was told a done of it.
    GoesOn,
    /// The one that stood ends.
    Ends,
}

fn has_moved(before: Option<Label>, after: Option<Label>) -> bool
    ensures { result ≡ has_moved before after }
{
    match (before, after) {
        (None, None) => false,
        (Some(before), Some(after)) => before != after,
        (None, Some(_)) | (Some(_), None) => true,
    }
}

/// What became of the activation, from one seat to the next: none where nothing was said of one.
pub fn course_of(before: Seat, after: Seat) -> Option<Course>
    ensures { result ≡ course_of before after }
{
    if after.since == 0 {
        if before.since == 0 {
            return None;
        }
        return Some(Course::Ends);
    }
    if before.since != 0 && before.dones == after.dones {
        return None;
    }
    if after.since == 1 {
        return Some(Course::Begins);
    }
    Some(Course::GoesOn)
}

// Who has the seat now, where that changed.
fn add_moved(
    line: &mut String,
    before: Option<Label>,
    after: Option<Label>,
    kind: &str,
    verb: &str,
    nobody: &str,
) -> Result<(), NoMemory>
    ensures { OnOk result (string_bytes line.new ≡ string_bytes line.old ++
        moved_words before after kind.now verb.now nobody.now) }
{
    if !has_moved(before, after) {
        return Ok(());
    }
    match after {
        Some(after) => add_phrase(line, kind, Some(after), verb, None),
        None => add_phrase(line, nobody, None, "", None),
    }
}

fn add_course(line: &mut String, before: Seat, after: Seat) -> Result<(), NoMemory>
    ensures { OnOk result (string_bytes line.new ≡ string_bytes line.old ++
        course_words (course_of before after) before after) }
{
    match course_of(before, after) {
        Some(Course::Begins) => add_phrase(
            line,
            ", an activation of method",
            after.serving,
            " begins",
            None,
        ),
        Some(Course::GoesOn) => add_phrase(
            line,
            ", the activation of method",
            after.serving,
            " goes on",
            None,
        ),
        Some(Course::Ends) => add_phrase(
            line,
            ", the activation of method",
            before.serving,
            " ends",
            None,
        ),
        None => Ok(()),
    }
}

/// Adds to a line what an act changed: which field holds the seat now, which method serves, and what
/// became of the activation.
pub fn add_changes(line: &mut String, before: Seat, after: Seat) -> Result<(), NoMemory>
    ensures { OnOk result (string_bytes line.new ≡ string_bytes line.old ++
        changes_words before after) }
{
    add_moved(
        line,
        before.holder,
        after.holder,
        ", field",
        " holds the seat",
        ", no field holds the seat",
    )?;
    add_moved(
        line,
        before.serving,
        after.serving,
        ", method",
        " serves",
        ", no method serves",
    )?;
    add_course(line, before, after)
}
