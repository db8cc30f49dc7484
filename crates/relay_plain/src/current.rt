//! The current state of the field that holds the seat.
ghost use Rattle.std.specs.Prelude.{◌≡◌, option_map};
ghost use Rattle.relay_model.specs.Current.{last_enable, last_commit, between, last_surrounding};
ghost use Rattle.relay_model.specs.Current.{last_cause, last_content, last_rect, current};
ghost use Rattle.relay_plain.specs.Current.{around_of, content_of, state_of};

use crate::hold::hold_begun;
use crate::objects::next;
use relay_model::{Act, Label, Rect, Text};

/// A surrounding text with its cursor and anchor.
#[derive(Clone, Copy)]
pub struct Around<'a> {
    /// The text around the cursor.
    pub text: &'a Text,
    /// Where the cursor stands in it, in bytes.
    pub cursor: i32,
    /// Where the selection's other end stands, in bytes.
    pub anchor: i32,
}

/// Hints and purpose of a content type.
#[derive(Clone, Copy)]
pub struct ContentType {
    /// The bits of `content_hint`.
    pub hint: u32,
    /// The number of `content_purpose`.
    pub purpose: u32,
}

/// The state of a field that a method is told.
#[derive(Clone, Copy)]
pub struct State<'a> {
    /// The surrounding text, if one was set.
    pub surrounding: Option<Around<'a>>,
    /// The number of `change_cause`.
    pub cause: u32,
    /// The content type.
    pub content: ContentType,
    /// The cursor's rectangle, if one was set.
    pub rect: Option<Rect>,
}

// The last enable of a field below an act.
fn last_enable(until: usize, log: &[Act], field: Label) -> usize
    ensures { result ≡ last_enable until log.now field }
{
    match log {
        [] => 0,
        [act, older @ ..] => match act {
            Act::Enable { field: named } if next(older) < until && *named == field => next(older),
            _ => last_enable(until, older, field),
        },
    }
}

// The last commit of a field below an act.
fn last_commit(until: usize, log: &[Act], field: Label) -> usize
    ensures { result ≡ last_commit until log.now field }
{
    match log {
        [] => 0,
        [act, older @ ..] => match act {
            Act::Commit { field: named } if next(older) < until && *named == field => next(older),
            _ => last_commit(until, older, field),
        },
    }
}

// The act that comes next is one of the field, past one act and below another.
fn between(from: usize, until: usize, older: &[Act], named: Label, field: Label) -> bool
    ensures { result ≡ between from until older.now named field }
{
    from < next(older) && next(older) < until && named == field
}

// The last surrounding text that a field set between two acts.
fn last_surrounding<'a>(
    from: usize,
    until: usize,
    log: &'a [Act],
    field: Label,
) -> Option<Around<'a>>
    ensures { option_map around_of result ≡ last_surrounding from until log.now field }
{
    match log {
        [] => None,
        [act, older @ ..] => match act {
            Act::Surround {
                field: named,
                text,
                cursor,
                anchor,
            } if between(from, until, older, *named, field) => Some(Around {
                text,
                cursor: *cursor,
                anchor: *anchor,
            }),
            _ => last_surrounding(from, until, older, field),
        },
    }
}

// The last cause that a field set between two acts, or 0 (input_method).
fn last_cause(from: usize, until: usize, log: &[Act], field: Label) -> u32
    ensures { result ≡ last_cause from until log.now field }
{
    match log {
        [] => 0,
        [act, older @ ..] => match act {
            Act::Cause {
                field: named,
                cause,
            } if between(from, until, older, *named, field) => *cause,
            _ => last_cause(from, until, older, field),
        },
    }
}

// The last content type that a field set between two acts, or 0 0 (none, normal).
fn last_content(from: usize, until: usize, log: &[Act], field: Label) -> ContentType
    ensures { content_of result ≡ last_content from until log.now field }
{
    match log {
        [] => ContentType {
            hint: 0,
            purpose: 0,
        },
        [act, older @ ..] => match act {
            Act::Content {
                field: named,
                hint,
                purpose,
            } if between(from, until, older, *named, field) => ContentType {
                hint: *hint,
                purpose: *purpose,
            },
            _ => last_content(from, until, older, field),
        },
    }
}

// The last rectangle that a field set between two acts.
fn last_rect(from: usize, until: usize, log: &[Act], field: Label) -> Option<Rect>
    ensures { result ≡ last_rect from until log.now field }
{
    match log {
        [] => None,
        [act, older @ ..] => match act {
            Act::Cursor { field: named, rect } if between(from, until, older, *named, field) => {
                Some(*rect)
            }
            _ => last_rect(from, until, older, field),
        },
    }
}

/// The current state of the holder: what it last set between the last enable before its hold, which resets everything,
/// and its last commit, which applies it. The cause is that of the last commit alone.
pub fn current<'a>(log: &'a [Act], holder: Label) -> State<'a>
    ensures { state_of result ≡ current log.now holder }
{
    let reset = last_enable(hold_begun(log), log, holder);
    let applied = last_commit(next(log), log, holder);
    let heard = reset.max(last_commit(applied, log, holder));
    State {
        surrounding: last_surrounding(reset, applied, log, holder),
        cause: last_cause(heard, applied, log, holder),
        content: last_content(reset, applied, log, holder),
        rect: last_rect(reset, applied, log, holder),
    }
}
