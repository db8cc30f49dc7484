//! The lines that come most, each read behind its name, without a cut into words.
ghost use Rattle.std.specs.Prelude.{◌==◌, ◌≡◌, ◌∷◌, codes, Some, IfSome};
ghost use Rattle.std.specs.List.{slice_split};
ghost use Rattle.session_text.specs.declared.line.Form.TheVariants.{Acts, Session};
ghost use Rattle.session_text.specs.declared.line.Line.TheVariants as lines;
ghost use Rattle.session_text.specs.Reading.{line_of_words};

use crate::cutting::first_word;
use crate::line::SessionLine;
use crate::numerals::{parsed_number, parsed_signed};
use crate::words::{count, cursor_text, state, text};
use broker_steps::ShellStep;
use relay_model::Act;
use std::alloc::Global;
use wl_wire::MESSAGE_LIMIT;

// What stands behind `mcommit `.
fn read_done(rest: &[u8]) -> Option<Act>
    ensures { IfSome result (λ act. line_of_words Acts
        (codes "mcommit" ∷ slice_split (λ b. b == 32) rest.now) ≡ Some (lines.Act act)) }
{
    let (digits, last) = first_word(rest)?;
    let method = parsed_number(digits)?;
    let serial = parsed_number(last)?;
    Some(Act::MCommit { method, serial })
}

// What stands behind `mstring `.
#[inline(never)]
fn read_string(alloc: Global, rest: &[u8]) -> Option<Act>
    ensures { IfSome result (λ act. line_of_words Acts
        (codes "mstring" ∷ slice_split (λ b. b == 32) rest.now) ≡ Some (lines.Act act)) }
{
    let (digits, last) = first_word(rest)?;
    let method = parsed_number(digits)?;
    match text(alloc, last) {
        Ok(text) => Some(Act::MString { method, text }),
        Err(_) => None,
    }
}

// What stands behind `surround `.
#[inline(never)]
fn read_around(alloc: Global, rest: &[u8]) -> Option<Act>
    ensures { IfSome result (λ act. line_of_words Acts
        (codes "surround" ∷ slice_split (λ b. b == 32) rest.now) ≡ Some (lines.Act act)) }
{
    let (digits, behind) = first_word(rest)?;
    let (word, offsets) = first_word(behind)?;
    let (first, second) = first_word(offsets)?;
    let field = parsed_number(digits)?;
    let cursor = parsed_signed(first)?;
    let anchor = parsed_signed(second)?;
    match cursor_text(alloc, word) {
        Ok(text) => Some(Act::Surround {
            field,
            text,
            cursor,
            anchor,
        }),
        Err(_) => None,
    }
}

// What stands behind `mpreedit `.
#[inline(never)]
fn read_preedit(alloc: Global, rest: &[u8]) -> Option<Act>
    ensures { IfSome result (λ act. line_of_words Acts
        (codes "mpreedit" ∷ slice_split (λ b. b == 32) rest.now) ≡ Some (lines.Act act)) }
{
    let (digits, behind) = first_word(rest)?;
    let (word, offsets) = first_word(behind)?;
    let (first, second) = first_word(offsets)?;
    let method = parsed_number(digits)?;
    let begin = parsed_signed(first)?;
    let end = parsed_signed(second)?;
    match cursor_text(alloc, word) {
        Ok(text) => Some(Act::MPreedit {
            method,
            text,
            begin,
            end,
        }),
        Err(_) => None,
    }
}

// What stands behind `key `.
fn read_key(rest: &[u8]) -> Option<Act>
    ensures { IfSome result (λ act. line_of_words Acts
        (codes "key" ∷ slice_split (λ b. b == 32) rest.now) ≡ Some (lines.Act act)) }
{
    let (first, behind) = first_word(rest)?;
    let (second, last) = first_word(behind)?;
    let time = parsed_number(first)?;
    let key = parsed_number(second)?;
    match state(last) {
        Ok(state) => Some(Act::Key { time, key, state }),
        Err(_) => None,
    }
}

// What stands behind `commit `.
#[inline(always)]
fn read_commit(rest: &[u8]) -> Option<Act>
    ensures { IfSome result (λ act. line_of_words Acts
        (codes "commit" ∷ slice_split (λ b. b == 32) rest.now) ≡ Some (lines.Act act)) }
{
    let field = parsed_number(rest)?;
    Some(Act::Commit { field })
}

// What stands behind `enable `.
#[inline(always)]
fn read_enable(rest: &[u8]) -> Option<Act>
    ensures { IfSome result (λ act. line_of_words Acts
        (codes "enable" ∷ slice_split (λ b. b == 32) rest.now) ≡ Some (lines.Act act)) }
{
    let field = parsed_number(rest)?;
    Some(Act::Enable { field })
}

/// The act of a line, if it is one that comes often. Where there is none, the line's words say what it is.
#[inline(never)]
#[tactic(auto, using(crate::proofs::UsualLines::behind_name))]
pub(crate) fn usual_act(alloc: Global, line: &[u8]) -> Option<Act>
    ensures { IfSome result (λ act. line_of_words Acts (slice_split (λ b. b == 32) line.now)
        ≡ Some (lines.Act act)) }
{
    match line {
        [b'c', b'o', b'm', b'm', b'i', b't', b' ', rest @ ..] => read_commit(rest),
        [b'e', b'n', b'a', b'b', b'l', b'e', b' ', rest @ ..] => read_enable(rest),
        [b'm', b'c', b'o', b'm', b'm', b'i', b't', b' ', rest @ ..] => read_done(rest),
        [b'm', b's', b't', b'r', b'i', b'n', b'g', b' ', rest @ ..] => read_string(alloc, rest),
        [
            b'm',
            b'p',
            b'r',
            b'e',
            b'e',
            b'd',
            b'i',
            b't',
            b' ',
            rest @ ..,
        ] => { read_preedit(alloc, rest) }
        [
            b's',
            b'u',
            b'r',
            b'r',
            b'o',
            b'u',
            b'n',
            b'd',
            b' ',
            rest @ ..,
        ] => { read_around(alloc, rest) }
        [b'k', b'e', b'y', b' ', rest @ ..] => read_key(rest),
        _ => None,
    }
}

// What stands behind `take `.
fn read_take(rest: &[u8]) -> Option<SessionLine>
    ensures { IfSome result (λ said. line_of_words Session
        (codes "take" ∷ slice_split (λ b. b == 32) rest.now) ≡ Some (lines.Session said)) }
{
    let (digits, last) = first_word(rest)?;
    let peer = parsed_number(digits)?;
    match count(MESSAGE_LIMIT as u32, last) {
        Ok(most) => Some(SessionLine::Take(peer, most)),
        Err(_) => None,
    }
}

// What stands behind `focus `.
fn read_focus(rest: &[u8]) -> Option<SessionLine>
    ensures { IfSome result (λ said. line_of_words Session
        (codes "focus" ∷ slice_split (λ b. b == 32) rest.now) ≡ Some (lines.Session said)) }
{
    let (digits, last) = first_word(rest)?;
    let peer = parsed_number(digits)?;
    let id = parsed_number(last)?;
    Some(SessionLine::Shell(ShellStep::Focus { peer, id }))
}

/// What a line of a session of form 1 says, if it is one that comes often beside a peer's bytes.
#[inline(never)]
pub(crate) fn usual_line(line: &[u8]) -> Option<SessionLine>
    ensures { IfSome result (λ said. line_of_words Session (slice_split (λ b. b == 32) line.now)
        ≡ Some (lines.Session said)) }
{
    match line {
        [b't', b'a', b'k', b'e', b' ', rest @ ..] => read_take(rest),
        [b'f', b'o', b'c', b'u', b's', b' ', rest @ ..] => read_focus(rest),
        _ => None,
    }
}
