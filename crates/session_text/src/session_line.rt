//! The lines of a session of form 1, by the number of a line's words.
ghost use Rattle.std.specs.Prelude.{map};
ghost use Rattle.session_text.specs.Reading.{Reads};
ghost use Rattle.session_text.specs.SessionReading.{header_of, one_session_word, two_session_words};
ghost use Rattle.session_text.specs.SessionReading.{three_session_words, four_session_words};
ghost use Rattle.session_text.specs.SessionReading.{session_of};

use crate::hex_words::bytes_within;
use crate::line::{BadLine, Line, SessionLine};
use crate::shell_line;
use crate::words::{count, is, number, role};
use broker_steps::{FORM_1_ENTRY_LIMIT, FORM_1_WEIGHT, Limits, STORE_LIMIT};
use std::alloc::Global;
use wl_wire::MESSAGE_LIMIT;

#[tactic(auto, unfolding(crate::specs::SessionReading::one_session_word))]
fn read_one(key: &[u8]) -> Result<Line, BadLine>
    ensures { Reads result (one_session_word key.now) }
{
    if is(key, b"end".as_slice()) {
        Ok(Line::End)
    } else {
        let step = shell_line::read_one(key)?;
        Ok(Line::Session(SessionLine::Shell(step)))
    }
}

#[tactic(auto, unfolding(crate::specs::SessionReading::two_session_words))]
fn read_two(key: &[u8], a: &[u8]) -> Result<Line, BadLine>
    ensures { Reads result (two_session_words key.now a.now) }
{
    if is(key, b"join".as_slice()) {
        let role = role(a)?;
        Ok(Line::Session(SessionLine::Join(role)))
    } else if is(key, b"gone".as_slice()) {
        let peer = number(a)?;
        Ok(Line::Session(SessionLine::Gone(peer)))
    } else {
        Err(BadLine::Grammar)
    }
}

#[tactic(auto, unfolding(crate::specs::SessionReading::three_session_words))]
fn read_three(alloc: Global, key: &[u8], a: &[u8], b: &[u8]) -> Result<Line, BadLine>
    ensures { Reads result (three_session_words key.now a.now b.now) }
{
    if is(key, b"bytes".as_slice()) {
        let peer = number(a)?;
        let bytes = bytes_within(alloc, MESSAGE_LIMIT, b)?;
        Ok(Line::Session(SessionLine::Bytes(peer, bytes)))
    } else if is(key, b"take".as_slice()) {
        let peer = number(a)?;
        let taken = count(MESSAGE_LIMIT as u32, b)?;
        Ok(Line::Session(SessionLine::Take(peer, taken)))
    } else {
        let step = shell_line::read_three(key, a, b)?;
        Ok(Line::Session(SessionLine::Shell(step)))
    }
}

// What follows the name of a header: the form, and the limits.
#[tactic(auto, unfolding(crate::specs::SessionReading::header_of))]
fn read_header(form: &[u8], a: &[u8], b: &[u8]) -> Result<Line, BadLine>
    ensures { Reads result (header_of form.now a.now b.now) }
{
    if form != b"1".as_slice() {
        return Err(BadLine::Grammar);
    }
    let entries = count(FORM_1_ENTRY_LIMIT, a)?;
    let store = count(STORE_LIMIT, b)?;
    Ok(Line::Header(Limits {
        entries,
        store,
        weight: FORM_1_WEIGHT,
    }))
}

#[tactic(auto, unfolding(crate::specs::SessionReading::four_session_words))]
fn read_four(key: &[u8], a: &[u8], b: &[u8], c: &[u8]) -> Result<Line, BadLine>
    ensures { Reads result (four_session_words key.now a.now b.now c.now) }
{
    if is(key, b"session".as_slice()) {
        read_header(a, b, c)
    } else {
        let step = shell_line::read_four(key, a, b, c)?;
        Ok(Line::Session(SessionLine::Shell(step)))
    }
}

// The line of a session's words, the first of which names it.
pub fn read_session(alloc: Global, words: &[&[u8]]) -> Result<Line, BadLine>
    ensures { Reads result (session_of (map (λ w. w.now) words.now)) }
{
    match words {
        [key] => read_one(key),
        [key, a] => read_two(key, a),
        [key, a, b] => read_three(alloc, key, a, b),
        [key, a, b, c] => read_four(key, a, b, c),
        _ => {
            let step = shell_line::read_shell(words)?;
            Ok(Line::Session(SessionLine::Shell(step)))
        }
    }
}
