//! The lines of a session of form 2, and those of a shell link, which have moments too.
ghost use Rattle.std.specs.Prelude.{map};
ghost use Rattle.session_text.specs.Reading.{Reads};
ghost use Rattle.session_text.specs.Words.{numbers_of};
ghost use Rattle.session_text.specs.StampedReading.{moment_of, link_of, tokens_of, tokens_line_of};
ghost use Rattle.session_text.specs.SessionReading.{session_of};
ghost use Rattle.session_text.specs.StampedReading.{behind_stamp, long_header_of, plain_line};
ghost use Rattle.session_text.specs.StampedReading.{stamped_of};
ghost use Rattle.session_text.specs.StampedReading.{header_words_of, end_of, session_2_of};

use crate::line::{BadLine, Line, SessionLine};
use crate::session_line::read_session;
use crate::shell_line::read_shell;
use crate::words::{count, long_number, number};
use broker_steps::{
    ENTRY_LIMIT, Limits, STORE_LIMIT, ShellStep, Stamp, TOKEN_LIMIT, TokenList, WEIGHT_LIMIT,
};
use std::alloc::Global;

// A moment, behind the word that names it.
fn read_moment(words: &[&[u8]]) -> Result<ShellStep, BadLine>
    ensures { Reads result (moment_of (map (λ w. w.now) words.now)) }
{
    match words {
        [moment] => {
            let moment = long_number(moment)?;
            Ok(ShellStep::At { moment })
        }
        _ => Err(BadLine::Grammar),
    }
}

// The step of a shell link's line.
#[tactic(auto, unfolding(crate::specs::StampedReading::link_of))]
pub fn read_link(words: &[&[u8]]) -> Result<ShellStep, BadLine>
    ensures { Reads result (link_of (map (λ w. w.now) words.now)) }
{
    let [key, rest @ ..] = words else {
        return Err(BadLine::Grammar);
    };
    if *key == b"at".as_slice() {
        read_moment(rest)
    } else {
        read_shell(words)
    }
}

// The numbers that the words are.
fn read_numbers(alloc: Global, words: &[&[u8]]) -> Result<TokenList, BadLine>
    ensures { Reads result (numbers_of (map (λ w. w.now) words.now)) }
{
    let mut tokens = TokenList::new(alloc);
    for word in words {
        match number(word) {
            Ok(token) => tokens.push(token)?,
            Err(bad) => return Err(bad),
        }
    }
    Ok(tokens)
}

// From one to 256 tokens.
#[tactic(auto, unfolding(crate::specs::StampedReading::tokens_of))]
fn read_tokens(alloc: Global, words: &[&[u8]]) -> Result<TokenList, BadLine>
    ensures { Reads result (tokens_of (map (λ w. w.now) words.now)) }
{
    let tokens = read_numbers(alloc, words)?;
    if tokens.len() < 1 || tokens.len() > TOKEN_LIMIT {
        return Err(BadLine::Grammar);
    }
    Ok(tokens)
}

// A peer's tokens, behind the word that names them.
fn read_tokens_line(alloc: Global, words: &[&[u8]]) -> Result<SessionLine, BadLine>
    ensures { Reads result (tokens_line_of (map (λ w. w.now) words.now)) }
{
    let [peer, rest @ ..] = words else {
        return Err(BadLine::Grammar);
    };
    let peer = number(peer)?;
    let tokens = read_tokens(alloc, rest)?;
    Ok(SessionLine::Tokens(peer, tokens))
}

// A line of form 1 that is neither the header nor the end.
fn read_plain(alloc: Global, words: &[&[u8]]) -> Result<SessionLine, BadLine>
    ensures { Reads result (plain_line (session_of (map (λ w. w.now) words.now))) }
{
    match read_session(alloc, words)? {
        Line::Session(line) => Ok(line),
        Line::Header(_) | Line::Act(_) | Line::Stamped(..) | Line::Shell(_) | Line::End => {
            Err(BadLine::Grammar)
        }
    }
}

// What stands behind a stamp.
#[tactic(auto, unfolding(crate::specs::StampedReading::behind_stamp))]
fn read_behind(alloc: Global, words: &[&[u8]]) -> Result<SessionLine, BadLine>
    ensures { Reads result (behind_stamp (map (λ w. w.now) words.now)) }
{
    let [key, rest @ ..] = words else {
        return Err(BadLine::Grammar);
    };
    if *key == b"tokens".as_slice() {
        read_tokens_line(alloc, rest)
    } else if *key == b"at".as_slice() {
        let step = read_moment(rest)?;
        Ok(SessionLine::Shell(step))
    } else {
        read_plain(alloc, words)
    }
}

// A stamp, and what stands behind it.
fn read_stamped(alloc: Global, words: &[&[u8]]) -> Result<Line, BadLine>
    ensures { Reads result (stamped_of (map (λ w. w.now) words.now)) }
{
    let [moment, author, rest @ ..] = words else {
        return Err(BadLine::Grammar);
    };
    let moment = long_number(moment)?;
    let author = long_number(author)?;
    let line = read_behind(alloc, rest)?;
    Ok(Line::Stamped(Stamp { moment, author }, line))
}

// What follows the name of a header: the form, and the limits.
#[tactic(auto, unfolding(crate::specs::StampedReading::long_header_of))]
fn read_long_header(form: &[u8], a: &[u8], b: &[u8], c: &[u8]) -> Result<Line, BadLine>
    ensures { Reads result (long_header_of form.now a.now b.now c.now) }
{
    if form != b"2".as_slice() {
        return Err(BadLine::Grammar);
    }
    let entries = count(ENTRY_LIMIT, a)?;
    let store = count(STORE_LIMIT, b)?;
    let weight = u64::from(count(WEIGHT_LIMIT as u32, c)?);
    Ok(Line::Header(Limits {
        entries,
        store,
        weight,
    }))
}

fn read_header(words: &[&[u8]]) -> Result<Line, BadLine>
    ensures { Reads result (header_words_of (map (λ w. w.now) words.now)) }
{
    match words {
        [form, a, b, c] => read_long_header(form, a, b, c),
        _ => Err(BadLine::Grammar),
    }
}

fn read_end(words: &[&[u8]]) -> Result<Line, BadLine>
    ensures { Reads result (end_of (map (λ w. w.now) words.now)) }
{
    if words.is_empty() {
        Ok(Line::End)
    } else {
        Err(BadLine::Grammar)
    }
}

/// The line of the words in a session of form 2.
#[tactic(auto, unfolding(crate::specs::StampedReading::session_2_of))]
pub fn read_session_2(alloc: Global, words: &[&[u8]]) -> Result<Line, BadLine>
    ensures { Reads result (session_2_of (map (λ w. w.now) words.now)) }
{
    let [key, rest @ ..] = words else {
        return Err(BadLine::Grammar);
    };
    if *key == b"end".as_slice() {
        read_end(rest)
    } else if *key == b"session".as_slice() {
        read_header(rest)
    } else {
        read_stamped(alloc, words)
    }
}
