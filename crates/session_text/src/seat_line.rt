//! The lines of an input of several seats: its header, lines of a session for one seat or for all,
//! and its end.
ghost use Rattle.std.specs.Prelude.{◌≡◌, ◌≤◌, map, MatchOption, IfOk, None, Some};
ghost use Rattle.std.specs.List.{slice_split};
ghost use Rattle.session_text.specs.Reading.{Reads};
ghost use Rattle.session_text.specs.SeatLines.{IsSeatsHeader, IsSeatsLine, header_of_words};
ghost use Rattle.session_text.specs.SeatLines.{address_of, behind_all, behind_seat, said_to};
ghost use Rattle.session_text.specs.SeatLines.{line_for, seats_header_of, seats_line_of};

use crate::cutting::{MOST_WORDS, cut_words};
use crate::line::{BadLine, Form, LINE_LIMIT, Line, SessionLine, read_line};
use crate::words::{count, is};
use broker_steps::{FORM_1_ENTRY_LIMIT, FORM_1_WEIGHT, Limits, STORE_LIMIT};
use std::alloc::Global;

/// The most seats of an input. Each number of a seat is one digit, from 1.
pub const SEAT_LIMIT: u32 = 8;

/// What the header of an input of several seats sets.
#[derive(Clone, Copy, Debug, PartialEq, Eq)]
pub struct SeatsHeader {
    /// How many seats there are: 1 to 8.
    pub count: u32,
    /// What each seat's journal and stores may hold, as in a session of form 1.
    pub limits: Limits,
}

/// Whom a line is for.
#[derive(Clone, Copy, Debug, PartialEq, Eq)]
pub enum Address {
    /// The seat of that number, from 1.
    One(u32),
    /// The seats from 1 on, in turn.
    All,
}

/// A line of a session of form 1, for one seat or for all.
#[derive(Debug, Drop)]
pub enum SeatLine {
    /// For the seat of that number, from 1.
    One(u32, SessionLine),
    /// For all seats, from 1 on: a line of the shell.
    All(SessionLine),
}

/// What a line of several seats says after the header.
#[derive(Debug, Drop)]
pub enum SeatsLine {
    /// A line for one seat or for all.
    Seat(SeatLine),
    /// The input ends here.
    End,
}

#[tactic(auto, unfolding(crate::specs::SeatLines::header_of_words))]
fn read_header(words: &[&[u8]]) -> Result<SeatsHeader, BadLine>
    ensures exact { Reads result (header_of_words (map (λ w. w.now) words.now)) }
    ensures valid { IfOk result IsSeatsHeader }
{
    match words {
        [key, seats, a, b] => {
            if !is(key, b"seats".as_slice()) {
                return Err(BadLine::Grammar);
            }
            let seats = count(SEAT_LIMIT, seats)?;
            let entries = count(FORM_1_ENTRY_LIMIT, a)?;
            let store = count(STORE_LIMIT, b)?;
            Ok(SeatsHeader {
                count: seats,
                limits: Limits {
                    entries,
                    store,
                    weight: FORM_1_WEIGHT,
                },
            })
        }
        _ => Err(BadLine::Grammar),
    }
}

/// Reads the header of an input of several seats, `seats N ENTRIES STORE`, without its line feed: N
/// is 1 to 8, and the limits are those of a session of form 1. `Grammar` comes exactly where it is
/// none.
#[tactic(auto, unfolding(crate::specs::SeatLines::seats_header_of))]
pub fn read_seats_header(line: &[u8]) -> Result<SeatsHeader, BadLine>
    ensures exact { Reads result (seats_header_of line.now) }
    ensures valid { IfOk result IsSeatsHeader }
{
    if line.len() > LINE_LIMIT {
        return Err(BadLine::Grammar);
    }
    let mut words = [line; MOST_WORDS];
    let Some(count) = cut_words(line, &mut words) else {
        return Err(BadLine::Grammar);
    };
    read_header(&words[..count])
}

// What stands behind `all `.
fn behind_all(line: &[u8]) -> Option<&[u8]>
    ensures { MatchOption result (behind_all line.now ≡ None) (λ rest.
        behind_all line.now ≡ Some rest.now) }
{
    match line {
        [a, b, c, d, rest @ ..] => {
            if *a == b'a' && *b == b'l' && *c == b'l' && *d == b' ' {
                Some(rest)
            } else {
                None
            }
        }
        _ => None,
    }
}

// The seat whose number begins the line, and what stands behind its space.
fn behind_seat(count: u32, line: &[u8]) -> Option<(u32, &[u8])>
    requires { count ≤ 8 }
    ensures { MatchOption result (behind_seat count line.now ≡ None) (λ found.
        behind_seat count line.now ≡ Some (found.0, found.1.now)) }
{
    match line {
        [digit, space, rest @ ..] => {
            let digit = u32::from(*digit);
            if *space == b' ' && 49 <= digit && digit <= 48 + count {
                Some((digit - 48, rest))
            } else {
                None
            }
        }
        _ => None,
    }
}

/// Whom a line after the header is for, where there are so many seats, and the line of a session
/// that it gives them.
pub fn read_address(count: u32, line: &[u8]) -> Option<(Address, &[u8])>
    requires { count ≤ 8 }
    ensures { MatchOption result (address_of count line.now ≡ None) (λ found.
        address_of count line.now ≡ Some (found.0, found.1.now)) }
{
    if let Some(rest) = behind_all(line) {
        return Some((Address::All, rest));
    }
    match behind_seat(count, line) {
        Some((seat, rest)) => Some((Address::One(seat), rest)),
        None => None,
    }
}

// The line of a session as it is for one seat or for all, which have only lines of the shell.
fn say(address: Address, line: Line) -> Result<SeatsLine, BadLine>
    ensures { Reads result (said_to address (Some line)) }
{
    match (address, line) {
        (Address::One(seat), Line::Session(said)) => Ok(SeatsLine::Seat(SeatLine::One(seat, said))),
        (Address::All, Line::Session(SessionLine::Shell(step))) => {
            Ok(SeatsLine::Seat(SeatLine::All(SessionLine::Shell(step))))
        }
        _ => Err(BadLine::Grammar),
    }
}

fn read_for(alloc: Global, address: Address, line: &[u8]) -> Result<SeatsLine, BadLine>
    ensures { Reads result (line_for address line.now) }
{
    let line = read_line(alloc, Form::Session, line)?;
    say(address, line)
}

/// Reads a line after the header, without its line feed, where there are so many seats: `S LINE` for
/// the seat S from 1, with a line of a session of form 1 after its header, `all LINE` with one of
/// the shell, or `end`. `Grammar` comes exactly where it is none of them.
#[tactic(auto, unfolding(crate::specs::SeatLines::seats_line_of))]
pub fn read_seat_line(alloc: Global, count: u32, line: &[u8]) -> Result<SeatsLine, BadLine>
    requires { count ≤ 8 }
    ensures exact { Reads result (seats_line_of count line.now) }
    ensures valid { IfOk result (IsSeatsLine count) }
{
    if line.len() > LINE_LIMIT {
        return Err(BadLine::Grammar);
    }
    if is(line, b"end".as_slice()) {
        return Ok(SeatsLine::End);
    }
    match read_address(count, line) {
        Some((address, rest)) => read_for(alloc, address, rest),
        None => Err(BadLine::Grammar),
    }
}
