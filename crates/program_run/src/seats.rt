//! Several seats, played line by line.
ghost use Rattle.std.specs.Prelude.{◌≡◌, ◌≤◌, ◌<◌, ◌^◌, ◌++◌, [], IfOk, IfSome, OnOk};
ghost use Rattle.std.specs.Prelude.{Some, length, string_bytes, take};
ghost use Rattle.session_text.specs.declared.line.SessionLine.TheVariants as lines;
ghost use Rattle.session_text.specs.declared.seat_line.SeatLine.TheVariants as seats;
ghost use Rattle.session_text.specs.declared.seat_line.SeatsLine.TheVariants as said;
ghost use Rattle.session_text.specs.SeatLines.{IsSeatsHeader, seats_header_of, seats_line_of};
ghost use Rattle.program_run.specs.Seats.{seat_ending, seats_endings, seats_last, some_full};
ghost use Rattle.program_run.specs.SeatsPlayed.{IsSeatsLinePlayed};

use crate::last_line::LastLine;
use crate::script::Script;
use lines_transcript::{add_seat_end, add_seat_full};
use seat_set::{Kept, SeatSet};
use session_text::{
    Address, BadLine, LINE_LIMIT, SeatsHeader, SeatsLine, read_address, read_piece, read_seat_line,
    read_seats_header,
};
use std::alloc::Global;
use wio_core::NoMemory;

// The header that a line is, if it is one.
fn header(raw: &[u8]) -> Result<Option<SeatsHeader>, NoMemory>
    ensures read { IfOk result (λ header. header ≡ seats_header_of raw.now) }
    ensures valid { IfOk result (λ header. IfSome header IsSeatsHeader) }
{
    match read_seats_header(raw) {
        Ok(header) => Ok(Some(header)),
        Err(BadLine::Grammar) => Ok(None),
        Err(BadLine::NoMemory) => Err(NoMemory),
    }
}

// Whether the journal of a seat was full.
fn is_some_full(set: &SeatSet) -> bool
    ensures { result ≡ some_full set.now.seats }
{
    let mut place: u32 = 0;
    while place < set.count() {
        if set.full(place + 1).is_some() {
            return true;
        }
        place += 1;
    }
    false
}

// The last line of a seat goes behind the text.
fn add_ending(
    seat: u32,
    entries: u32,
    full: Option<Kept>,
    text: &mut String,
) -> Result<(), NoMemory>
    ensures { OnOk result (string_bytes text.new
        ≡ string_bytes text.old ++ seat_ending seat entries full) }
{
    match full {
        Some(kept) => add_seat_full(seat, kept.entries, text),
        None => add_seat_end(seat, entries, text),
    }
}

// The last line of each seat goes behind the text.
fn add_endings(set: &SeatSet, text: &mut String) -> Result<(), NoMemory>
    ensures { OnOk result (string_bytes text.new
        ≡ string_bytes text.old ++ seats_endings 1 set.now.seats) }
{
    let mut place: u32 = 0;
    while place < set.count() {
        let seat = place + 1;
        add_ending(seat, set.entries(seat), set.full(seat), text)?;
        place += 1;
    }
    Ok(())
}

// How the output ends with the line `end`.
fn last_of(set: &SeatSet) -> LastLine
    ensures { result ≡ seats_last set.now.seats }
{
    if is_some_full(set) {
        LastLine::OverFull
    } else {
        LastLine::Over
    }
}

// As many bytes as most lines of a peer have at most.
const FEW: usize = 64;

// The line of a peer's few bytes for one seat: the seat, the peer's number, and how many bytes it
// sent, which stand at the front of the buffer. Where it finds none, `read_seat_line` says what the
// line is.
#[inline(always)]
fn read_seat_piece(count: u32, raw: &[u8], piece: &mut [u8]) -> Option<(u32, u32, usize)>
    requires seats { count ≤ 8 }
    requires few { length piece.old ≤ 4096 }
    ensures read { IfSome result (λ found. seats_line_of count raw.now ≡ Some (said.Seat
        (seats.One found.0 (lines.Bytes found.1 (take found.2 piece.new))))) }
    ensures there { IfSome result (λ found. (1 ≤ found.0) × (found.0 ≤ count)) }
    ensures within { IfSome result (λ found. found.2 ≤ length piece.new) }
{
    if raw.len() > LINE_LIMIT {
        return None;
    }
    match read_address(count, raw) {
        Some((Address::One(seat), rest)) => {
            let (peer, length) = read_piece(rest, piece)?;
            Some((seat, peer, length))
        }
        _ => None,
    }
}

// Plays any line after so many. Tells how the output ends if the line decides it. Stands apart, so
// that the line of a few bytes makes no room for others.
#[inline(never)]
fn play_any(
    alloc: Global,
    set: &mut SeatSet,
    text: &mut String,
    before: u64,
    raw: &[u8],
) -> Result<Option<LastLine>, NoMemory>
    ensures { before < 2 ^ 63 → IfOk result (IsSeatsLinePlayed before
        (seats_line_of (length set.old.seats) raw.now) set.old.seats set.new.seats
        (string_bytes text.old) (string_bytes text.new)) }
{
    match read_seat_line(alloc, set.count(), raw) {
        Ok(SeatsLine::Seat(line)) => {
            set.line_into(&line, text)?;
            Ok(None)
        }
        Ok(SeatsLine::End) => {
            add_endings(set, text)?;
            Ok(Some(last_of(set)))
        }
        Err(BadLine::Grammar) => Ok(Some(LastLine::Bad(before.saturating_add(1)))),
        Err(BadLine::NoMemory) => Err(NoMemory),
    }
}

// Plays the line after so many, as `play_any` does.
fn play_line(
    alloc: Global,
    set: &mut SeatSet,
    text: &mut String,
    before: u64,
    raw: &[u8],
) -> Result<Option<LastLine>, NoMemory>
    ensures { before < 2 ^ 63 → IfOk result (IsSeatsLinePlayed before
        (seats_line_of (length set.old.seats) raw.now) set.old.seats set.new.seats
        (string_bytes text.old) (string_bytes text.new)) }
{
    let mut piece = [0u8; FEW];
    match read_seat_piece(set.count(), raw, &mut piece) {
        Some((seat, peer, length)) => {
            set.bytes_into(seat, peer, &piece[..length], text)?;
            Ok(None)
        }
        None => play_any(alloc, set, text, before, raw),
    }
}

/// The lines so far, and the output that they came to. Before the header no seat is there.
#[derive(Drop)]
pub struct SeatsPlay {
    alloc: Global,
    set: Option<SeatSet>,
    text: String,
    before: u64,
}

impl SeatsPlay {
    ghost use Rattle.program_run.specs.SeatsScript.{SeatsStand, seats_text};

    /// No line was played yet.
    pub fn new(alloc: Global) -> SeatsPlay
        ensures stands { SeatsStand result [] [] }
        ensures holds { seats_text result ≡ [] }
    {
        SeatsPlay {
            alloc,
            set: None,
            text: String::new(alloc),
            before: 0,
        }
    }
}

impl Script for SeatsPlay {
    ghost use Rattle.program_run.specs.Seats.{seats_of_lines};
    ghost use Rattle.program_run.specs.SeatsScript.{SeatsStand, seats_text};

    ghost answer = { seats_of_lines };

    ghost stands = { SeatsStand };

    ghost holds = { λ play gathered. seats_text play ≡ gathered };

    ghost text = { seats_text };

    fn line(&mut self, raw: &[u8]) -> Result<Option<LastLine>, NoMemory> {
        let before = self.before;
        self.before = before.saturating_add(1);
        match &mut self.set {
            Some(set) => play_line(self.alloc, set, &mut self.text, before, raw),
            None => match header(raw)? {
                Some(header) => {
                    self.set = Some(SeatSet::new(self.alloc, header.count, header.limits)?);
                    Ok(None)
                }
                None => Ok(Some(LastLine::Bad(1))),
            },
        }
    }

    fn bad_line(&self) -> LastLine {
        LastLine::Bad(self.before.saturating_add(1))
    }

    fn close(&mut self) -> Result<(), NoMemory> {
        Ok(())
    }

    fn text(&self) -> &[u8] {
        self.text.as_str().as_bytes()
    }

    fn clear(&mut self) {
        self.text.clear();
    }
}
