//! The seats of a set, and the lines that go to one or to all.
ghost use Rattle.std.specs.Prelude.{◌≡◌, ◌≤◌, ◌<◌, ◌-◌, ◌++◌, true, false, IfOk, IfSome, OnOk, OnErr};
ghost use Rattle.std.specs.Prelude.{ℕ, List, length, replicate, string_bytes};
ghost use Rattle.std.specs.List.{slice_get};
ghost use Rattle.broker_steps.specs.Ranges.{IsLimits};
ghost use Rattle.session_text.specs.Steps.{IsSessionLine};
ghost use Rattle.session_text.specs.SeatLines.{IsSeatLine};
ghost use Rattle.session_text.specs.declared.line.SessionLine.TheVariants as sessions;
ghost use Rattle.session_text.specs.declared.seat_line.SeatLine.TheVariants as lines;
ghost use Rattle.lines_transcript.specs.Seats.{seat_lines};
ghost use Rattle.broker_model.specs.declared.journal.Entry.{Entry};
ghost use Rattle.relay_objects.specs.Reached.{Reached};
ghost use Rattle.broker_core.specs.Watched.{watched_since};
ghost use Rattle.lines_transcript.specs.Printed.{IsFront, MayPrint, blank};
ghost use Rattle.lines_transcript.specs.Transcribed.{text_since};
ghost use Rattle.seat_set.specs.Seats.{fresh, seat_after, seat_said, seats_after, seats_said};
ghost use Rattle.seat_set.specs.Begun.{IsBegun, AreBegun};

use crate::Kept;
use crate::seat_player::SeatPlayer;
use broker_steps::Limits;
use lines_transcript::{Printer, add_seat_lines};
use session_text::{SeatLine, SessionLine};
use std::alloc::Global;
use std::marker::Model;
use wio_core::NoMemory;

// What a seat printed goes behind the text with the seat's number before each line. Most lines of an
// input tell nothing.
#[inline(always)]
fn add_lines(number: u32, lines: &str, text: &mut String) -> Result<(), NoMemory>
    ensures whole { OnOk result (string_bytes text.new
        ≡ string_bytes text.old ++ seat_lines number lines.now) }
    ensures part { OnErr result (IsFront (string_bytes text.old) (string_bytes text.new)) }
{
    if lines.is_empty() {
        return Ok(());
    }
    add_seat_lines(number, lines, text)
}

// What a printer that was blank watched of a seat goes behind the text likewise.
#[inline(always)]
fn add_printed(number: u32, printer: &mut Printer, text: &mut String) -> Result<(), NoMemory>
    ensures whole { (capacity k : ℕ) (journal : List Entry) →
        Reached MayPrint blank (watched_since capacity k journal) printer.old →
        OnOk result (string_bytes text.new
        ≡ string_bytes text.old ++ seat_lines number (text_since capacity k journal)) }
    ensures part { OnErr result (IsFront (string_bytes text.old) (string_bytes text.new)) }
{
    printer.close();
    if printer.is_short() {
        return Err(NoMemory);
    }
    add_lines(number, printer.text(), text)
}

// Plays a line on the seat with the number, whose transcript has more after it: its lines go behind
// the text. A seat that is full plays nothing.
fn play_seat(
    seat: &mut SeatPlayer,
    number: u32,
    line: &SessionLine,
    printer: &mut Printer,
    text: &mut String,
) -> Result<(), NoMemory>
    requires valid { IsSessionLine line.now }
    ensures seat { OnOk result (seat.new ≡ seat_after line.now seat.old) }
    ensures text { OnOk result (string_bytes text.new ≡ string_bytes text.old
        ++ seat_lines number (seat_said line.now seat.old)) }
    ensures part { OnErr result (IsBegun line.now seat.old seat.new) }
    ensures part_text { OnErr result (IsFront (string_bytes text.old) (string_bytes text.new)) }
{
    if seat.full().is_some() {
        return Ok(());
    }
    printer.clear();
    seat.play(line, printer)?;
    add_printed(number, printer, text)
}

// Plays the line of a peer's bytes, as `play_seat` does.
#[inline(always)]
fn play_seat_bytes(
    seat: &mut SeatPlayer,
    number: u32,
    peer: u32,
    piece: &[u8],
    printer: &mut Printer,
    text: &mut String,
) -> Result<(), NoMemory>
    ensures seat { OnOk result (seat.new ≡ seat_after (sessions.Bytes peer piece.now) seat.old) }
    ensures text { OnOk result (string_bytes text.new ≡ string_bytes text.old
        ++ seat_lines number (seat_said (sessions.Bytes peer piece.now) seat.old)) }
    ensures part { OnErr result (IsBegun (sessions.Bytes peer piece.now) seat.old seat.new) }
    ensures part_text { OnErr result (IsFront (string_bytes text.old) (string_bytes text.new)) }
{
    if seat.full().is_some() {
        return Ok(());
    }
    printer.clear();
    seat.play_bytes(peer, piece, printer)?;
    add_printed(number, printer, text)
}

// Plays a line on the seat with the number.
fn play_one(
    seats: &mut [SeatPlayer],
    number: u32,
    line: &SessionLine,
    printer: &mut Printer,
    text: &mut String,
) -> Result<(), NoMemory>
    requires valid { IsSessionLine line.now }
    requires from { 1 ≤ number }
    requires to { number ≤ length seats.old }
    ensures seats { OnOk result (seats.new ≡ seats_after (lines.One number line.now) 1 seats.old) }
    ensures text { OnOk result (string_bytes text.new ≡ string_bytes text.old
        ++ seats_said (lines.One number line.now) 1 seats.old) }
    ensures part { OnErr result (AreBegun (lines.One number line.now) seats.old seats.new) }
    ensures part_text { OnErr result (IsFront (string_bytes text.old) (string_bytes text.new)) }
{
    play_seat(
        &mut seats[(number - 1) as usize],
        number,
        line,
        printer,
        text,
    )
}

// Plays the line of a peer's bytes on the seat with the number.
#[inline(always)]
fn play_one_bytes(
    seats: &mut [SeatPlayer],
    seat: u32,
    peer: u32,
    piece: &[u8],
    printer: &mut Printer,
    text: &mut String,
) -> Result<(), NoMemory>
    requires from { 1 ≤ seat }
    requires to { seat ≤ length seats.old }
    ensures seats { OnOk result (seats.new
        ≡ seats_after (lines.One seat (sessions.Bytes peer piece.now)) 1 seats.old) }
    ensures text { OnOk result (string_bytes text.new ≡ string_bytes text.old
        ++ seats_said (lines.One seat (sessions.Bytes peer piece.now)) 1 seats.old) }
    ensures part { OnErr result (AreBegun (lines.One seat (sessions.Bytes peer piece.now))
        seats.old seats.new) }
    ensures part_text { OnErr result (IsFront (string_bytes text.old) (string_bytes text.new)) }
{
    play_seat_bytes(
        &mut seats[(seat - 1) as usize],
        seat,
        peer,
        piece,
        printer,
        text,
    )
}

// Plays a line on each seat, in turn.
fn play_all(
    seats: &mut [SeatPlayer],
    line: &SessionLine,
    printer: &mut Printer,
    text: &mut String,
) -> Result<(), NoMemory>
    requires valid { IsSessionLine line.now }
    requires few { length seats.old ≤ 8 }
    ensures seats { OnOk result (seats.new ≡ seats_after (lines.All line.now) 1 seats.old) }
    ensures text { OnOk result (string_bytes text.new ≡ string_bytes text.old
        ++ seats_said (lines.All line.now) 1 seats.old) }
    ensures part { OnErr result (AreBegun (lines.All line.now) seats.old seats.new) }
    ensures part_text { OnErr result (IsFront (string_bytes text.old) (string_bytes text.new)) }
{
    let mut place: usize = 0;
    while place < seats.len() {
        play_seat(&mut seats[place], place as u32 + 1, line, printer, text)?;
        place += 1;
    }
    Ok(())
}

/// Seats that are numbered from 1, each with its own peers, journal and stores. A line goes to one
/// of them, or to all in turn. A seat whose journal was full for a step plays nothing more; the
/// others go on.
///
/// In contracts it is its seats, and whether it is spent for want of memory.
#[derive(Drop)]
pub struct SeatSet {
    alloc: Global,
    seats: Vec<SeatPlayer>,
    // What a line tells one seat's peers, before its lines get their seat's number.
    printer: Printer,
    is_spent: bool,
}

impl Model for SeatSet {
    ghost use Rattle.std.specs.Prelude.{◌≤◌, length};
    ghost use Rattle.seat_set.specs.Seats.{Seats};

    ghost Value = { Seats };

    ghost view = { λ s. record { seats = s.seats.items; is_spent = s.is_spent } };

    ghost invariant = { λ s. length s.seats.items ≤ 8 };
}

impl SeatSet {
    /// So many seats, 1 to 8, with limits in their ranges. Nobody joined yet. `NoMemory` is its one
    /// error.
    #[tactic(auto, using(crate::proofs::SeatsInTurn::one_more))]
    pub fn new(alloc: Global, count: u32, limits: Limits) -> Result<SeatSet, NoMemory>
        requires some { 1 ≤ count }
        requires few { count ≤ 8 }
        requires limits { IsLimits limits }
        ensures new { IfOk result (λ set. set ≡ record {
          seats = replicate count (fresh limits);
          is_spent = false;
        }) }
    {
        let mut seats = Vec::new(alloc);
        for _seat in 0..count {
            seats.push(SeatPlayer::new(alloc, limits)?)?;
        }
        Ok(SeatSet {
            alloc,
            seats,
            printer: Printer::new(alloc),
            is_spent: false,
        })
    }

    // The line, as long as there is memory.
    fn play(&mut self, line: &SeatLine, text: &mut String) -> Result<(), NoMemory>
        requires valid { IsSeatLine (length self.old.seats) line.now }
        ensures seats { OnOk result (self.new ≡ record self.old {
          seats = seats_after line.now 1 self.old.seats;
        }) }
        ensures text { OnOk result (string_bytes text.new ≡ string_bytes text.old
            ++ seats_said line.now 1 self.old.seats) }
        ensures part { OnErr result (AreBegun line.now self.old.seats self.new.seats) }
        ensures part_text { OnErr result (IsFront (string_bytes text.old) (string_bytes text.new)) }
        ensures count { length self.new.seats ≡ length self.old.seats }
    {
        let seats = self.seats.as_mut_slice();
        match line {
            SeatLine::One(seat, line) => play_one(seats, *seat, line, &mut self.printer, text),
            SeatLine::All(line) => play_all(seats, line, &mut self.printer, text),
        }
    }

    // The line of a peer's bytes, as long as there is memory.
    #[inline(always)]
    fn play_bytes(
        &mut self,
        seat: u32,
        peer: u32,
        piece: &[u8],
        text: &mut String,
    ) -> Result<(), NoMemory>
        requires from { 1 ≤ seat }
        requires to { seat ≤ length self.old.seats }
        ensures seats { OnOk result (self.new ≡ record self.old {
          seats = seats_after (lines.One seat (sessions.Bytes peer piece.now)) 1 self.old.seats;
        }) }
        ensures text { OnOk result (string_bytes text.new ≡ string_bytes text.old
            ++ seats_said (lines.One seat (sessions.Bytes peer piece.now)) 1 self.old.seats) }
        ensures part { OnErr result (AreBegun (lines.One seat (sessions.Bytes peer piece.now))
            self.old.seats self.new.seats) }
        ensures part_text { OnErr result (IsFront (string_bytes text.old) (string_bytes text.new)) }
        ensures count { length self.new.seats ≡ length self.old.seats }
    {
        let seats = self.seats.as_mut_slice();
        play_one_bytes(seats, seat, peer, piece, &mut self.printer, text)
    }

    // A set whose line found no memory is spent.
    #[inline(always)]
    fn ended(&mut self, played: Result<(), NoMemory>) -> Result<(), NoMemory>
        ensures result { result ≡ played }
        ensures ok { OnOk played (self.new ≡ self.old) }
        ensures spent { OnErr played (self.new ≡ record self.old { is_spent = true }) }
    {
        if played.is_err() {
            self.is_spent = true;
        }
        played
    }

    /// Plays a line on the seat that it is for, or on all in turn, and adds to the text what their
    /// transcripts have more, each line behind its seat's number. A seat that is full plays nothing.
    ///
    /// `NoMemory` may come at any time. Then on each seat that the line is for a front of what it
    /// plays was played, the others are as they were, and the text begins with what it was. The set
    /// is spent: each later line answers the same, and plays and adds nothing.
    pub fn line_into(&mut self, line: &SeatLine, text: &mut String) -> Result<(), NoMemory>
        requires valid { IsSeatLine (length self.old.seats) line.now }
        ensures seats { OnOk result (self.new ≡ record self.old {
          seats = seats_after line.now 1 self.old.seats;
        }) }
        ensures text { OnOk result (string_bytes text.new ≡ string_bytes text.old
            ++ seats_said line.now 1 self.old.seats) }
        ensures part { OnErr result (AreBegun line.now self.old.seats self.new.seats) }
        ensures part_text { OnErr result (IsFront (string_bytes text.old) (string_bytes text.new)) }
        ensures spent { OnErr result (self.new.is_spent ≡ true) }
        ensures again { self.old.is_spent ≡ true → IfOk result (λ _. ⊥) }
        ensures stays { self.old.is_spent ≡ true → (self.new ≡ self.old) × (text.new ≡ text.old) }
        ensures count { length self.new.seats ≡ length self.old.seats }
    {
        if self.is_spent {
            return Err(NoMemory);
        }
        let played = self.play(line, text);
        self.ended(played)
    }

    /// Plays the line of a peer's bytes on a seat that there is, as `line_into` does.
    pub fn bytes_into(
        &mut self,
        seat: u32,
        peer: u32,
        piece: &[u8],
        text: &mut String,
    ) -> Result<(), NoMemory>
        requires from { 1 ≤ seat }
        requires to { seat ≤ length self.old.seats }
        ensures seats { OnOk result (self.new ≡ record self.old {
          seats = seats_after (lines.One seat (sessions.Bytes peer piece.now)) 1 self.old.seats;
        }) }
        ensures text { OnOk result (string_bytes text.new ≡ string_bytes text.old
            ++ seats_said (lines.One seat (sessions.Bytes peer piece.now)) 1 self.old.seats) }
        ensures part { OnErr result (AreBegun (lines.One seat (sessions.Bytes peer piece.now))
            self.old.seats self.new.seats) }
        ensures part_text { OnErr result (IsFront (string_bytes text.old) (string_bytes text.new)) }
        ensures spent { OnErr result (self.new.is_spent ≡ true) }
        ensures again { self.old.is_spent ≡ true → IfOk result (λ _. ⊥) }
        ensures stays { self.old.is_spent ≡ true → (self.new ≡ self.old) × (text.new ≡ text.old) }
        ensures count { length self.new.seats ≡ length self.old.seats }
    {
        if self.is_spent {
            return Err(NoMemory);
        }
        let played = self.play_bytes(seat, peer, piece, text);
        self.ended(played)
    }

    /// Plays a line, as `line_into` does, and answers what it adds.
    pub fn line(&mut self, line: &SeatLine) -> Result<String, NoMemory>
        requires valid { IsSeatLine (length self.old.seats) line.now }
        ensures seats { OnOk result (self.new ≡ record self.old {
          seats = seats_after line.now 1 self.old.seats;
        }) }
        ensures text { IfOk result (λ text. string_bytes text ≡ seats_said line.now 1
            self.old.seats) }
        ensures part { OnErr result (AreBegun line.now self.old.seats self.new.seats) }
        ensures spent { OnErr result (self.new.is_spent ≡ true) }
        ensures again { self.old.is_spent ≡ true → IfOk result (λ _. ⊥) }
        ensures stays { self.old.is_spent ≡ true → self.new ≡ self.old }
        ensures count { length self.new.seats ≡ length self.old.seats }
    {
        let mut text = String::new(self.alloc);
        self.line_into(line, &mut text)?;
        Ok(text)
    }

    /// How many seats there are.
    pub fn count(&self) -> u32
        ensures number { result ≡ length self.now.seats }
        ensures few { result ≤ 8 }
    {
        self.seats.len() as u32
    }

    /// How much the journal of the seat held where a step met it full, if one did. Asks for a seat
    /// that there is.
    pub fn full(&self, seat: u32) -> Option<Kept>
        requires from { 1 ≤ seat }
        requires to { seat ≤ length self.now.seats }
        ensures { IfSome (slice_get self.now.seats (seat - 1)) (λ s. result ≡ s.full) }
    {
        self.seats[(seat - 1) as usize].full()
    }

    /// How many entries the journal of the seat has, also after an error. Asks for a seat that there
    /// is.
    pub fn entries(&self, seat: u32) -> u32
        requires from { 1 ≤ seat }
        requires to { seat ≤ length self.now.seats }
        ensures { IfSome (slice_get self.now.seats (seat - 1)) (λ s.
            result ≡ length s.play.journal) }
    {
        self.seats[(seat - 1) as usize].entries()
    }
}
