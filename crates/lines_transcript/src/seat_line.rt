//! The lines of a transcript of several seats: each begins with its seat's number.
ghost use Rattle.std.specs.Prelude.{◌≡◌, ◌<◌, ◌∷◌, ◌++◌, [], ℕ, List, OnOk, OnErr, length};
ghost use Rattle.std.specs.Prelude.{string_bytes};
ghost use Rattle.lines_transcript.specs.Seats.{seat_end_line, seat_full_line, seat_lines};
ghost use Rattle.lines_transcript.specs.Seats.{seat_mark};

use itoa::Buffer;
use memchr::memchr;
use wio_core::NoMemory;

// The first line with its line feed, or all where there is none, and what stands behind it.
fn first_line(lines: &str) -> (&str, &str)
    requires some { 0 < length lines.now }
    ensures marked { (seat : ℕ) → seat_lines seat lines.now
        ≡ seat_mark seat ++ (result.0.now ++ seat_lines seat result.1.now) }
    ensures shorter { length result.1.now < length lines.now }
{
    match memchr(b'\n', lines.as_bytes()) {
        Some(feed) => lines.split_at(feed + 1),
        None => (lines, ""),
    }
}

// A line of a seat goes behind the text, which begins with the number's digits and a space.
fn add_line(digits: &str, line: &str, text: &mut String) -> Result<(), NoMemory>
    ensures whole { OnOk result (string_bytes text.new
        ≡ string_bytes text.old ++ ((digits.now ++ 32 ∷ []) ++ line.now)) }
    ensures part { OnErr result ((more : List ℕ) ×
        (string_bytes text.new ≡ string_bytes text.old ++ more)) }
{
    text.push_str(digits)?;
    text.push(' ')?;
    text.push_str(line)?;
    Ok(())
}

/// Adds lines of a seat's transcript, of which the last may lack its line feed, to the transcript of
/// several seats: each with the seat's number and a space before it. Also after `NoMemory` the text
/// begins with what it was.
pub fn add_seat_lines(seat: u32, lines: &str, text: &mut String) -> Result<(), NoMemory>
    ensures lines { OnOk result (string_bytes text.new
        ≡ string_bytes text.old ++ seat_lines seat lines.now) }
    ensures part { OnErr result ((more : List ℕ) ×
        (string_bytes text.new ≡ string_bytes text.old ++ more)) }
{
    let mut buffer = Buffer::new();
    let digits = buffer.format(seat);
    let mut rest = lines;
    while !rest.is_empty() {
        let (line, more) = first_line(rest);
        add_line(digits, line, text)?;
        rest = more;
    }
    Ok(())
}

/// Adds the last line of a seat with so many entries, `S end N`, with its line feed.
pub fn add_seat_end(seat: u32, entries: u32, text: &mut String) -> Result<(), NoMemory>
    ensures { OnOk result (string_bytes text.new
        ≡ string_bytes text.old ++ seat_end_line seat entries) }
{
    write!(text, "{seat} end {entries}\n")?;
    Ok(())
}

/// Adds the last line of a seat whose journal was full with so many counted entries, `S journal full
/// N`, with its line feed.
pub fn add_seat_full(seat: u32, counted: u32, text: &mut String) -> Result<(), NoMemory>
    ensures { OnOk result (string_bytes text.new
        ≡ string_bytes text.old ++ seat_full_line seat counted) }
{
    write!(text, "{seat} journal full {counted}\n")?;
    Ok(())
}
