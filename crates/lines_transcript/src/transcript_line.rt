//! The lines of a session's transcript.
ghost use Rattle.std.specs.Prelude.{◌≡◌, ◌∷◌, ◌++◌, IfOk, IsTrue, OnOk, string_bytes};
ghost use Rattle.wl_wire.specs.Texts.{has_no_zero};
ghost use Rattle.lines_transcript.specs.Transcript.{cause_word, ended_line, out_line, pass_line};
ghost use Rattle.lines_transcript.specs.Transcript.{placed_line, token_word, took_line, vmods_line};

use crate::printing::{add_word, begin, finished, hex_of};
use crate::short_line::{FEW, write_group, write_numbers};
use crate::told_line::add_numbers;
use itoa::Buffer;
use relay_model::{EndCause, Mods};
use std::alloc::Global;
use wio_core::NoMemory;
use wl_wire::Text;

fn cause_word(cause: EndCause) -> &'static str
    ensures { result.now ≡ cause_word cause }
{
    match cause {
        EndCause::Gone => "gone",
        EndCause::Bad => "bad",
        EndCause::Full => "full",
    }
}

/// Writes the line that `print_ended` prints over what `line` was.
pub fn write_ended(
    number: u32,
    peer: u32,
    cause: EndCause,
    line: &mut String,
) -> Result<(), NoMemory>
    ensures value { OnOk result (string_bytes line.new ≡ ended_line number peer cause) }
    ensures clean { OnOk result (IsTrue (has_no_zero (string_bytes line.new))) }
{
    begin(line, number)?;
    add_numbers(line, "ended", &[peer])?;
    add_word(line, cause_word(cause))
}

/// Prints that the entry of that number ended a peer: `N ended P CAUSE`, without a line feed. The
/// cause is `gone`, `bad` or `full`.
pub fn print_ended(alloc: Global, number: u32, peer: u32, cause: EndCause) -> Result<Text, NoMemory>
    ensures value { IfOk result (λ line. line ≡ ended_line number peer cause) }
{
    let mut line = String::new(alloc);
    write_ended(number, peer, cause, &mut line)?;
    Ok(finished(line))
}

/// Writes the line that `print_took` prints over what `line` was.
pub fn write_took(number: u32, peer: u32, count: u32, line: &mut String) -> Result<(), NoMemory>
    ensures value { OnOk result (string_bytes line.new ≡ took_line number peer count) }
    ensures clean { OnOk result (IsTrue (has_no_zero (string_bytes line.new))) }
{
    write_numbers(number, "took", &[peer, count], line)
}

/// Prints that a peer took so many of its stored bytes by the entry of that number: `N took P
/// COUNT`, without a line feed.
pub fn print_took(alloc: Global, number: u32, peer: u32, count: u32) -> Result<Text, NoMemory>
    ensures value { IfOk result (λ line. line ≡ took_line number peer count) }
{
    let mut line = String::new(alloc);
    write_took(number, peer, count, &mut line)?;
    Ok(finished(line))
}

// A token with its offset.
fn add_token(line: &mut String, offset: usize, token: u32) -> Result<(), NoMemory>
    requires { IsTrue (has_no_zero (string_bytes line.old)) }
    ensures added { OnOk result (string_bytes line.new
        ≡ string_bytes line.old ++ 32 ∷ token_word (offset, token)) }
    ensures clean { OnOk result (IsTrue (has_no_zero (string_bytes line.new))) }
{
    add_word(line, Buffer::new().format(offset))?;
    line.push(':')?;
    line.push_str(Buffer::new().format(token))?;
    Ok(())
}

// Any group, word by word.
#[inline(never)]
fn write_words(
    alloc: Global,
    number: u32,
    peer: u32,
    group: &[u8],
    tokens: &[(usize, u32)],
    line: &mut String,
) -> Result<(), NoMemory>
    ensures value { OnOk result (string_bytes line.new ≡ out_line number peer group.now
        tokens.now) }
    ensures clean { OnOk result (IsTrue (has_no_zero (string_bytes line.new))) }
{
    let hex = hex_of(alloc, group)?;
    begin(line, number)?;
    add_numbers(line, "out", &[peer])?;
    add_word(line, hex.as_str())?;
    for (offset, token) in tokens {
        add_token(line, *offset, *token)?;
    }
    Ok(())
}

/// Writes the line that `print_out` prints over what `line` was.
pub fn write_out(
    alloc: Global,
    number: u32,
    peer: u32,
    group: &[u8],
    tokens: &[(usize, u32)],
    line: &mut String,
) -> Result<(), NoMemory>
    ensures value { OnOk result (string_bytes line.new ≡ out_line number peer group.now
        tokens.now) }
    ensures clean { OnOk result (IsTrue (has_no_zero (string_bytes line.new))) }
{
    if tokens.is_empty() && !group.is_empty() && group.len() <= FEW {
        write_group(number, peer, group, line)
    } else {
        write_words(alloc, number, peer, group, tokens, line)
    }
}

/// Prints that the entry of that number put a group of events into a peer's store: `N out P HEX`,
/// and ` OFFSET:TOKEN` for each token, without a line feed. The offset is that of the byte in the
/// group at which the token's message begins.
pub fn print_out(
    alloc: Global,
    number: u32,
    peer: u32,
    group: &[u8],
    tokens: &[(usize, u32)],
) -> Result<Text, NoMemory>
    ensures value { IfOk result (λ line. line ≡ out_line number peer group.now tokens.now) }
{
    let mut line = String::new(alloc);
    write_out(alloc, number, peer, group, tokens, &mut line)?;
    Ok(finished(line))
}

/// Writes the line that `print_placed` prints over what `line` was.
pub fn write_placed(
    number: u32,
    peer: u32,
    id: u32,
    x: i64,
    y: i64,
    line: &mut String,
) -> Result<(), NoMemory>
    ensures value { OnOk result (string_bytes line.new ≡ placed_line number peer id x y) }
    ensures clean { OnOk result (IsTrue (has_no_zero (string_bytes line.new))) }
{
    begin(line, number)?;
    add_numbers(line, "placed", &[peer, id])?;
    add_word(line, Buffer::new().format(x))?;
    add_word(line, Buffer::new().format(y))
}

/// Prints where the entry of that number placed a popup, which is named by its peer's number and
/// its id there: `N placed P ID X Y`, without a line feed. Pixels of the screen.
pub fn print_placed(
    alloc: Global,
    number: u32,
    peer: u32,
    id: u32,
    x: i64,
    y: i64,
) -> Result<Text, NoMemory>
    ensures value { IfOk result (λ line. line ≡ placed_line number peer id x y) }
{
    let mut line = String::new(alloc);
    write_placed(number, peer, id, x, y, &mut line)?;
    Ok(finished(line))
}

/// Writes the line that `print_pass` prints over what `line` was.
pub fn write_pass(
    number: u32,
    time: u32,
    key: u32,
    state: u32,
    line: &mut String,
) -> Result<(), NoMemory>
    ensures value { OnOk result (string_bytes line.new ≡ pass_line number time key state) }
    ensures clean { OnOk result (IsTrue (has_no_zero (string_bytes line.new))) }
{
    begin(line, number)?;
    add_numbers(line, "pass", &[time, key, state])
}

/// Prints a key of the entry of that number that no grab has: `N pass TIME KEY STATE`, without a
/// line feed.
pub fn print_pass(
    alloc: Global,
    number: u32,
    time: u32,
    key: u32,
    state: u32,
) -> Result<Text, NoMemory>
    ensures value { IfOk result (λ line. line ≡ pass_line number time key state) }
{
    let mut line = String::new(alloc);
    write_pass(number, time, key, state, &mut line)?;
    Ok(finished(line))
}

/// Writes the line that `print_vmods` prints over what `line` was.
pub fn write_vmods(number: u32, mods: Mods, line: &mut String) -> Result<(), NoMemory>
    ensures value { OnOk result (string_bytes line.new ≡ vmods_line number mods) }
    ensures clean { OnOk result (IsTrue (has_no_zero (string_bytes line.new))) }
{
    begin(line, number)?;
    add_numbers(
        line,
        "vmods",
        &[mods.depressed, mods.latched, mods.locked, mods.group],
    )
}

/// Prints modifiers of a board, of the entry of that number, that no grab has: `N vmods DEPRESSED LATCHED LOCKED
/// GROUP`, without a line feed.
pub fn print_vmods(alloc: Global, number: u32, mods: Mods) -> Result<Text, NoMemory>
    ensures value { IfOk result (λ line. line ≡ vmods_line number mods) }
{
    let mut line = String::new(alloc);
    write_vmods(number, mods, &mut line)?;
    Ok(finished(line))
}
