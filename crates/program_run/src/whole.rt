//! An input that is read whole.
ghost use Rattle.std.specs.Prelude.{◌≡◌, ◌≢◌, ◌<◌, ◌≤◌, ◌+◌, ◌++◌, ℕ, List, length, vec_len, true};
ghost use Rattle.std.specs.Prelude.{IfOk, IfSome, OnOk, Err};
ghost use Rattle.std.specs.Io.KnownBytes.{IsAtEnd};
ghost use Rattle.wio_core.specs.Io.{Rose};
ghost use Rattle.wio_core.specs.Lines.{TookFrom};
ghost use Rattle.trial_script.specs.Lines.{lines_of as script_lines};
ghost use Rattle.program_run.specs.Lines.{lines_of, taken};
ghost use Rattle.program_run.specs.Whole.{IsEndOfLines};

use crate::reading::INPUT_LIMIT;
use session_text::LINE_LIMIT;
use std::alloc::Global;
use wio_core::{Failed, Source};

/// How many bytes are asked for at once.
const PIECE: usize = 16384;

/// Why an input wasn't read to its end.
#[derive(Clone, Copy, Debug, PartialEq, Eq)]
pub enum ReadEnd {
    /// A read failed.
    ReadFault,
    /// There was no memory.
    NoMemory,
}

// Reads once, and adds what was read to the bytes.
fn read_some<S: Source>(
    source: &mut S,
    bytes: &mut Vec<u8>,
    piece: &mut [u8],
    room: usize,
) -> Result<usize, ReadEnd>
    requires room { 0 < room }
    requires piece { 0 < length piece.old }
    ensures took { (read : List ℕ)
        × TookFrom (S.given source.old) (S.given source.new)
        (S.left source.old) (S.left source.new) read
        × (length read ≤ room) × OnOk result (bytes.new.items ≡ bytes.old.items ++ read) }
    ensures len { IfOk result (λ n. vec_len bytes.new ≡ vec_len bytes.old + n) }
    ensures within { IfOk result (λ n. n ≤ room) }
    ensures end { IfOk result (λ n. n ≡ 0 → IsAtEnd (S.left source.new)) }
    ensures never_falls { S.fault_count source.old ≤ S.fault_count source.new }
    ensures cause { result ≡ Err ReadEnd.ReadFault
        → Rose (S.fault_count source.old) (S.fault_count source.new) }
    ensures no_fault { result ≢ Err ReadEnd.ReadFault
        → S.fault_count source.new ≡ S.fault_count source.old }
{
    let size = room.min(piece.len());
    match source.read(&mut piece[..size]) {
        Ok(n) => {
            if bytes.extend_from_slice(&piece[..n]).is_err() {
                return Err(ReadEnd::NoMemory);
            }
            Ok(n)
        }
        Err(Failed) => Err(ReadEnd::ReadFault),
    }
}

/// All bytes of a source, up to the limit.
pub fn read_all<S: Source>(alloc: Global, source: &mut S) -> Result<Vec<u8>, ReadEnd>
    ensures all { IfOk result (λ input. IfSome (S.left source.old) (λ bytes.
        input.items ≡ taken INPUT_LIMIT bytes)) }
    ensures took { (read : List ℕ)
        × TookFrom (S.given source.old) (S.given source.new)
        (S.left source.old) (S.left source.new) read
        × (length read ≤ INPUT_LIMIT) × IfOk result (λ input. input.items ≡ read) }
    ensures never_falls { S.fault_count source.old ≤ S.fault_count source.new }
    ensures cause { result ≡ Err ReadEnd.ReadFault
        → Rose (S.fault_count source.old) (S.fault_count source.new) }
    ensures no_fault { result ≢ Err ReadEnd.ReadFault
        → S.fault_count source.new ≡ S.fault_count source.old }
{
    let limit = INPUT_LIMIT as usize;
    let mut input = Vec::new(alloc);
    let mut piece = [0u8; PIECE];
    'pieces: while input.len() < limit {
        let room = limit - input.len();
        let n = read_some(source, &mut input, &mut piece, room)?;
        if n == 0 {
            return Ok(input);
        }
    }
    Ok(input)
}

// Where the bytes end that stand up to the last line feed, with it.
fn end_of_lines(bytes: &[u8]) -> usize
    ensures { IsEndOfLines bytes.now result }
{
    let mut end = bytes.len();
    'back: while end > 0 {
        if bytes[end - 1] == b'\n' {
            return end;
        }
        end -= 1;
    }
    0
}

// The bytes of an input that was cut off, without those of a line that it was cut off in.
fn whole_lines(input: &[u8]) -> &[u8]
    ensures { script_lines result.now ≡ lines_of true input.now }
{
    let end = end_of_lines(input);
    if input.len() - end > LINE_LIMIT {
        return input;
    }
    &input[..end]
}

/// The bytes of the lines of an input of which at most the limit was read.
pub fn script_in(cut: bool, input: &[u8]) -> &[u8]
    ensures { script_lines result.now ≡ lines_of cut input.now }
{
    if cut {
        return whole_lines(input);
    }
    input
}
