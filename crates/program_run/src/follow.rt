//! A script follows its input.
ghost use Rattle.std.specs.Prelude.{◌≡◌, ◌≢◌, ◌≤◌, ℕ, List, []};
ghost use Rattle.wio_core.specs.Lines.{TookFrom};
ghost use Rattle.program_run.specs.Scripts.{Follows};
ghost use Rattle.program_run.specs.LineByLine.{LineByLine};
ghost use Rattle.program_run.specs.Ran.{answer_read, Ran};

use crate::reading::next_line;
use crate::script::Script;
use crate::status::Status;
use crate::writing::{write_due, write_end};
use std::alloc::Global;
use wio_core::{LineReader, NoMemory, Sink, Source};

/// Plays the lines of an input, of which so many bytes are read at most. What is ready is written
/// before a read that may wait, and whenever it fills a piece.
pub fn play_input<P: Script, S: Source, K: Sink>(
    alloc: Global,
    limit: u64,
    script: &mut P,
    input: &mut S,
    output: &mut K,
) -> Status
    requires small { limit ≤ 4294967296 }
    requires stands { P.stands script.old [] [] }
    requires holds { P.holds script.old [] }
    requires follows { Follows P.answer [] [] }
    ensures ran { Ran (answer_read limit P.answer) (S.left input.old)
        (S.fault_count input.old) (S.fault_count input.new)
        (K.held output.old) (K.held output.new)
        (K.fault_count output.old) (K.fault_count output.new) result }
    ensures line_by_line { (read : List ℕ)
        × TookFrom (S.given input.old) (S.given input.new)
        (S.left input.old) (S.left input.new) read
        × LineByLine limit P.answer (S.left input.old) (S.left input.new)
        (K.held output.old) (K.held output.new) result read }
    ensures reads_never_fall { S.fault_count input.old ≤ S.fault_count input.new }
    ensures writes_never_fall { K.fault_count output.old ≤ K.fault_count output.new }
    ensures no_read_fault { result ≢ Status.ReadFault →
        S.fault_count input.new ≡ S.fault_count input.old }
    ensures no_write_fault { result ≢ Status.WriteFault →
        K.fault_count output.new ≡ K.fault_count output.old }
{
    let mut reader = match LineReader::new(alloc, Some(limit)) {
        Ok(reader) => reader,
        Err(NoMemory) => return Status::NoMemory,
    };
    'lines: loop {
        if let Err(status) = write_due(script, &reader, output) {
            return status;
        }
        match next_line(script, &mut reader, input) {
            Ok(None) => {}
            Ok(Some(last)) => return write_end(alloc, script, last, output),
            Err(status) => return status,
        }
    }
}
