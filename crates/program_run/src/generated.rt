//! A generated session: its counts, and its text. Nothing is read.
ghost use Rattle.std.specs.Prelude.{◌≡◌, ◌≢◌, ◌≤◌, ℕ, List, Option};
ghost use Rattle.program_run.specs.Ran.{Ran};
ghost use Rattle.program_run.specs.Generated.{counts_answer, text_answer};

use crate::status::Status;
use program_gen::{WriteEnd, summary, write_session};
use std::alloc::Global;
use wio_core::{Failed, NoMemory, Sink, write_all};

/// Writes the line with the counts of the session of the number.
pub fn write_counts<K: Sink>(alloc: Global, number: u64, output: &mut K) -> Status
    ensures ran { (left : Option (List ℕ)) (reads : ℕ)
        → Ran (λ bytes. counts_answer number) left reads reads
        (K.held output.old) (K.held output.new)
        (K.fault_count output.old) (K.fault_count output.new) result }
    ensures writes_never_fall { K.fault_count output.old ≤ K.fault_count output.new }
    ensures no_write_fault { result ≢ Status.WriteFault →
        K.fault_count output.new ≡ K.fault_count output.old }
{
    let line = match summary(alloc, number) {
        Ok(line) => line,
        Err(NoMemory) => return Status::NoMemory,
    };
    match write_all(output, line.as_bytes()) {
        Ok(()) => Status::Ok,
        Err(Failed) => Status::WriteFault,
    }
}

/// Writes the session of the number.
pub fn write_generated<K: Sink>(alloc: Global, number: u64, output: &mut K) -> Status
    ensures ran { (left : Option (List ℕ)) (reads : ℕ)
        → Ran (λ bytes. text_answer number) left reads reads
        (K.held output.old) (K.held output.new)
        (K.fault_count output.old) (K.fault_count output.new) result }
    ensures writes_never_fall { K.fault_count output.old ≤ K.fault_count output.new }
    ensures no_write_fault { result ≢ Status.WriteFault →
        K.fault_count output.new ≡ K.fault_count output.old }
{
    match write_session(alloc, number, output) {
        Ok(()) => Status::Ok,
        Err(WriteEnd::WriteFault) => Status::WriteFault,
        Err(WriteEnd::NoMemory) => Status::NoMemory,
    }
}
