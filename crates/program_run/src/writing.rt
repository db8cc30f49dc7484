//! The output of a script goes out.
ghost use Rattle.std.specs.Prelude.{◌≡◌, ◌≢◌, ◌≤◌, ℕ, List, [], OnOk, IfOk, IfErr, Err};
ghost use Rattle.std.specs.Io.KnownBytes.{Appends};
ghost use Rattle.wio_core.specs.Io.{Rose};
ghost use Rattle.program_run.specs.Endings.{with_front, ending, IsDecided};
ghost use Rattle.program_run.specs.Writing.{WritesDue, WritesPart, WritesEnd};

use crate::last_line::{LastLine, close};
use crate::script::Script;
use crate::status::Status;
use std::alloc::Global;
use wio_core::{Failed, LineReader, NoMemory, Sink, write_all};

// Writes what a script has gathered, and empties its buffer.
fn write_out<P: Script, K: Sink>(script: &mut P, output: &mut K) -> Result<(), Status>
    ensures whole { (gathered : List ℕ) → P.holds script.old gathered
        → OnOk result (Appends (K.held output.old) (K.held output.new) gathered) }
    ensures stays { (done : List (List ℕ)) (said : List ℕ) → P.stands script.old done said
        → OnOk result (P.stands script.new done said) }
    ensures none { OnOk result (P.holds script.new []) }
    ensures part { (gathered : List ℕ) → P.holds script.old gathered
        → IfErr result (WritesPart (K.held output.old) (K.held output.new) gathered) }
    ensures never_falls { K.fault_count output.old ≤ K.fault_count output.new }
    ensures cause { result ≡ Err Status.WriteFault
        → Rose (K.fault_count output.old) (K.fault_count output.new) }
    ensures no_fault { result ≢ Err Status.WriteFault
        → K.fault_count output.new ≡ K.fault_count output.old }
{
    if script.close().is_err() {
        return Err(Status::NoMemory);
    }
    if write_all(output, script.text()).is_err() {
        return Err(Status::WriteFault);
    }
    script.clear();
    Ok(())
}

/// So many bytes of output are written at once, or a few more: those that one line tells.
const PIECE: usize = 16384;

/// Writes what a script has gathered where the reader may wait for its next line, or a piece is
/// full.
pub fn write_due<P: Script, K: Sink>(
    script: &mut P,
    reader: &LineReader,
    output: &mut K,
) -> Result<(), Status>
    ensures due { (gathered : List ℕ) → P.holds script.old gathered
        → OnOk result (WritesDue (P.holds script.new) reader.now
        (K.held output.old) (K.held output.new) gathered) }
    ensures stays { (done : List (List ℕ)) (said : List ℕ) → P.stands script.old done said
        → OnOk result (P.stands script.new done said) }
    ensures part { (gathered : List ℕ) → P.holds script.old gathered
        → IfErr result (WritesPart (K.held output.old) (K.held output.new) gathered) }
    ensures never_falls { K.fault_count output.old ≤ K.fault_count output.new }
    ensures cause { result ≡ Err Status.WriteFault
        → Rose (K.fault_count output.old) (K.fault_count output.new) }
    ensures no_fault { result ≢ Err Status.WriteFault
        → K.fault_count output.new ≡ K.fault_count output.old }
{
    if reader.is_open() || script.text().len() >= PIECE {
        return write_out(script, output);
    }
    Ok(())
}

// The last output of a script, with the last line behind it, and the status.
fn last_output<P: Script>(
    alloc: Global,
    script: &mut P,
    last: LastLine,
) -> Result<(Vec<u8>, Status), NoMemory>
    ensures text { (gathered : List ℕ) → P.holds script.old gathered
        → IfOk result (λ p. (p.0.items, p.1) ≡ with_front gathered (ending last)) }
    ensures decided { IfOk result (λ p. IsDecided p.1) }
{
    script.close()?;
    let mut line = String::new(alloc);
    let status = close(&mut line, last)?;
    let mut text = Vec::new(alloc);
    text.extend_from_slice(script.text())?;
    text.extend_from_slice(line.as_bytes())?;
    Ok((text, status))
}

/// Writes the last output of a script and the last line, and answers the status.
pub fn write_end<P: Script, K: Sink>(
    alloc: Global,
    script: &mut P,
    last: LastLine,
    output: &mut K,
) -> Status
    ensures ends { (gathered : List ℕ) → P.holds script.old gathered
        → WritesEnd (K.held output.old) (K.held output.new)
        (with_front gathered (ending last)) result }
    ensures never_falls { K.fault_count output.old ≤ K.fault_count output.new }
    ensures cause { result ≡ Status.WriteFault
        → Rose (K.fault_count output.old) (K.fault_count output.new) }
    ensures no_fault { result ≢ Status.WriteFault
        → K.fault_count output.new ≡ K.fault_count output.old }
{
    match last_output(alloc, script, last) {
        Ok((text, status)) => match write_all(output, &text) {
            Ok(()) => status,
            Err(Failed) => Status::WriteFault,
        },
        Err(NoMemory) => Status::NoMemory,
    }
}
