//! A script of a trial, which is read whole before it is run.
ghost use Rattle.std.specs.Prelude.{◌≡◌, ◌≢◌, ◌≤◌, ◌⊎◌, ℕ, List, IfOk, string_bytes};
ghost use Rattle.wio_core.specs.Lines.{TookFrom};
ghost use Rattle.trial_script.specs.Scripts.{script_of};
ghost use Rattle.program_run.specs.declared.reading.TheConstants.{INPUT_LIMIT};
ghost use Rattle.program_run.specs.Lines.{lines_of};
ghost use Rattle.program_run.specs.Endings.{with_front, ending, IsDecided};
ghost use Rattle.program_run.specs.Ran.{answer_read, Ran};
ghost use Rattle.program_run.specs.Trials.{bad_last, trial_shown, trial_lines};
ghost use Rattle.program_run.specs.Whole.{ReadsWhole};

use crate::last_line::{LastLine, close};
use crate::reading::INPUT_LIMIT;
use crate::status::Status;
use crate::whole::{ReadEnd, read_all, script_in};
use std::alloc::Global;
use trial_run::{TrialEnd, run_trial};
use trial_script::{Ending, read_script};
use wio_core::{Failed, NoMemory, Sink, Source, write_all};

// How the output ends where the line of the script with the number is outside the grammar, or isn't
// there.
fn bad_last(alloc: Global, cut: bool, script: &[u8], number: u64) -> Result<LastLine, NoMemory>
    ensures { IfOk result (λ last. last ≡ bad_last cut (script_of script.now).ending number) }
{
    if !cut {
        return Ok(LastLine::Bad(number));
    }
    match read_script(alloc, script)?.ending {
        Ending::Unended(_) => Ok(LastLine::Long),
        Ending::End | Ending::BadLine(_) => Ok(LastLine::Bad(number)),
    }
}

// What a script shows, and how the output ends.
fn show(alloc: Global, cut: bool, script: &[u8]) -> Result<(String, LastLine), NoMemory>
    ensures { IfOk result (λ p. with_front (string_bytes p.0) (ending p.1)
        ≡ trial_shown cut (script_of script.now)) }
{
    match run_trial(alloc, script) {
        Ok(text) => Ok((text, LastLine::Over)),
        Err(TrialEnd::BadLine(number, text)) => {
            let last = bad_last(alloc, cut, script, number)?;
            Ok((text, last))
        }
        Err(TrialEnd::JournalFull(kept, text)) => Ok((text, LastLine::Full(kept.entries))),
        Err(TrialEnd::NoMemory) => Err(NoMemory),
    }
}

// What is written for an input of which at most the limit was read, and the status.
fn trial_output(alloc: Global, cut: bool, input: &[u8]) -> Result<(String, Status), NoMemory>
    ensures answer { IfOk result (λ p. (string_bytes p.0, p.1)
        ≡ trial_lines cut (lines_of cut input.now)) }
    ensures decided { IfOk result (λ p. IsDecided p.1) }
{
    let (mut text, last) = show(alloc, cut, script_in(cut, input))?;
    let status = close(&mut text, last)?;
    Ok((text, status))
}

/// Reads a script whole, runs it, and writes what it shows.
pub fn run_script<S: Source, K: Sink>(alloc: Global, input: &mut S, output: &mut K) -> Status
    ensures ran { Ran (answer_read INPUT_LIMIT trial_lines) (S.left input.old)
        (S.fault_count input.old) (S.fault_count input.new)
        (K.held output.old) (K.held output.new)
        (K.fault_count output.old) (K.fault_count output.new) result }
    ensures script_read { (read : List ℕ)
        × TookFrom (S.given input.old) (S.given input.new)
        (S.left input.old) (S.left input.new) read
        × ReadsWhole (S.left input.old) result read }
    ensures script_unwritten { (result ≡ Status.ReadFault) ⊎ (result ≡ Status.NoMemory) →
        output.new ≡ output.old }
    ensures reads_never_fall { S.fault_count input.old ≤ S.fault_count input.new }
    ensures writes_never_fall { K.fault_count output.old ≤ K.fault_count output.new }
    ensures no_read_fault { result ≢ Status.ReadFault →
        S.fault_count input.new ≡ S.fault_count input.old }
    ensures no_write_fault { result ≢ Status.WriteFault →
        K.fault_count output.new ≡ K.fault_count output.old }
{
    let bytes = match read_all(alloc, input) {
        Ok(bytes) => bytes,
        Err(ReadEnd::ReadFault) => return Status::ReadFault,
        Err(ReadEnd::NoMemory) => return Status::NoMemory,
    };
    let cut = bytes.len() as u64 == INPUT_LIMIT;
    let (text, status) = match trial_output(alloc, cut, &bytes) {
        Ok(answer) => answer,
        Err(NoMemory) => return Status::NoMemory,
    };
    match write_all(output, text.as_bytes()) {
        Ok(()) => status,
        Err(Failed) => Status::WriteFault,
    }
}
