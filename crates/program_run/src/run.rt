//! The call behind all that is done with an input and an output.
ghost use Rattle.std.specs.Prelude.{◌≡◌, ◌≢◌, ◌≤◌, ◌↔◌, ℕ, List, map, Some, IfSome, string_bytes};
ghost use Rattle.std.specs.Prelude.{◌⊎◌, true, false};
ghost use Rattle.std.specs.Io.KnownBytes.{Appends};
ghost use Rattle.wio_core.specs.Io.{Rose};
ghost use Rattle.wio_core.specs.Lines.{TookFrom};
ghost use Rattle.program_run.specs.Endings.{IsDecided};
ghost use Rattle.program_run.specs.LineByLine.{LineByLine};
ghost use Rattle.program_run.specs.Ran.{GrowsByFront, Ran, answer_read};
ghost use Rattle.program_run.specs.Explain.{explain_of_lines};
ghost use Rattle.program_run.specs.Run.{is_command, status_of, output_of};
ghost use Rattle.program_run.specs.Migrates.{Migrates};
ghost use Rattle.program_run.specs.Run.{command_of, limit_of, answer_by, answer_lines};
ghost use Rattle.program_run.specs.Run.{line_command, reads_nothing, task_answer, task_of};
ghost use Rattle.program_run.specs.Whole.{ReadsWhole};

use crate::act_list::ActList;
use crate::audit::AuditPlay;
use crate::command::{Command, Task, task_of};
use crate::explain::{BadLines, EachLine, ExplainPlay};
use crate::follow::play_input;
use crate::generated::{write_counts, write_generated};
use crate::migration::Migration;
use crate::reading::{INPUT_LIMIT, MIGRATE_LIMIT};
use crate::seats::SeatsPlay;
use crate::session::SessionPlay;
use crate::status::Status;
use crate::trial::run_script;
use lines_explained::Lines;
use std::alloc::Global;
use wio_core::{NoMemory, Sink, Source};

// Explains a session.
fn explain<S: Source, K: Sink>(alloc: Global, lines: Lines, input: &mut S, output: &mut K) -> Status
    ensures ran { Ran (answer_read INPUT_LIMIT (explain_of_lines lines)) (S.left input.old)
        (S.fault_count input.old) (S.fault_count input.new)
        (K.held output.old) (K.held output.new)
        (K.fault_count output.old) (K.fault_count output.new) result }
    ensures line_by_line { (read : List ℕ)
        × TookFrom (S.given input.old) (S.given input.new)
        (S.left input.old) (S.left input.new) read
        × LineByLine INPUT_LIMIT (explain_of_lines lines) (S.left input.old) (S.left input.new)
        (K.held output.old) (K.held output.new) result read }
    ensures reads_never_fall { S.fault_count input.old ≤ S.fault_count input.new }
    ensures writes_never_fall { K.fault_count output.old ≤ K.fault_count output.new }
    ensures no_read_fault { result ≢ Status.ReadFault →
        S.fault_count input.new ≡ S.fault_count input.old }
    ensures no_write_fault { result ≢ Status.WriteFault →
        K.fault_count output.new ≡ K.fault_count output.old }
{
    match lines {
        Lines::All => {
            let mut script = ExplainPlay::new(alloc, EachLine);
            play_input(alloc, INPUT_LIMIT, &mut script, input, output)
        }
        Lines::BadOnly => {
            let mut script = ExplainPlay::new(alloc, BadLines);
            play_input(alloc, INPUT_LIMIT, &mut script, input, output)
        }
    }
}

// Plays an input by its command.
fn replay<S: Source, K: Sink>(
    alloc: Global,
    command: Command,
    input: &mut S,
    output: &mut K,
) -> Status
    ensures ran { Ran (answer_by command) (S.left input.old)
        (S.fault_count input.old) (S.fault_count input.new)
        (K.held output.old) (K.held output.new)
        (K.fault_count output.old) (K.fault_count output.new) result }
    ensures line_by_line { (read : List ℕ)
        × TookFrom (S.given input.old) (S.given input.new)
        (S.left input.old) (S.left input.new) read
        × LineByLine (limit_of command) (answer_lines command) (S.left input.old) (S.left input.new)
        (K.held output.old) (K.held output.new) result read }
    ensures reads_never_fall { S.fault_count input.old ≤ S.fault_count input.new }
    ensures writes_never_fall { K.fault_count output.old ≤ K.fault_count output.new }
    ensures no_read_fault { result ≢ Status.ReadFault →
        S.fault_count input.new ≡ S.fault_count input.old }
    ensures no_write_fault { result ≢ Status.WriteFault →
        K.fault_count output.new ≡ K.fault_count output.old }
{
    match command {
        Command::Replay => {
            let mut session = SessionPlay::new(alloc);
            play_input(alloc, INPUT_LIMIT, &mut session, input, output)
        }
        Command::Migrate => {
            let mut migration = Migration::new(alloc);
            play_input(alloc, MIGRATE_LIMIT, &mut migration, input, output)
        }
        Command::ReplayActs => match ActList::new(alloc) {
            Ok(mut acts) => play_input(alloc, INPUT_LIMIT, &mut acts, input, output),
            Err(NoMemory) => Status::NoMemory,
        },
        Command::ReplaySeats => {
            let mut seats = SeatsPlay::new(alloc);
            play_input(alloc, INPUT_LIMIT, &mut seats, input, output)
        }
        Command::Audit => {
            let mut audit = AuditPlay::new(alloc);
            play_input(alloc, INPUT_LIMIT, &mut audit, input, output)
        }
        Command::Explain(lines) => explain(alloc, lines, input, output),
    }
}

// Does what the words name.
fn run_task<S: Source, K: Sink>(alloc: Global, task: Task, input: &mut S, output: &mut K) -> Status
    ensures ran { Ran (task_answer task) (S.left input.old)
        (S.fault_count input.old) (S.fault_count input.new)
        (K.held output.old) (K.held output.new)
        (K.fault_count output.old) (K.fault_count output.new) result }
    ensures line_by_line { IfSome (line_command (Some task)) (λ command.
        (read : List ℕ)
        × TookFrom (S.given input.old) (S.given input.new)
        (S.left input.old) (S.left input.new) read
        × LineByLine (limit_of command) (answer_lines command) (S.left input.old) (S.left input.new)
        (K.held output.old) (K.held output.new) result read) }
    ensures script_read { task ≡ Task.Trial → (read : List ℕ)
        × TookFrom (S.given input.old) (S.given input.new)
        (S.left input.old) (S.left input.new) read
        × ReadsWhole (S.left input.old) result read }
    ensures script_unwritten { task ≡ Task.Trial →
        (result ≡ Status.ReadFault) ⊎ (result ≡ Status.NoMemory) → output.new ≡ output.old }
    ensures unread { reads_nothing (Some task) ≡ true → input.new ≡ input.old }
    ensures reads_never_fall { S.fault_count input.old ≤ S.fault_count input.new }
    ensures writes_never_fall { K.fault_count output.old ≤ K.fault_count output.new }
    ensures no_read_fault { result ≢ Status.ReadFault →
        S.fault_count input.new ≡ S.fault_count input.old }
    ensures no_write_fault { result ≢ Status.WriteFault →
        K.fault_count output.new ≡ K.fault_count output.old }
{
    match task {
        Task::Lines(command) => replay(alloc, command, input, output),
        Task::Trial => run_script(alloc, input, output),
        Task::Gen(number) => write_counts(alloc, number, output),
        Task::GenText(number) => write_generated(alloc, number, output),
    }
}

/// Runs the command that the words name over an input and an output: `replay` reads a session, and
/// `replay-acts` an act list of at most 100,000 acts, and each writes its transcript;
/// `replay-seats` reads the lines of several seats, and writes what each would by itself, behind
/// its number; `explain` writes a line for people of each entry of a session, and with `--bad-only`
/// those alone of batches that reached nobody; `migrate` writes a session of form 1 as one of form
/// 2; `audit` says whether what another broker sent is what it owed. These work line by line.
/// `trial` reads the whole script of a trial, runs it, and writes what it shows. `gen N` and
/// `gen N text` read nothing: they write the counts of the session of the number, and the session.
/// At most 4,294,967,296 bytes are read, and 1,073,741,824 of a session that is migrated. Always
/// returns. What status comes when is the clauses' to say; `NoMemory` alone may come at any time.
pub fn run_plain<S: Source, K: Sink>(
    alloc: Global,
    words: &[String],
    input: &mut S,
    output: &mut K,
) -> Status
    // The words are in no grammar exactly where the answer says so, and then nothing is read or
    // written.
    ensures bad_words { (result ≡ Status.BadWords) ↔
        (is_command (map string_bytes words.now) ≡ false) }
    ensures untouched { is_command (map string_bytes words.now) ≡ false → (input.new ≡ input.old) ×
        (output.new ≡ output.old) }

    // Where no fault rose and there was memory, status and output are those of words and bytes.
    ensures exact { (Rose (S.fault_count input.old) (S.fault_count input.new) → ⊥) →
        (Rose (K.fault_count output.old) (K.fault_count output.new) → ⊥) →
        (result ≢ Status.NoMemory) → IfSome (S.left input.old)
        (λ bytes. (status_of (map string_bytes words.now) bytes ≡ result) ×
        Appends (K.held output.old) (K.held output.new)
        (output_of (map string_bytes words.now) bytes)) }

    // Whatever the status, what was written is a front of that output.
    ensures front { IfSome (S.left input.old) (λ bytes.
        GrowsByFront (K.held output.old) (K.held output.new)
        (output_of (map string_bytes words.now) bytes)) }

    // A status that lines decide is that of words and bytes, and then the whole output was written.
    ensures decided { IsDecided result → IfSome (S.left input.old)
        (λ bytes. (status_of (map string_bytes words.now) bytes ≡ result) ×
        Appends (K.held output.old) (K.held output.new)
        (output_of (map string_bytes words.now) bytes)) }

    // What `migrate` writes of a session replays as that session does.
    ensures migrates { Migrates }

    // A fault has its cause.
    ensures read_fault { result ≡ Status.ReadFault →
        Rose (S.fault_count input.old) (S.fault_count input.new) }
    ensures write_fault { result ≡ Status.WriteFault →
        Rose (K.fault_count output.old) (K.fault_count output.new) }
    ensures reads_never_fall { S.fault_count input.old ≤ S.fault_count input.new }
    ensures writes_never_fall { K.fault_count output.old ≤ K.fault_count output.new }

    // No other answer hides a read or a write that failed.
    ensures no_read_fault { result ≢ Status.ReadFault →
        S.fault_count input.new ≡ S.fault_count input.old }
    ensures no_write_fault { result ≢ Status.WriteFault →
        K.fault_count output.new ≡ K.fault_count output.old }

    // For a generated session nothing is read.
    ensures unread { reads_nothing (task_of (map string_bytes words.now)) ≡ true →
        input.new ≡ input.old }

    // Of a script at most the limit is read, and all up to it unless a read fails or there is no
    // memory. After either nothing was written.
    ensures script_read { task_of (map string_bytes words.now) ≡ Some Task.Trial →
        (read : List ℕ) × TookFrom (S.given input.old) (S.given input.new)
        (S.left input.old) (S.left input.new) read
        × ReadsWhole (S.left input.old) result read }
    ensures script_unwritten { task_of (map string_bytes words.now) ≡ Some Task.Trial →
        (result ≡ Status.ReadFault) ⊎ (result ≡ Status.NoMemory) → output.new ≡ output.old }

    // Line by line: what it writes and how far it reads stands near the lines that it comes from.
    ensures line_by_line { IfSome (command_of (map string_bytes words.now)) (λ command.
        (read : List ℕ)
        × TookFrom (S.given input.old) (S.given input.new)
        (S.left input.old) (S.left input.new) read
        × LineByLine (limit_of command) (answer_lines command) (S.left input.old) (S.left input.new)
        (K.held output.old) (K.held output.new) result read) }
{
    match task_of(words) {
        Some(task) => run_task(alloc, task, input, output),
        None => Status::BadWords,
    }
}
