//! The next line of an input is read and played.
ghost use Rattle.std.specs.Prelude.{◌≡◌, ◌≢◌, ◌≤◌, Some, Err};
ghost use Rattle.wio_core.specs.Io.{Rose};
ghost use Rattle.wio_core.specs.declared.line_reader.LineStop.TheVariants.{ReadFault};
ghost use Rattle.program_run.specs.Reading.{PlaysNext};

use crate::last_line::LastLine;
use crate::script::Script;
use crate::status::Status;
use wio_core::{LineReader, NextLine, NoMemory, Source};

/// The most bytes that are read of an input that is replayed.
pub const INPUT_LIMIT: u64 = 4_294_967_296;

/// The most bytes that are read of a session that is migrated. What is written of them can be read.
pub const MIGRATE_LIMIT: u64 = 1_073_741_824;

/// Reads the next line and plays it. Tells how the output ends where the line decides it, or none
/// is left.
pub fn next_line<P: Script, S: Source>(
    script: &mut P,
    reader: &mut LineReader,
    input: &mut S,
) -> Result<Option<LastLine>, Status>
    requires { reader.old.settled ≢ Some ReadFault }
    ensures comes { PlaysNext P.answer
        (P.stands script.old) (P.stands script.new) (P.holds script.old) (P.holds script.new)
        (S.given input.old) (S.left input.old) (S.given input.new) (S.left input.new)
        reader.old reader.new result }
    ensures never_falls { S.fault_count input.old ≤ S.fault_count input.new }
    ensures cause { result ≡ Err Status.ReadFault
        → Rose (S.fault_count input.old) (S.fault_count input.new) }
    ensures no_fault { result ≢ Err Status.ReadFault
        → S.fault_count input.new ≡ S.fault_count input.old }
{
    match reader.next(input) {
        NextLine::Line(raw) => match script.line(raw) {
            Ok(end) => Ok(end),
            Err(NoMemory) => Err(Status::NoMemory),
        },
        NextLine::End | NextLine::Long => Ok(Some(script.bad_line())),
        NextLine::Limit => Ok(Some(LastLine::Long)),
        NextLine::ReadFault => Err(Status::ReadFault),
    }
}
