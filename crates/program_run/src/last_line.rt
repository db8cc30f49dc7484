//! The last line of a transcript.
ghost use Rattle.std.specs.Prelude.{◌≡◌, IfOk, string_bytes};
ghost use Rattle.program_run.specs.Endings.{ending, with_front, IsDecided};

use crate::status::Status;
use wio_core::NoMemory;

/// How a transcript ends, which decides the status.
#[derive(Clone, Copy, Debug, PartialEq, Eq)]
pub enum LastLine {
    /// `end N`: the line `end` came after so many acts or entries.
    End(u32),
    /// `end`: the line `end` of a session that is migrated, or of a script.
    Over,
    /// `end`: the line `end` of several seats, of which the journal of one was full.
    OverFull,
    /// `bad line N`: the line with that number, from 1, is outside its grammar, or isn't there.
    Bad(u64),
    /// `journal full N`: a step met a journal that is full with so many acts or counted entries.
    Full(u32),
    /// `input too long`: the limit of input bytes was taken, and no line in them decided.
    Long,
    /// `yes D`: each line of an audit is as it should be, and so many dones were counted.
    Yes(u64),
    /// `no L`: what was sent on the line with that number, from 1, isn't what was owed.
    No(u64),
}

/// Adds the last line to a transcript, and gives the status.
pub fn close(text: &mut String, last: LastLine) -> Result<Status, NoMemory>
    ensures answer { IfOk result (λ status.
        (string_bytes text.new, status) ≡ with_front (string_bytes text.old) (ending last)) }
    ensures decided { IfOk result IsDecided }
{
    match last {
        LastLine::End(n) => {
            write!(text, "end {n}\n")?;
            Ok(Status::Ok)
        }
        LastLine::Over => {
            text.push_str("end\n")?;
            Ok(Status::Ok)
        }
        LastLine::OverFull => {
            text.push_str("end\n")?;
            Ok(Status::JournalFull)
        }
        LastLine::Bad(n) => {
            write!(text, "bad line {n}\n")?;
            Ok(Status::BadSession)
        }
        LastLine::Full(n) => {
            write!(text, "journal full {n}\n")?;
            Ok(Status::JournalFull)
        }
        LastLine::Long => {
            text.push_str("input too long\n")?;
            Ok(Status::InputLong)
        }
        LastLine::Yes(n) => {
            write!(text, "yes {n}\n")?;
            Ok(Status::Ok)
        }
        LastLine::No(n) => {
            write!(text, "no {n}\n")?;
            Ok(Status::AuditNo)
        }
    }
}
