//! The lines of a session: what each is, by the form that its header names.
ghost use Rattle.std.specs.Prelude.{◌≡◌, ◌≤◌, IfOk, IfSome, if◌then◌else◌, nat_lt, length, take};
ghost use Rattle.session_text.specs.declared.line.SessionLine.TheVariants as lines;
ghost use Rattle.program_run.specs.declared.session_line.Meaning.TheVariants as meaning;
ghost use Rattle.program_run.specs.Session.{first_stage, header_of, meaning_of, next_stage};
ghost use Rattle.program_run.specs.Session.{opening_of};

use broker_steps::{Limits, Stamp};
use session_text::{BadLine, Form, Line, SessionLine, read_line, read_piece, read_stamped_piece};
use std::alloc::Global;
use wio_core::NoMemory;

// The stamp of a line that has none.
const UNSTAMPED: Stamp = Stamp {
    moment: 0,
    author: 0,
};

/// What a line after the header is.
#[derive(Debug, Drop)]
pub enum Meaning {
    /// A line to be played, with its stamp: form 1 has none, and then both numbers are 0.
    Play(Stamp, SessionLine),
    /// The session ends.
    End,
    /// Outside the grammar, or a second header, or its moment is below that of the line before.
    Bad,
}

/// What a session's header sets.
#[derive(Clone, Copy, Debug, PartialEq, Eq)]
pub struct Opening {
    /// The form of the lines after it.
    pub form: Form,
    pub limits: Limits,
}

/// How the next line is read.
#[derive(Clone, Copy, Debug, PartialEq, Eq)]
pub struct Stage {
    pub form: Form,
    /// The moment of the line before. 0 where none came.
    pub moment: u64,
}

impl Stage {
    /// The stage behind a header of the form.
    pub fn of(form: Form) -> Stage
        ensures { result ≡ first_stage form }
    {
        Stage { form, moment: 0 }
    }

    /// The stage behind a line with this stamp.
    pub fn after(self, stamp: Stamp) -> Stage
        ensures { result ≡ next_stage self stamp }
    {
        Stage {
            form: self.form,
            moment: stamp.moment,
        }
    }
}

// A line with its stamp, unless its moment falls.
fn stamped(moment: u64, stamp: Stamp, line: SessionLine) -> Meaning
    ensures { result ≡ (if nat_lt stamp.moment moment then meaning.Bad else meaning.Play stamp
        line) }
{
    if stamp.moment < moment {
        Meaning::Bad
    } else {
        Meaning::Play(stamp, line)
    }
}

/// What a line is.
#[tactic(auto, unfolding(crate::specs::Session::meaning_of))]
pub fn judge(alloc: Global, stage: Stage, raw: &[u8]) -> Result<Meaning, NoMemory>
    ensures { IfOk result (λ meaning. meaning ≡ meaning_of stage raw.now) }
{
    match read_line(alloc, stage.form, raw) {
        Ok(Line::Session(line)) => Ok(Meaning::Play(UNSTAMPED, line)),
        Ok(Line::Stamped(stamp, line)) => Ok(stamped(stage.moment, stamp, line)),
        Ok(Line::End) => Ok(Meaning::End),
        Ok(Line::Header(_) | Line::Act(_) | Line::Shell(_)) => Ok(Meaning::Bad),
        Err(BadLine::Grammar) => Ok(Meaning::Bad),
        Err(BadLine::NoMemory) => Err(NoMemory),
    }
}

/// What the line of a peer's few bytes is, where it is played: its stamp, the peer's number, and
/// how many bytes it sent, which stand at the front of the buffer. Where it finds none, `judge`
/// says what the line is.
#[inline(always)]
#[tactic(auto, unfolding(crate::specs::Session::meaning_of))]
pub fn judge_piece(stage: Stage, raw: &[u8], piece: &mut [u8]) -> Option<(Stamp, u32, usize)>
    requires few { length piece.old ≤ 4096 }
    ensures read { IfSome result (λ found. meaning_of stage raw.now
        ≡ meaning.Play found.0 (lines.Bytes found.1 (take found.2 piece.new))) }
    ensures within { IfSome result (λ found. found.2 ≤ length piece.new) }
{
    match stage.form {
        Form::Session => {
            let (number, length) = read_piece(raw, piece)?;
            Some((UNSTAMPED, number, length))
        }
        Form::Session2 => {
            let (stamp, number, length) = read_stamped_piece(raw, piece)?;
            if stamp.moment < stage.moment {
                return None;
            }
            Some((stamp, number, length))
        }
        Form::Acts | Form::Shell => None,
    }
}

/// The limits that a line sets, if it is a header of the form.
#[tactic(auto, unfolding(crate::specs::Session::header_of))]
pub fn header(alloc: Global, form: Form, raw: &[u8]) -> Result<Option<Limits>, NoMemory>
    ensures { IfOk result (λ limits. limits ≡ header_of form raw.now) }
{
    match read_line(alloc, form, raw) {
        Ok(Line::Header(limits)) => Ok(Some(limits)),
        Ok(Line::Session(_) | Line::Stamped(..) | Line::Act(_) | Line::Shell(_) | Line::End) => Ok(
            None,
        ),
        Err(BadLine::Grammar) => Ok(None),
        Err(BadLine::NoMemory) => Err(NoMemory),
    }
}

/// The form and the limits that a line sets, if it is a header.
pub fn read_opening(alloc: Global, raw: &[u8]) -> Result<Option<Opening>, NoMemory>
    ensures { IfOk result (λ opening. opening ≡ opening_of raw.now) }
{
    if let Some(limits) = header(alloc, Form::Session, raw)? {
        let form = Form::Session;
        return Ok(Some(Opening { form, limits }));
    }
    if let Some(limits) = header(alloc, Form::Session2, raw)? {
        let form = Form::Session2;
        return Ok(Some(Opening { form, limits }));
    }
    Ok(None)
}
