//! The lines of an audit: its header, the lines of a session of form 2 but `take`, what the broker
//! sent, and its end.
ghost use Rattle.std.specs.Prelude.{◌≡◌, ◌++◌, MatchOption, IfOk, Some, None, codes};
ghost use Rattle.std.specs.Str.{bytes_eq};
ghost use Rattle.session_text.specs.declared.line.Form.TheVariants.{Session};
ghost use Rattle.session_text.specs.Reading.{Reads, line_of};
ghost use Rattle.audit_run.specs.Grammar.{IsAuditText};
ghost use Rattle.audit_run.specs.Reading.{audit_line_of, behind_out, is_header, sent_by, sent_of};
ghost use Rattle.audit_run.specs.Reading.{step_by, step_of};
ghost use Rattle.audit_run.specs.Laws.{ReadsOnlySpellings, ReadsEachSpelling};

use broker_steps::Stamp;
use session_text::{BadLine, Form, Line, SessionLine, read_line};
use std::alloc::Global;
use wl_proto::Bytes;

/// A line of an audit between its header and its end.
#[derive(Debug, Drop)]
pub enum AuditLine {
    /// What went into the broker: when it came and through which link, and what it says. Nobody
    /// says what is taken, so it is no `take`.
    Step(Stamp, SessionLine),
    /// The broker sent bytes to the peer of that number: 1 to 4,096, wherever they cut its messages.
    Out(u32, Bytes),
}

/// What a line of an audit says after the header.
#[derive(Debug, Drop)]
pub enum AuditText {
    /// A line that is judged.
    Line(AuditLine),
    /// The audit ends here.
    End,
}

/// Whether a line, without its line feed, is the header of an audit: `audit 1`.
pub fn read_audit_header(line: &[u8]) -> bool
    ensures { result ≡ is_header line.now }
{
    line == b"audit 1".as_slice()
}

// What stands behind `out `.
fn behind_out(line: &[u8]) -> Option<&[u8]>
    ensures { MatchOption result (behind_out line.now ≡ None) (λ rest.
        behind_out line.now ≡ Some rest.now) }
{
    match line {
        [a, b, c, d, rest @ ..] => {
            if *a == b'o' && *b == b'u' && *c == b't' && *d == b' ' {
                Some(rest)
            } else {
                None
            }
        }
        _ => None,
    }
}

// The line of a peer's bytes as one of what is sent to it.
fn sent(line: Line) -> Result<AuditText, BadLine>
    ensures { Reads result (sent_by (Some line)) }
{
    match line {
        Line::Session(SessionLine::Bytes(peer, bytes)) => {
            Ok(AuditText::Line(AuditLine::Out(peer, bytes)))
        }
        _ => Err(BadLine::Grammar),
    }
}

// A peer and bytes, which stand as in the line of a peer's bytes.
fn read_sent(alloc: Global, rest: &[u8]) -> Result<AuditText, BadLine>
    ensures { Reads result (sent_of rest.now) }
{
    let mut line = Vec::new(alloc);
    line.extend_from_slice(b"bytes ")?;
    line.extend_from_slice(rest)?;
    let line = read_line(alloc, Form::Session, &line)?;
    sent(line)
}

// A line of form 2 as one of an audit.
fn step(line: Line) -> Result<AuditText, BadLine>
    ensures { Reads result (step_by (Some line)) }
{
    match line {
        Line::Stamped(_, SessionLine::Take(..)) => Err(BadLine::Grammar),
        Line::Stamped(stamp, line) => Ok(AuditText::Line(AuditLine::Step(stamp, line))),
        Line::End => Ok(AuditText::End),
        _ => Err(BadLine::Grammar),
    }
}

fn read_step(alloc: Global, line: &[u8]) -> Result<AuditText, BadLine>
    ensures { Reads result (step_of line.now) }
{
    let line = read_line(alloc, Form::Session2, line)?;
    step(line)
}

/// Reads a line after the header, without its line feed: one of a session of form 2 after its
/// header, but no `take`; `out P HEX`, which has 1 to 4,096 bytes in lower-case hex digits; or
/// `end`. `Grammar` comes exactly where it is none of them.
#[tactic(auto, unfolding(crate::specs::Reading::audit_line_of))]
pub fn read_audit_line(alloc: Global, line: &[u8]) -> Result<AuditText, BadLine>
    ensures exact { Reads result (audit_line_of line.now) }
    ensures valid { IfOk result IsAuditText }
{
    match behind_out(line) {
        Some(rest) => read_sent(alloc, rest),
        None => read_step(alloc, line),
    }
}

/// A law without work: bytes that read as a line are its one spelling, and each line's spelling
/// reads as that line.
pub fn one_spelling()
    ensures only { ReadsOnlySpellings }
    ensures each { ReadsEachSpelling }
{}
