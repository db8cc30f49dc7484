//! A line, and how it is read.
ghost use Rattle.std.specs.Prelude.{◌≡◌, ◌≢◌, ◌==◌, map, IfOk};
ghost use Rattle.std.specs.List.{slice_split};
ghost use Rattle.session_text.specs.declared.line.BadLine.TheVariants.{NoMemory};
ghost use Rattle.session_text.specs.Grammar.{IsLine};
ghost use Rattle.session_text.specs.Laws.{ReadsOnlySpellings, ReadsEachSpelling};
ghost use Rattle.session_text.specs.Reading as reading;
ghost use Rattle.session_text.specs.Worked.{WorkedLines, WorkedStamps, OtherLines};

use crate::act_line::read_act;
use crate::cutting::{MOST_WORDS, all_words, cut_words};
use crate::session_line::read_session;
use crate::stamped_line::{read_link, read_session_2};
use crate::usual_line::{usual_act, usual_line};
use broker_steps::{Limits, ShellStep, Stamp, TokenList};
use relay_model::{Act, Role};
use std::alloc::{AllocError, Global};
use thiserror::Error;
use wl_wire::Bytes;

/// The most bytes of a line, without its line feed. A longer one is in no grammar.
pub const LINE_LIMIT: usize = 8400;

/// The kind of text that a line stands in, which decides what its words mean.
#[derive(Clone, Copy, Debug, PartialEq, Eq)]
pub enum Form {
    /// An act list: each line is an act, whose objects are named by their labels.
    Acts,
    /// A session of form 1: its header, lines of peers and of the shell, and its end.
    Session,
    /// A session of form 2: its header, such lines, tokens and moments, each behind its stamp, and
    /// its end.
    Session2,
    /// A shell link: lines of the shell alone.
    Shell,
}

/// What a line says.
#[derive(Debug, Drop)]
pub enum Line {
    /// The header of a session, which comes first: its limits. Form 1 allows 1,000,000 entries at
    /// most, and a weight of 134,217,728, which its header doesn't say.
    Header(Limits),
    /// An act of an act list.
    Act(Act),
    /// A line of a session of form 1 after its header.
    Session(SessionLine),
    /// A line of a session of form 2 after its header: when it came and through which link, and
    /// what it says.
    Stamped(Stamp, SessionLine),
    /// A line of a shell link.
    Shell(ShellStep),
    /// The list or the session ends here.
    End,
}

/// A line of a session between its header and its end. Peers are numbered from 1 in the order in
/// which they join.
#[derive(Debug, Drop)]
pub enum SessionLine {
    /// A peer joins.
    Join(Role),
    /// The peer of that number sends bytes: 1 to 4,096, wherever they cut its messages.
    Bytes(u32, Bytes),
    /// The link of the peer of that number ends.
    Gone(u32),
    /// The peer of that number takes so many of the bytes that are stored for it, or all where
    /// there are fewer: 1 to 4,096.
    Take(u32, u32),
    /// The peer of that number sends the tokens of descriptors: 1 to 256. Form 1 has none.
    Tokens(u32, TokenList),
    /// The shell says something. Form 1 has no moments.
    Shell(ShellStep),
}

/// Why bytes give no line.
#[derive(Clone, Copy, Debug, PartialEq, Eq, Error)]
pub enum BadLine {
    /// The form has no line of these bytes.
    #[error("the form has no such line")]
    Grammar,
    /// There was no memory for the line's words or for its text.
    #[error("there was no memory")]
    NoMemory,
}

impl From<AllocError> for BadLine {
    ghost from_gives = { λ _ e. e ≡ NoMemory };

    fn from(_: AllocError) -> Self {
        BadLine::NoMemory
    }
}

impl From<wl_wire::NoMemory> for BadLine {
    ghost from_gives = { λ _ e. e ≡ NoMemory };

    fn from(_: wl_wire::NoMemory) -> Self {
        BadLine::NoMemory
    }
}

fn is_end(words: &[&[u8]]) -> bool
    ensures { result ≡ reading.is_end (map (λ w. w.now) words.now) }
{
    match words {
        [word] => *word == b"end".as_slice(),
        _ => false,
    }
}

fn read_words(alloc: Global, form: Form, words: &[&[u8]]) -> Result<Line, BadLine>
    ensures { reading.Reads result (reading.line_of_words form (map (λ w. w.now) words.now)) }
{
    match form {
        Form::Acts if is_end(words) => Ok(Line::End),
        Form::Acts => Ok(Line::Act(read_act(alloc, words)?)),
        Form::Session => read_session(alloc, words),
        Form::Session2 => read_session_2(alloc, words),
        Form::Shell => Ok(Line::Shell(read_link(words)?)),
    }
}

// A line of form 2, which has as many words as it has tokens and some more.
#[inline(never)]
fn read_many(alloc: Global, line: &[u8]) -> Result<Line, BadLine>
    ensures { reading.Reads result (reading.line_of_words Form.Session2
        (slice_split (λ b. b == 32) line.now)) }
{
    let words = all_words(alloc, line)?;
    read_session_2(alloc, words.as_slice())
}

// A line of another form, which has eight words at most. Stands apart, so that a line that comes
// often makes no room for words.
#[inline(never)]
fn read_few(alloc: Global, form: Form, line: &[u8]) -> Result<Line, BadLine>
    requires { form ≢ Form.Session2 }
    ensures { reading.Reads result (reading.line_of_words form
        (slice_split (λ b. b == 32) line.now)) }
{
    let mut words = [line; MOST_WORDS];
    let Some(count) = cut_words(line, &mut words) else {
        return Err(BadLine::Grammar);
    };
    read_words(alloc, form, &words[..count])
}

// The line of the bytes, of which there may be any number.
fn read_split(alloc: Global, form: Form, line: &[u8]) -> Result<Line, BadLine>
    ensures { reading.Reads result (reading.line_of_words form
        (slice_split (λ b. b == 32) line.now)) }
{
    match form {
        Form::Acts => match usual_act(alloc, line) {
            Some(act) => Ok(Line::Act(act)),
            None => read_few(alloc, form, line),
        },
        Form::Session => match usual_line(line) {
            Some(said) => Ok(Line::Session(said)),
            None => read_few(alloc, form, line),
        },
        Form::Session2 => read_many(alloc, line),
        Form::Shell => read_few(alloc, form, line),
    }
}

/// Reads a line without its line feed. `Grammar` comes exactly where the form has no such line.
/// Words are separated by one space. Numbers are decimal, in the range of their type, without a
/// leading zero, and only those with a sign may begin with `-`. A text is pairs of lower-case hex
/// digits, or `-` where it is empty, and they give UTF-8 without a zero byte: at most 4,083 bytes
/// in `mstring`, 4,075 in `surround` and `mpreedit`. A `bytes` line has 1 to 4,096 bytes in the
/// same digits, and they may be any. Moments and authors are numbers below 2^64. A session's header
/// is a line wherever it stands.
#[tactic(auto, unfolding(crate::specs::Reading::line_of))]
pub fn read_line(alloc: Global, form: Form, line: &[u8]) -> Result<Line, BadLine>
    ensures exact { reading.Reads result (reading.line_of form line.now) }
    ensures valid { IfOk result (IsLine form) }
{
    if line.len() > LINE_LIMIT {
        return Err(BadLine::Grammar);
    }
    read_split(alloc, form, line)
}

/// A law without work: bytes that read as a line are its one spelling, and each line's spelling
/// reads as that line.
pub fn one_spelling()
    ensures only { ReadsOnlySpellings }
    ensures each { ReadsEachSpelling }
{}

/// A law without work: what the definitions read from worked lines is what was worked out by hand.
pub fn worked_lines()
    ensures lines { WorkedLines }
    ensures stamps { WorkedStamps }
    ensures others { OtherLines }
{}
