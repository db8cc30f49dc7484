//! The line of a session that gives a step alone.
ghost use Rattle.std.specs.Prelude.{◌≡◌, length, IfOk, string_bytes};
ghost use Rattle.session_text.specs.declared.line.SessionLine.TheVariants as sessions;
ghost use Rattle.session_text.specs.declared.line.Line.TheVariants as lines;
ghost use Rattle.session_text.specs.declared.line.Form.TheVariants as forms;
ghost use Rattle.broker_steps.specs.Ranges.{piece_limit, token_limit};
ghost use Rattle.session_text.specs.Grammar.{spelling};
ghost use Rattle.broker_steps.specs.Ranges.{IsBody, IsPeerStep, IsShellStep, IsStep, IsWithin};
ghost use Rattle.session_text.specs.Steps.{message_bytes, peer_line, step_line};
ghost use Rattle.lines_transcript.specs.Laws.{MessagesAreWhole};
ghost use Rattle.session_text.specs.Reading as reading;
ghost use Rattle.lines_transcript.specs.Printing.{IsReadAgain, Prints};

use crate::printing::{finished, hex_of};
use crate::told_line::add_numbers;
use broker_steps::{PeerStep, ShellStep, Stamp, Step};
use itoa::Buffer;
use relay_model::Role;
use std::alloc::Global;
use wio_core::NoMemory;
use wl_wire::Text;

fn join_line(alloc: Global, role: Role) -> Result<String, NoMemory>
    ensures { IfOk result (λ s. Prints (string_bytes s) (sessions.Join role)) }
{
    match role {
        Role::App => Ok(String::from_str(alloc, "join app")?),
        Role::Method => Ok(String::from_str(alloc, "join method")?),
        Role::Keyed => Ok(String::from_str(alloc, "join keyed")?),
    }
}

fn bytes_line(alloc: Global, peer: u32, bytes: &[u8]) -> Result<String, NoMemory>
    requires { IsWithin piece_limit (length bytes.now) }
    ensures { IfOk result (λ s. Prints (string_bytes s) (sessions.Bytes peer bytes.now)) }
{
    let hex = hex_of(alloc, bytes)?;
    Ok(format!(in alloc; "bytes {peer} {hex}")?)
}

fn tokens_line(alloc: Global, peer: u32, tokens: &[u32]) -> Result<String, NoMemory>
    requires { IsWithin token_limit (length tokens.now) }
    ensures { IfOk result (λ s. Prints (string_bytes s) (sessions.Tokens peer tokens.now)) }
{
    let mut line = String::from_str(alloc, "tokens")?;
    add_numbers(&mut line, Buffer::new().format(peer), tokens)?;
    Ok(line)
}

fn gone_line(alloc: Global, peer: u32) -> Result<String, NoMemory>
    ensures { IfOk result (λ s. Prints (string_bytes s) (sessions.Gone peer)) }
{
    Ok(format!(in alloc; "gone {peer}")?)
}

fn take_line(alloc: Global, peer: u32, count: u32) -> Result<String, NoMemory>
    requires { IsWithin piece_limit count }
    ensures { IfOk result (λ s. Prints (string_bytes s) (sessions.Take peer count)) }
{
    Ok(format!(in alloc; "take {peer} {count}")?)
}

fn shell_line(alloc: Global, step: ShellStep) -> Result<String, NoMemory>
    requires { IsShellStep step }
    ensures { IfOk result (λ s. Prints (string_bytes s) (sessions.Shell step)) }
{
    match step {
        ShellStep::Focus { peer, id } => Ok(format!(in alloc; "focus {peer} {id}")?),
        ShellStep::Unfocus => Ok(String::from_str(alloc, "unfocus")?),
        ShellStep::Area { peer, id, rect } => {
            let (x, y) = (rect.x, rect.y);
            let (width, height) = (rect.width, rect.height);
            Ok(format!(in alloc; "area {peer} {id} {x} {y} {width} {height}")?)
        }
        ShellStep::Screen { size } => {
            let (width, height) = (size.width, size.height);
            Ok(format!(in alloc; "screen {width} {height}")?)
        }
        ShellStep::Key { time, key, state } => Ok(format!(in alloc; "key {time} {key} {state}")?),
        ShellStep::Mods(mods) => {
            let (depressed, latched) = (mods.depressed, mods.latched);
            let (locked, group) = (mods.locked, mods.group);
            Ok(format!(in alloc; "mods {depressed} {latched} {locked} {group}")?)
        }
        ShellStep::Keymap(keymap) => {
            let (format, token, size) = (keymap.format, keymap.token, keymap.size);
            Ok(format!(in alloc; "keymap {format} {token} {size}")?)
        }
        ShellStep::Repeat(repeat) => {
            let (rate, delay) = (repeat.rate, repeat.delay);
            Ok(format!(in alloc; "repeat {rate} {delay}")?)
        }
        ShellStep::At { moment } => Ok(format!(in alloc; "at {moment}")?),
    }
}

// A whole message: its header of two words, and its body.
fn message(alloc: Global, id: u32, opcode: u16, body: &[u8]) -> Result<Vec<u8>, NoMemory>
    requires { IsBody body.now }
    ensures { IfOk result (λ v. v.items ≡ message_bytes id opcode body.now) }
{
    let size = 8 + body.len();
    let word = 65536 * size as u32 + opcode as u32;
    let mut bytes = Vec::with_capacity(alloc, size)?;
    bytes.extend_from_slice(&id.to_le_bytes())?;
    bytes.extend_from_slice(&word.to_le_bytes())?;
    bytes.extend_from_slice(body)?;
    Ok(bytes)
}

fn peer_step_line(alloc: Global, peer: u32, step: &PeerStep) -> Result<String, NoMemory>
    requires { IsPeerStep step.now }
    ensures { IfOk result (λ s. Prints (string_bytes s) (peer_line peer step.now)) }
{
    match step {
        PeerStep::Message { id, opcode, body } => {
            let bytes = message(alloc, *id, *opcode, body.as_slice())?;
            bytes_line(alloc, peer, &bytes)
        }
        PeerStep::BadSize { head } => bytes_line(alloc, peer, head),
        PeerStep::Tokens(tokens) => tokens_line(alloc, peer, tokens.as_slice()),
        PeerStep::Gone => gone_line(alloc, peer),
    }
}

fn line_of(alloc: Global, step: &Step) -> Result<String, NoMemory>
    requires { IsStep step.now }
    ensures { IfOk result (λ s. Prints (string_bytes s) (step_line step.now)) }
{
    match step {
        Step::Join(role) => join_line(alloc, *role),
        Step::Peer(peer, step) => peer_step_line(alloc, *peer, step),
        Step::Shell(step) => shell_line(alloc, *step),
        Step::Take(peer, count) => take_line(alloc, *peer, *count),
    }
}

/// Prints the line of a session that gives the step alone, without a line feed and without a stamp:
/// a message and a bad header as the `bytes` of its peer. It is read again as that line: in form 1,
/// unless it is tokens or a moment, and in form 2 behind `0 0 `.
pub fn print_step(alloc: Global, step: &Step) -> Result<Text, NoMemory>
    requires { IsStep step.now }
    ensures value { IfOk result (λ line.
        line ≡ spelling forms.Session (lines.Session (step_line step.now))) }
    ensures read { IfOk result (IsReadAgain step.now) }
{
    let line = line_of(alloc, step)?;
    Ok(finished(line))
}

/// Prints the line of a session of form 2 that gives the step alone, behind its stamp and without a
/// line feed. It is read again as that stamp and that line.
pub fn print_stamped(alloc: Global, stamp: Stamp, step: &Step) -> Result<Text, NoMemory>
    requires { IsStep step.now }
    ensures value { IfOk result (λ line.
        line ≡ spelling forms.Session2 (lines.Stamped stamp (step_line step.now))) }
    ensures read { IfOk result (λ line. reading.line_of forms.Session2 line
        ≡ Some (lines.Stamped stamp (step_line step.now))) }
{
    let line = line_of(alloc, step)?;
    let (moment, author) = (stamp.moment, stamp.author);
    let stamped = format!(in alloc; "{moment} {author} {line}")?;
    Ok(finished(stamped))
}

/// A law without work: the bytes of a printed message are one whole message, with its id, its
/// opcode and its body.
pub fn messages_are_whole()
    ensures { MessagesAreWhole }
{}
