//! The line of an entry.
ghost use Rattle.std.specs.Prelude.{◌≡◌, ◌++◌, length, IfOk, OnOk};
ghost use Rattle.std.specs.List.{flat_map};
ghost use Rattle.broker_model.specs.declared.journal.Entry.TheVariants as entries;
ghost use Rattle.broker_steps.specs.Messages.{IsBad};
ghost use Rattle.broker_steps.specs.Ranges.{token_limit, IsBody, IsStep, IsWithin};
ghost use Rattle.hub_lock.specs.Steps.{FitsLine};
ghost use Rattle.session_text.specs.Steps.{step_line};
ghost use Rattle.serve_record.specs.Recorded.{entry_lines};
ghost use Rattle.serve_record.specs.Lines.{lines_of, FitsIfAny, stamped_text};

use broker_model::Entry;
use broker_steps::{Bytes, EndCause, PeerStep, Stamp, Step, TokenList};
use lines_transcript::print_stamped;
use std::alloc::Global;
use wio_core::NoMemory;

// A message as a step. `NoMemory` is its one error.
fn message(
    alloc: Global,
    peer: u32,
    id: u32,
    opcode: u16,
    body: &Bytes,
) -> Result<Option<Step>, NoMemory>
    requires { IsBody body.now }
    ensures lines { IfOk result (λ step.
        entry_lines (entries.Message peer id opcode body.now) ≡ lines_of step) }
    ensures fits { IfOk result FitsIfAny }
{
    let body = body.copy(alloc)?;
    Ok(Some(Step::Peer(peer, PeerStep::Message { id, opcode, body })))
}

// `NoMemory` is its one error.
fn tokens(alloc: Global, peer: u32, tokens: &TokenList) -> Result<Option<Step>, NoMemory>
    requires { IsWithin token_limit (length tokens.now) }
    ensures lines { IfOk result (λ step.
        entry_lines (entries.Tokens peer tokens.now) ≡ lines_of step) }
    ensures fits { IfOk result FitsIfAny }
{
    Ok(Some(Step::Peer(peer, PeerStep::Tokens(tokens.copy(alloc)?))))
}

fn bad_size(peer: u32, head: &[u8; 8]) -> Option<Step>
    requires { IsBad head.now }
    ensures lines { entry_lines (entries.BadSize peer head.now) ≡ lines_of result }
    ensures fits { FitsIfAny result }
{
    Some(Step::Peer(peer, PeerStep::BadSize { head: *head }))
}

// The end of a peer has a line where its link ended.
fn end(peer: u32, cause: EndCause) -> Option<Step>
    ensures lines { entry_lines (entries.End peer cause) ≡ lines_of result }
    ensures fits { FitsIfAny result }
{
    match cause {
        EndCause::Gone => Some(Step::Peer(peer, PeerStep::Gone)),
        EndCause::Bad | EndCause::Full => None,
    }
}

// The entry as a step that a line gives; none, where it follows from the steps before it. `NoMemory` is
// its one error.
fn step_of(alloc: Global, entry: &Entry) -> Result<Option<Step>, NoMemory>
    requires { FitsLine entry.now }
    ensures lines { IfOk result (λ step. entry_lines entry.now ≡ lines_of step) }
    ensures fits { IfOk result FitsIfAny }
{
    match entry {
        Entry::Join(role) => Ok(Some(Step::Join(*role))),
        Entry::Message {
            peer,
            id,
            opcode,
            body,
        } => message(alloc, *peer, *id, *opcode, body),
        Entry::Tokens { peer, tokens: list } => tokens(alloc, *peer, list),
        Entry::BadSize { peer, head } => Ok(bad_size(*peer, head)),
        Entry::End { peer, cause } => Ok(end(*peer, *cause)),
        Entry::Shell(step) => Ok(Some(Step::Shell(*step))),
        Entry::Took { peer, bytes } => Ok(Some(Step::Take(*peer, *bytes))),
    }
}

// Adds a step's line behind its stamp. `NoMemory` is its one error.
fn add_step(alloc: Global, text: &mut Vec<u8>, stamp: Stamp, step: &Step) -> Result<(), NoMemory>
    requires { IsStep step.now }
    ensures { OnOk result (text.new.items
        ≡ text.old.items ++ stamped_text stamp (step_line step.now)) }
{
    let line = print_stamped(alloc, stamp, step)?;
    text.extend_from_slice(line.as_bytes())?;
    text.push(b'\n')?;
    Ok(())
}

/// Adds the line of an entry behind its stamp, if it has one. `NoMemory` is its one error.
pub(crate) fn add_entry(
    alloc: Global,
    text: &mut Vec<u8>,
    stamp: Stamp,
    entry: &Entry,
) -> Result<(), NoMemory>
    requires { FitsLine entry.now }
    ensures { OnOk result (text.new.items
        ≡ text.old.items ++ flat_map (stamped_text stamp) (entry_lines entry.now)) }
{
    match step_of(alloc, entry)? {
        Some(step) => add_step(alloc, text, stamp, &step),
        None => Ok(()),
    }
}
