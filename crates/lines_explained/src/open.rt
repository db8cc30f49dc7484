//! The newest entry, whose line isn't finished: what its act changes is seen when the next one comes.
ghost use Rattle.std.specs.Prelude.{◌≡◌, ◌++◌, ℕ, List, [], false, OnOk, string_bytes};
ghost use Rattle.lines_explained.specs.KeyWay.{key_before};
ghost use Rattle.relay_model.specs.declared.act.Act.{Act};
ghost use Rattle.relay_core.specs.Stands.{StandsFor};
ghost use Rattle.lines_explained.specs.Explained.{fate_before, batch_words, end_words, is_nobody};
ghost use Rattle.lines_explained.specs.Explained.{first_words, begun_with, begun_of};
ghost use Rattle.lines_explained.specs.Explained.{passed_since, put_since, peers_after};
ghost use Rattle.lines_explained.specs.Explained.{head_source, source_of};

use crate::key_way::{KeySent, add_key_end, key_before};
use crate::lack::{add_lack, lack_of};
use crate::{Outcome, Source, add_changes, add_outcome, begin_line, outcome_of};
use broker_core::Entry;
use relay_core::Relay;
use relay_model::Act;
use relay_reasons::{BatchFate, Seat, batch_fate};
use wio_core::NoMemory;

/// What is known of the newest entry before its act is taken, and what was watched since.
#[derive(Clone, Copy)]
pub(crate) struct Open {
    pub before: Seat,
    /// Of a commit of a method: what its batch comes to on the relay.
    pub fate: Option<BatchFate>,
    /// Of a key that isn't refused.
    pub sent: Option<KeySent>,
    /// The shell was told a key.
    pub was_passed: bool,
    /// A group was put.
    pub was_put: bool,
}

/// How many peers joined, modulo 2^32, after an entry.
pub(crate) fn peers_after(entry: &Entry, peers: u32) -> u32
    ensures { result ≡ peers_after entry.now peers }
{
    match entry {
        Entry::Join(_) => peers.wrapping_add(1),
        _ => peers,
    }
}

// Whose a header is, and what it tells.
fn head_source(peer: u32, head: [u8; 8]) -> Source
    ensures { result ≡ head_source peer head }
{
    Source::Head {
        peer,
        id: u32::from_le_bytes([head[0], head[1], head[2], head[3]]),
        opcode: head[4] as u16 + 256 * head[5] as u16,
        size: head[6] as u16 + 256 * head[7] as u16,
    }
}

/// Whose entry it is, after which so many peers joined.
pub(crate) fn source_of(entry: &Entry, peers: u32) -> Source
    ensures { result ≡ source_of entry.now peers }
{
    match entry {
        Entry::Join(_) => Source::Peer(peers),
        Entry::Message {
            peer,
            id,
            opcode,
            ..
        } => Source::Object {
            peer: *peer,
            id: *id,
            opcode: *opcode,
        },
        Entry::Tokens { peer, .. } => Source::Peer(*peer),
        Entry::BadSize { peer, head } => head_source(*peer, *head),
        Entry::End { peer, .. } => Source::Peer(*peer),
        Entry::Shell(_) => Source::Shell,
        Entry::Took { peer, .. } => Source::Peer(*peer),
    }
}

/// What the batch comes to that the act commits, which the relay is about to take; no other act
/// commits one.
pub(crate) fn fate_before(relay: &Relay, act: &Act) -> Option<BatchFate>
    ensures { (log : List Act) → StandsFor relay.now log → result ≡ fate_before act.now log }
{
    match act {
        Act::MCommit { method, serial } => Some(batch_fate(relay, *method, *serial)),
        _ => None,
    }
}

/// What is known of the entry, whose act the relay is about to take.
pub(crate) fn opening_of(relay: &Relay, act: &Act, before: Seat) -> Open
    ensures before { result.before ≡ before }
    ensures fate { (log : List Act) → StandsFor relay.now log →
        result.fate ≡ fate_before act.now log }
    ensures sent { (log : List Act) → StandsFor relay.now log →
        result.sent ≡ key_before act.now log }
    ensures passed { result.was_passed ≡ false }
    ensures put { result.was_put ≡ false }
{
    Open {
        before,
        fate: fate_before(relay, act),
        sent: key_before(relay, act),
        was_passed: false,
        was_put: false,
    }
}

/// Begins the line of an entry whose act the relay is about to take; so many peers joined after it.
pub(crate) fn begin_entry(
    line: &mut String,
    number: u32,
    peers: u32,
    entry: &Entry,
    act: &Act,
    relay: &Relay,
) -> Result<(), NoMemory>
    ensures { (log : List Act) → StandsFor relay.now log → OnOk result (string_bytes line.new
        ≡ first_words number peers entry.now act.now log) }
{
    begin_line(line, number, source_of(entry, peers), act)?;
    add_lack(line, lack_of(relay, entry, act))
}

/// The newest entry, of which the shell was told a key.
pub(crate) fn passed_since(newest: Option<Open>) -> Option<Open>
    ensures { (line : List ℕ) → begun_of line result ≡ passed_since (begun_of line newest) }
{
    let newest = newest?;
    Some(Open {
        was_passed: true,
        ..newest
    })
}

/// The newest entry, of which a group was put.
pub(crate) fn put_since(newest: Option<Open>) -> Option<Open>
    ensures { (line : List ℕ) → begun_of line result ≡ put_since (begun_of line newest) }
{
    let newest = newest?;
    Some(Open {
        was_put: true,
        ..newest
    })
}

/// The batch, if there is one, reached nobody.
pub(crate) fn is_nobody(fate: Option<BatchFate>, was_put: bool) -> bool
    ensures { result ≡ is_nobody fate was_put }
{
    match fate {
        Some(fate) => match outcome_of(fate, was_put) {
            Outcome::ReachedNobody(_) => true,
            Outcome::Queued { .. } => false,
        },
        None => false,
    }
}

fn add_batch(line: &mut String, fate: Option<BatchFate>, was_put: bool) -> Result<(), NoMemory>
    ensures { OnOk result (string_bytes line.new ≡ string_bytes line.old ++
        batch_words fate was_put) }
{
    match fate {
        Some(fate) => add_outcome(line, outcome_of(fate, was_put)),
        None => Ok(()),
    }
}

/// Ends a line: what came of a batch, where a key went, and what changed of the seat.
pub(crate) fn add_end(line: &mut String, newest: Open, after: Seat) -> Result<(), NoMemory>
    ensures { OnOk result (string_bytes line.new ≡ string_bytes line.old ++
        end_words (begun_with [] newest) after) }
{
    add_batch(line, newest.fate, newest.was_put)?;
    add_key_end(line, newest.sent, newest.was_passed, newest.was_put)?;
    add_changes(line, newest.before, after)?;
    line.push('\n')?;
    Ok(())
}
