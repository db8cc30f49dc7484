//! The steps of a trial, each through the shared state.
ghost use Rattle.std.specs.Prelude.{◌≡◌, ℕ, ◌≤◌, true, length, take, IfOk, IfErr, OnOk};
ghost use Rattle.wl_wire.specs.Messages.{messages};
ghost use Rattle.broker_steps.specs.Ranges.{IsStep, IsPeerStep, IsBody};
ghost use Rattle.broker_model.specs.declared.journal.Entry.TheVariants as entries;
ghost use Rattle.broker_core.specs.Broker.{entry_of, peer_entry, IsSaid};
ghost use Rattle.broker_core.specs.Taking.{lives, standing_of};
ghost use Rattle.broker_core.specs.declared.taking.Standing.TheVariants.{Alive};
ghost use Rattle.trial_run.specs.Ran.{went};
ghost use Rattle.trial_run.specs.Steps.{stepped, joined, messages_sent};
ghost use Rattle.trial_run.specs.Steps.{has_stored, next_bytes};
ghost use Rattle.trial_run.specs.Working.{IsThere, IsStop, IsStepped};

use crate::stop::Stop;
use broker_core::{JoinRefusal, Refused, Shared, Standing, Took};
use broker_steps::{PeerStep, Stamp, Step};
use relay_model::Role;
use std::alloc::Global;
use wio_core::NoMemory;
use wl_wire::{Bytes, Front, Raw, front_of};

// Of a step of a trial neither moment nor author is known.
const NO_STAMP: Stamp = Stamp {
    moment: 0,
    author: 0,
};

/// A peer joins, unless as many as can be are alive.
pub(crate) fn join(shared: &mut Shared, role: Role) -> Result<(), Stop>
    ensures { IsStepped (joined role shared.old) result shared.new }
{
    match shared.join(role, NO_STAMP) {
        Ok(_) => Ok(()),
        Err(JoinRefusal::TooManyPeers(_)) => Ok(()),
        Err(JoinRefusal::JournalFull(kept)) => Err(Stop::Full(kept)),
        Err(JoinRefusal::NoMemory) => Err(Stop::NoMemory),
    }
}

/// A step of a live peer or of the shell.
pub(crate) fn step(shared: &mut Shared, step: &Step) -> Result<(), Stop>
    requires step { IsStep step.now }
    requires said { IsSaid step.now }
    requires there { IsThere step.now shared.old.journal }
    ensures { IsStepped (stepped (entry_of step.now) shared.old) result shared.new }
{
    match shared.apply(step, NO_STAMP) {
        Ok(_) => Ok(()),
        Err(Refused::JournalFull(kept)) => Err(Stop::Full(kept)),
        Err(Refused::NoMemory) => Err(Stop::NoMemory),
        Err(Refused::NoPeer | Refused::Ended(_)) => unreachable!(),
    }
}

/// The next bytes that are stored for a peer go to the front of the buffer, which has room for as
/// many as are taken at once. Answers how many they are.
pub(crate) fn take(shared: &mut Shared, number: u32, bytes: &mut [u8]) -> Result<usize, Stop>
    requires room { length bytes.old ≡ 4096 }
    requires some { has_stored number shared.old ≡ true }
    ensures count { IfOk result (λ n. n ≡ length (next_bytes number shared.old)) }
    ensures within { IfOk result (λ n. n ≤ length bytes.new) }
    ensures bytes { IfOk result (λ n. take n bytes.new ≡ next_bytes number shared.old) }
    ensures took { OnOk result (
        stepped (entries.Took number (length (next_bytes number shared.old))) shared.old
        ≡ went shared.new) }
    ensures stop { IfErr result (IsStop
        (stepped (entries.Took number (length (next_bytes number shared.old))) shared.old)) }
{
    let mut tokens = [0u32; 256];
    match shared.take(number, bytes, &mut tokens, NO_STAMP) {
        Took::Bytes(count, _) => Ok(count),
        Took::JournalFull(kept) => Err(Stop::Full(kept)),
        Took::NoMemory => Err(Stop::NoMemory),
        Took::NoPeer => unreachable!(),
        Took::Closed => unreachable!(),
        Took::Empty => unreachable!(),
    }
}

/// Whether something is stored for a peer.
#[tactic(auto, unfolding(crate::specs::Steps::has_stored))]
pub(crate) fn has_stored(shared: &Shared, number: u32) -> bool
    ensures { result ≡ has_stored number shared.now }
{
    match shared.stored(number) {
        Some(stored) => stored != 0,
        None => false,
    }
}

// Whether the peer with the number joined and is alive.
fn lives(shared: &Shared, number: u32) -> bool
    ensures value { result ≡ lives shared.now.journal number }
    ensures alive { result ≡ true → standing_of shared.now.journal number ≡ Alive }
{
    matches!(shared.standing(number), Standing::Alive)
}

// The step of a whole message.
fn message_step(alloc: Global, raw: &Raw<'_>) -> Result<PeerStep, NoMemory>
    requires size { IsBody raw.now.body.now }
    ensures entry { IfOk result (λ step. (q : ℕ) →
        peer_entry q step ≡ entries.Message q raw.now.id raw.now.opcode raw.now.body.now) }
    ensures valid { IfOk result IsPeerStep }
{
    Ok(PeerStep::Message {
        id: raw.id,
        opcode: raw.opcode,
        body: Bytes::from_slice(alloc, raw.body)?,
    })
}

/// The messages of a peer, one a step, as long as it is alive.
pub(crate) fn send_all(
    alloc: Global,
    shared: &mut Shared,
    number: u32,
    bytes: &[u8],
) -> Result<(), Stop>
    ensures { IsStepped (messages_sent number (messages bytes.now) shared.old)
        result shared.new }
{
    let mut rest = bytes;
    'messages: while let Front::Whole(raw, used) = front_of(rest) {
        let (_, more) = rest.split_at(used);
        if !lives(shared, number) {
            return Ok(());
        }
        let sent = message_step(alloc, &raw)?;
        step(shared, &Step::Peer(number, sent))?;
        rest = more;
    }
    Ok(())
}
