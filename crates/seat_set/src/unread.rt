//! The bytes of one live peer that don't make a whole message yet.
ghost use Rattle.std.specs.Prelude.{◌≡◌, ◌==◌, ◌++◌, true, position, IfOk};
ghost use Rattle.wl_wire.specs.Streams.{begun};
ghost use Rattle.broker_steps.specs.declared.step.PeerStep.TheVariants as peers;
ghost use Rattle.broker_core.specs.declared.taking.Standing.TheVariants.{Alive};
ghost use Rattle.broker_core.specs.Taking.{standing_of};
ghost use Rattle.broker_core.specs.Taking.{lives};

use broker_core::{Shared, Standing};
use broker_cutter::{Cut, Cutter};
use broker_steps::PeerStep;
use std::alloc::Global;
use wio_core::NoMemory;
use wl_wire::{Bytes, Raw};

/// What a peer sent that no step was made of yet.
#[derive(Drop)]
pub(crate) struct Unread {
    /// The peer's number.
    pub number: u32,
    pub cutter: Cutter,
}

/// What a piece of bytes gives, behind those that the peer sent before.
#[derive(Drop)]
pub(crate) enum Found {
    /// A whole message, of which so many bytes of the piece are the end.
    Message(PeerStep, usize),
    /// No step yet: all bytes wait for more.
    Nothing,
    /// A header with a bad size.
    BadSize(PeerStep),
}

// A message as a step.
fn message_step(alloc: Global, raw: &Raw<'_>) -> Result<PeerStep, NoMemory>
    ensures { IfOk result (λ step.
        step ≡ peers.Message raw.now.id raw.now.opcode raw.now.body.now) }
{
    Ok(PeerStep::Message {
        id: raw.id,
        opcode: raw.opcode,
        body: Bytes::from_slice(alloc, raw.body)?,
    })
}

impl Unread {
    ghost use Rattle.seat_set.specs.Unread.{Finds};

    /// The next step that the piece gives. `NoMemory` is its one error.
    pub(crate) fn read(&mut self, alloc: Global, piece: &[u8]) -> Result<Found, NoMemory>
        ensures number { self.new.number ≡ self.old.number }
        ensures found { IfOk result (λ found.
            Finds self.old.number (begun self.old.cutter ++ piece.now) piece.now
            found (begun self.new.cutter)) }
    {
        match self.cutter.next(piece) {
            Cut::Message(raw, used) => Ok(Found::Message(message_step(alloc, &raw)?, used)),
            Cut::Held(used) => {
                let raw = self.cutter.held();
                Ok(Found::Message(message_step(alloc, &raw)?, used))
            }
            Cut::Nothing => Ok(Found::Nothing),
            Cut::BadSize(head) => Ok(Found::BadSize(PeerStep::BadSize { head })),
        }
    }
}

/// The first place with the number.
pub(crate) fn place_of(unread: &[Unread], number: u32) -> Option<usize>
    ensures { result ≡ position (λ u. u.number == number) unread.now }
{
    unread.iter().position(|one| one.number == number)
}

/// Whether the peer with the number joined and is alive.
pub(crate) fn lives(shared: &Shared, number: u32) -> bool
    ensures value { result ≡ lives shared.now.journal number }
    ensures alive { result ≡ true → standing_of shared.now.journal number ≡ Alive }
{
    matches!(shared.standing(number), Standing::Alive)
}
