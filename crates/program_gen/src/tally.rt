//! Counts what is put for the peers of a generated session.
ghost use Rattle.std.specs.Prelude.{◌≡◌};
ghost use Rattle.program_gen.specs.Journals.{method_dones};
ghost use Rattle.program_gen.specs.Counts.{field_dones, activates};

use crate::events::events_in;
use broker_core::{Entry, Relay, Watch};
use relay_model::{Act, Mods};

/// The peer that has the input method, and the input method's id there.
const METHOD_PEER: u32 = 5;

const METHOD: u32 = 5;

/// The text input of each other peer.
const FIELD: u32 = 7;

/// The opcode of a done event of a text input, and of an input method.
const DONE: u16 = 5;

/// The opcode of an activate event.
const ACTIVATE: u16 = 0;

/// What was put so far. Each count stands still at the greatest `u64`, which no generated session
/// reaches.
#[derive(Clone, Copy, Debug, PartialEq, Eq)]
pub(crate) struct Tally {
    /// Done events for text inputs.
    pub dones: u64,
    /// Activate events for the input method.
    pub activates: u64,
    /// Done events for the input method.
    pub method_dones: u64,
    /// Bytes.
    pub queued: u64,
}

impl Tally {
    /// Nothing was put.
    pub(crate) fn new() -> Tally
        ensures { result ≡ record { dones = 0; activates = 0; method_dones = 0; queued = 0 } }
    {
        Tally {
            dones: 0,
            activates: 0,
            method_dones: 0,
            queued: 0,
        }
    }
}

// The done events of text inputs in bytes for the peer.
fn field_dones(peer: u32, bytes: &[u8]) -> u64
    ensures { result ≡ field_dones peer bytes.now }
{
    if peer == METHOD_PEER {
        0
    } else {
        events_in(bytes, FIELD, DONE)
    }
}

// The activate events in bytes for the peer.
fn activates(peer: u32, bytes: &[u8]) -> u64
    ensures { result ≡ activates peer bytes.now }
{
    if peer == METHOD_PEER {
        events_in(bytes, METHOD, ACTIVATE)
    } else {
        0
    }
}

// The done events of the input method in bytes for the peer.
fn method_dones(peer: u32, bytes: &[u8]) -> u64
    ensures { result ≡ method_dones peer bytes.now }
{
    if peer == METHOD_PEER {
        events_in(bytes, METHOD, DONE)
    } else {
        0
    }
}

impl Watch for Tally {
    ghost use Rattle.program_gen.specs.Tallies.{MayTally};

    ghost may_follow = { MayTally };

    fn entered(&mut self, _number: u32, _entry: &Entry, _act: &Act, _relay: &Relay) {}

    fn placed(&mut self, _number: u32, _peer: u32, _id: u32, _x: i64, _y: i64) {}

    fn passed(&mut self, _number: u32, _time: u32, _key: u32, _state: u32) {}

    fn modified(&mut self, _number: u32, _mods: Mods) {}

    fn put(&mut self, _number: u32, peer: u32, bytes: &[u8], _tokens: &[(usize, u32)]) {
        self.dones = self.dones.saturating_add(field_dones(peer, bytes));
        self.activates = self.activates.saturating_add(activates(peer, bytes));
        self.method_dones = self.method_dones.saturating_add(method_dones(peer, bytes));
        self.queued = self.queued.saturating_add(bytes.len() as u64);
    }
}
