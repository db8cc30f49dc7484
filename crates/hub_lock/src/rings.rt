//! The bells that a step rings.
ghost use Rattle.std.specs.Prelude.{◌≡◌, ◌≢◌, ℕ};
ghost use Rattle.std.specs.Int.{bit_at};
ghost use Rattle.hub_lock.specs.Bells.{bell};

use broker_core::Watch;
use broker_model::Entry;
use relay_core::Relay;
use relay_model::{Act, Mods};

/// How many bells there are. Peers share a bell whose numbers are the same modulo this.
pub const BELLS: u32 = 64;

/// A bit for each bell that rings. It watches a step: the bells of the peers for which something is
/// put, or which end, ring, and no others.
#[derive(Drop)]
pub struct Rings {
    /// The bit with the number of a bell is set where it rings.
    pub bits: u64,
}

impl Rings {
    /// None rings.
    pub fn new() -> Rings
        ensures { result.bits ≡ 0 }
    {
        Rings { bits: 0 }
    }

    // The bell of the peer rings.
    fn ring(&mut self, peer: u32)
        ensures same { bit_at self.new.bits (bell peer) ≡ 1 }
        ensures other { (k : ℕ) → k ≢ bell peer → bit_at self.new.bits k ≡ bit_at self.old.bits k }
    {
        self.bits |= 1u64 << (peer % BELLS);
    }
}

impl Watch for Rings {
    ghost use Rattle.hub_lock.specs.Bells.{IsRungBy};

    ghost may_follow = { IsRungBy };

    fn entered(&mut self, _number: u32, entry: &Entry, _act: &Act, _relay: &Relay) {
        if let Entry::End { peer, .. } = entry {
            self.ring(*peer);
        }
    }

    fn placed(&mut self, _number: u32, _peer: u32, _id: u32, _x: i64, _y: i64) {}

    fn passed(&mut self, _number: u32, _time: u32, _key: u32, _state: u32) {}

    fn modified(&mut self, _number: u32, _mods: Mods) {}

    fn put(&mut self, _number: u32, peer: u32, _bytes: &[u8], _tokens: &[(usize, u32)]) {
        self.ring(peer);
    }
}
