//! The peers that may have something to take, so that a look for them passes over those that came
//! and went.
ghost use Rattle.std.specs.Prelude.{◌≡◌, ℕ, ◌<◌, drop, false, MatchBool, length, []};
ghost use Rattle.broker_model.specs.Resolve.{past_of};
ghost use Rattle.broker_core.specs.Broker.{Broker};
ghost use Rattle.c_broker.specs.Open.{IsDone, IsOpen, Rise, has};
ghost use Rattle.c_broker.specs.Seated.{IsReady};

use broker_core::{Shared, Standing};
use std::alloc::Global;

/// Of the first `seen` peers that joined, the numbers of those that live or have bytes stored,
/// rising. Others stand among them until `tidy` drops them.
#[derive(Drop)]
pub(crate) struct OpenPeers {
    pub(crate) numbers: Vec<u32>,
    pub(crate) seen: u32,
    // How many times a peer came or went since then.
    changes: usize,
}

// Whether the peer hasn't ended, or something is stored for it.
fn is_open(shared: &Shared, number: u32) -> bool
    ensures { MatchBool result (Unit {0}) (IsDone shared.now number) }
{
    match shared.standing(number) {
        Standing::Over(_) => shared.stored(number).unwrap_or(1) > 0,
        _ => true,
    }
}

// The place of the first number above the given one.
fn first_above(numbers: &[u32], after: u32) -> usize
    ensures rise { (low high : ℕ) → Rise low numbers.now high →
        Rise after (drop result numbers.now) high }
    ensures passed { (low high q : ℕ) → Rise low numbers.now high → after < q →
        has q (drop result numbers.now) ≡ false → has q numbers.now ≡ false }
{
    numbers.partition_point(|number| *number <= after)
}

// The lowest number of all peers above `after` for which bytes are stored; 0 where there is none.
fn first_of_all(shared: &Shared, after: u32) -> u32
    ensures { IsReady shared.now after (length (past_of shared.now.journal).joined) result }
{
    let count = shared.peers();
    let mut number = after;
    'peers: while number < count {
        number += 1;
        if shared.stored(number).unwrap_or(0) > 0 {
            return number;
        }
    }
    0
}

impl OpenPeers {
    /// Nobody joined yet. Takes no memory.
    pub(crate) fn new(alloc: Global) -> OpenPeers
        ensures numbers { result.numbers.items ≡ [] }
        ensures seen { result.seen ≡ 0 }
    {
        OpenPeers {
            numbers: Vec::new(alloc),
            seen: 0,
            changes: 0,
        }
    }

    /// So many peers joined. Those that there is no memory to note are looked at one by one.
    pub(crate) fn note(&mut self, count: u32)
        ensures { (b : Broker) → IsOpen b self.old.numbers.items self.old.seen →
            IsOpen b self.new.numbers.items self.new.seen }
    {
        'joined: while self.seen < count {
            let Ok(()) = self.numbers.push(self.seen + 1) else {
                return;
            };
            self.seen += 1;
        }
    }

    /// A peer came or went. Once that was said more often than half as many times as there are
    /// numbers, those are dropped that ended with nothing stored.
    pub(crate) fn tidy(&mut self, shared: &Shared)
        ensures { IsOpen shared.now self.old.numbers.items self.old.seen →
            IsOpen shared.now self.new.numbers.items self.new.seen }
    {
        self.changes = self.changes.saturating_add(1);
        if self.changes > self.numbers.len() / 2 {
            self.numbers.retain(|number| is_open(shared, *number));
            self.changes = 0;
        }
    }

    // The same of the first `seen` peers.
    fn first_noted(&self, shared: &Shared, after: u32) -> u32
        requires noted { IsOpen shared.now self.now.numbers.items self.now.seen }
        ensures { IsReady shared.now after self.now.seen result }
    {
        let mut place = first_above(&self.numbers, after);
        'numbers: while place < self.numbers.len() {
            let number = self.numbers[place];
            if shared.stored(number).unwrap_or(0) > 0 {
                return number;
            }
            place += 1;
        }
        0
    }

    /// The lowest number of a peer above `after` for which bytes are stored; 0 where there is none.
    pub(crate) fn first(&self, shared: &Shared, after: u32) -> u32
        requires noted { IsOpen shared.now self.now.numbers.items self.now.seen }
        ensures { IsReady shared.now after (length (past_of shared.now.journal).joined) result }
    {
        let noted = self.first_noted(shared, after);
        if noted > 0 {
            return noted;
        }
        first_of_all(shared, after.max(self.seen))
    }
}
