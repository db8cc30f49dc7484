//! Threads that race for a turn lock, or for std's mutex, around a sum.
ghost use Rattle.std.specs.Prelude.{◌≡◌, ◌+◌, ◌<◌, ◌^◌, []};
ghost use Rattle.hub_lock.specs.Sights.{after_split};

use hub_lock::{Seat, Story, Turn};
use std::alloc::Global;
use std::sync::{Mutex, Wait};
use std::thread::{Threads, map_indices, map_vec};

/// What a turn adds.
#[derive(Drop)]
struct Add {
    /// The number of the seat.
    number: u64,
    amount: u64,
}

/// A sum of what was added. It keeps no history.
#[derive(Drop)]
struct Counter {
    sum: u64,
}

impl Story for Counter {
    ghost use Rattle.std.specs.Prelude.{[]};

    type Constant = ();

    type Entry = u64;

    type Call = Add;

    type Reply = u64;

    ghost constant = { λ _. tt };

    ghost history = { λ _. [] };

    ghost number = { λ add. add.number };

    ghost plays = { λ _ _ _ _ _ _. Unit {0} };

    /// The sum before the play.
    fn play(&mut self, add: &mut Add) -> u64 {
        let before = self.sum;
        self.sum = before.wrapping_add(add.amount);
        before
    }

    fn length(&self) -> u64 {
        0
    }

    fn number(add: &Add) -> u64 {
        add.number
    }
}

/// What one thread has: the lock, and a seat of it.
#[derive(Drop)]
struct Racer<'a> {
    turn: &'a Turn<Counter>,
    seat: Seat<Counter>,
    ghost own: { seat.turn ≡ turn.now },
}

fn new_racer<'a>(turn: &'a Turn<Counter>, root: &mut Seat<Counter>) -> Racer<'a>
    requires own { root.old.turn ≡ turn.now }
    requires first { root.old.number ≡ 0 }
    requires room { root.old.next < 2 ^ 64 }
    ensures root { root.new ≡ after_split root.old }
{
    Racer {
        turn,
        seat: turn.split(root),
    }
}

// Adds the amount so often. The sum before the last turn.
fn add_often<R: Wait>(rt: &R, racer: Racer<'_>, amount: u64, count: u64) -> u64 {
    let Racer { turn, mut seat } = racer;
    let number = seat.number();
    let mut sum = 0u64;
    for _ in 0..count {
        sum = turn.turn(rt, &mut seat, &mut Add { number, amount });
    }
    sum
}

/// So many threads make so many turns each, by the turn lock. How many turns were made.
pub fn race<R: Threads + Wait + Sync>(
    rt: &R,
    alloc: Global,
    threads: u32,
    count: u64,
) -> Option<u64> {
    let (turn, mut root) = Turn::new(alloc, Counter { sum: 0 }).ok()?;
    let shared = &turn;
    let mut racers = Vec::new(alloc);
    for made in 0..threads {
        racers.push(new_racer(shared, &mut root)).ok()?;
    }
    map_vec(rt, racers, &|racer| add_often(rt, racer, 1, count)).ok()?;
    Some(add_often(rt, new_racer(shared, &mut root), 0, 1))
}

fn lock_often<R: Wait>(rt: &R, lock: &Mutex<Counter>, count: u64) {
    for _ in 0..count {
        let mut add = Add {
            number: 0,
            amount: 1,
        };
        lock.lock(rt).play(&mut add);
    }
}

/// The same by std's mutex.
pub fn race_mutex<R: Threads + Wait + Sync>(
    rt: &R,
    alloc: Global,
    threads: u32,
    count: u64,
) -> Option<u64> {
    let lock = Mutex::new(Counter { sum: 0 });
    let lock = &lock;
    map_indices(
        rt,
        alloc,
        threads as usize,
        &|_| lock_often(rt, lock, count),
    )
    .ok()?;
    let sum = lock.lock(rt).sum;
    Some(sum)
}
