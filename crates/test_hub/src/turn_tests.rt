//! Threads make turns, each in the order of its thread.
ghost use Rattle.std.specs.Prelude.{◌≡◌, ◌+◌, ◌<◌, ◌^◌, [], Some, IfOk};
ghost use Rattle.hub_lock.specs.Sights.{after_split, fresh_seat};

use crate::equal::equal_at;
use hub_lock::{Seat, Story, Turn};
use std::alloc::Global;
use std::sync::Wait;
use std::test::Fail;
use std::thread;
use std::thread::{Threads, map_vec};
use wio_core::NoMemory;

/// A call of a seat: the calls of each have the values from 0 on.
#[derive(Drop)]
struct Ask {
    number: u64,
    value: u64,
}

/// Counts the calls that come in their order. Each takes so many pauses, in which other threads may run.
#[derive(Drop)]
struct Log {
    next: [u64; 10],
    in_order: u64,
    pauses: u32,
}

impl Story for Log {
    ghost use Rattle.std.specs.Prelude.{[]};

    type Constant = ();

    type Entry = u64;

    type Call = Ask;

    type Reply = u64;

    ghost constant = { λ _. tt };

    ghost history = { λ _. [] };

    ghost number = { λ ask. ask.number };

    ghost plays = { λ _ _ _ _ _ _. Unit {0} };

    /// How many calls came in their order so far.
    fn play(&mut self, ask: &mut Ask) -> u64 {
        for _ in 0..self.pauses {
            thread::yield_now();
        }
        if let Some(next) = self.next.get_mut(ask.number as usize) {
            if *next == ask.value {
                *next = next.wrapping_add(1);
                self.in_order = self.in_order.wrapping_add(1);
            }
        }
        self.in_order
    }

    fn length(&self) -> u64 {
        0
    }

    fn number(ask: &Ask) -> u64 {
        ask.number
    }
}

/// What a thread has: the lock, and a seat of it.
#[derive(Drop)]
struct Racer<'a> {
    turn: &'a Turn<Log>,
    seat: Seat<Log>,
    ghost own: { seat.turn ≡ turn.now },
}

fn new_log(alloc: Global, pauses: u32) -> Result<(Turn<Log>, Seat<Log>), NoMemory>
    ensures { IfOk result (λ made. made.1 ≡ fresh_seat made.0 0 (Some tt) []) }
{
    let log = Log {
        next: [0; 10],
        in_order: 0,
        pauses,
    };
    Turn::new(alloc, log)
}

fn new_racer<'a>(turn: &'a Turn<Log>, root: &mut Seat<Log>) -> Racer<'a>
    requires own { root.old.turn ≡ turn.now }
    requires first { root.old.number ≡ 0 }
    requires room { root.old.next < 2 ^ 64 }
    ensures root { root.new ≡ after_split root.old }
{
    Racer {
        turn,
        seat: turn.split(root),
    }
}

// So many calls. How many calls of all came in their order then.
fn make_turns<R: Wait>(rt: &R, racer: Racer<'_>, count: u64) -> u64 {
    let Racer { turn, mut seat } = racer;
    let number = seat.number();
    let mut in_order = 0u64;
    for value in 0..count {
        in_order = turn.turn(rt, &mut seat, &mut Ask { number, value });
    }
    in_order
}

// So many threads race, and then one seat makes a call and comes back. How many calls came in their order.
fn race<R: Threads + Wait + Sync>(
    rt: &R,
    alloc: Global,
    threads: u32,
    pauses: u32,
    count: u64,
) -> Result<u64, Fail> {
    let (turn, mut root) = new_log(alloc, pauses)?;
    let shared = &turn;
    let mut racers = Vec::new(alloc);
    for made in 0..threads {
        racers.push(new_racer(shared, &mut root))?;
    }
    map_vec(rt, racers, &|racer| make_turns(rt, racer, count))?;
    Ok(make_turns(rt, new_racer(shared, &mut root), 1))
}

// A seat makes a call and comes back, and the lock is closed.
fn close_one<R: Wait>(rt: &R, alloc: Global) -> Result<u64, NoMemory> {
    let (turn, mut root) = new_log(alloc, 0)?;
    let mut seat = turn.split(&mut root);
    let mut ask = Ask {
        number: 1,
        value: 0,
    };
    turn.turn(rt, &mut seat, &mut ask);
    turn.meet(&mut root, seat);
    Ok(turn.close(root).in_order)
}

/// How many threads race, how many pauses a turn takes, how often each thread makes one, and how many turns come in their
/// order. Where a turn takes longer than a waiting thread looks at the lock, threads sleep for it: where one that slept
/// doesn't announce that others may sleep on, they sleep for good, and the test doesn't end.
static RACES: [(u32, u32, u64, u64); 3] = [
    (2, 0, 1000, 2001),
    (8, 0, 1000, 8001),
    (8, 400, 40, 321),
];

#[test]
fn turns_of_threads_come_in_their_order(rt: HostRuntime) -> Result<(), Fail> {
    for race_row in &RACES {
        let (threads, pauses, count, in_order) = *race_row;
        equal_at(
            &rt,
            race_row,
            race(&rt, rt.alloc(), threads, pauses, count)?,
            in_order,
        );
    }
    equal_at(&rt, &1, close_one(&rt, rt.alloc())?, 1);
    Ok(())
}
