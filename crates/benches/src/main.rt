//! How fast the turn lock, the hub's lock and bells, and trials are:
//!
//! - `benches turn|mutex THREADS TURNS`: THREADS threads make TURNS turns each, by the turn lock or by std's mutex.
//! - `benches steps READERS STEPS`: READERS threads, one a peer, each make STEPS steps that tell nobody anything; how many a
//!   second all make.
//! - `benches wake WRITERS ROUNDS GAP`: WRITERS threads sleep, one a peer. In each of ROUNDS rounds each is woken once, GAP
//!   microseconds after the one before, by a step that tells its peer 24 bytes; the time from the step to the write into the
//!   writer's sink.
//! - `benches idle WRITERS SECONDS`: WRITERS threads sleep so long. What it costs is measured from outside.
//! - `benches threads|alone FIELDS ACTIONS RUNS`: RUNS trials, each in threads or in one, of a drawn script of so many fields
//!   and actions.
//! - `benches hold MILLIS`: one trial in threads; the first edit of its first field is held so long. What it costs is measured
//!   from outside.
//!
//! With no words it does a little of each, and prints what is the same on every run.
#![tactic(auto)]

mod clock;
mod peers;
mod trials;
mod turns;
mod waking;

use clock::since;
use std::sync::Wait;
use std::thread::Threads;
use std::time::{Clock, Instant};
use std::{env, io};
use trials::{logs_of, play_often, script_of};
use waking::Rounds;

// Turns by a lock.
fn turn<R: Threads + Wait + Clock + Print + AllocGlobal + Sync>(
    rt: &R,
    word: &str,
    threads: u64,
    turns: u64,
) -> io::Result<()> {
    let start = Instant::now(rt)?;
    let threads = threads.min(1_000) as u32;
    let made = if word == "turn" {
        turns::race(rt, rt.alloc(), threads, turns)
    } else {
        turns::race_mutex(rt, rt.alloc(), threads, turns)
    };
    let nanos = since(rt, &start);
    println!(rt;
        "{word} {threads} threads, {} turns, {nanos} ns",
        made.unwrap_or(0)
    )
}

// Steps of readers.
fn steps<R: Threads + Wait + Clock + Print + AllocGlobal + Sync>(
    rt: &R,
    readers: u64,
    each: u64,
) -> io::Result<()> {
    let start = Instant::now(rt)?;
    let raced = peers::race(rt, rt.alloc(), &start, readers, each);
    let (made, nanos) = raced.unwrap_or((0, 0));
    let second = made.saturating_mul(1_000_000_000) / nanos.max(1);
    println!(rt; "{readers} readers, {made} steps, {second} a second")
}

// Writers that sleep.
fn wake<R: Threads + Wait + Clock + Print + AllocGlobal + Sync>(
    rt: &R,
    writers: u64,
    rounds: Rounds,
) -> io::Result<()> {
    let start = Instant::now(rt)?;
    let Some(times) = waking::times(rt, rt.alloc(), start, writers, rounds) else {
        return println!(rt; "no memory, or too many writers");
    };
    let count = times.len();
    let half = times.get(count / 2).copied().unwrap_or(0);
    let most = times
        .get(count.saturating_mul(99) / 100)
        .copied()
        .unwrap_or(0);
    println!(rt; "{writers} writers, {count} frames, p50 {half} ns, p99 {most} ns")
}

// Trials of a script.
fn run_trials<R: Threads + Wait + Clock + Print + AllocGlobal + Copy + Sync>(
    rt: &R,
    word: &str,
    fields: u64,
    actions: u64,
    runs: u64,
) -> io::Result<()> {
    let actions = actions.min(1_000_000) as u32;
    let script = script_of(rt.alloc(), fields.min(16) as u32, actions)?;
    let start = Instant::now(rt)?;
    let played = play_often(rt, rt.alloc(), script.as_str(), word == "threads", runs);
    let nanos = since(rt, &start);
    let made = played.saturating_mul(actions as u64);
    let second = made.saturating_mul(1_000_000_000) / nanos.max(1);
    println!(rt; "{fields} fields, {made} actions, {second} a second")
}

// A trial of four fields, one of which is held so long.
fn hold<R: Threads + Wait + Clock + Print + AllocGlobal + Copy + Sync>(
    rt: &R,
    millis: u64,
) -> io::Result<()> {
    let script = script_of(rt.alloc(), 4, 400)?;
    let logs = logs_of(rt, rt.alloc(), script.as_str(), millis);
    println!(rt; "{logs} logs")
}

// A little of each.
fn few<R: Threads + Wait + Clock + Print + AllocGlobal + Copy + Sync>(rt: &R) -> io::Result<()> {
    let turns = turns::race(rt, rt.alloc(), 4, 1000).unwrap_or(0);
    println!(rt; "4 threads made {turns} turns")?;
    let start = Instant::now(rt)?;
    let (steps, _) = peers::race(rt, rt.alloc(), &start, 4, 1000).unwrap_or((0, 0));
    println!(rt; "4 readers made {steps} steps")?;
    hold(rt, 0)
}

fn number(word: Option<String>) -> u64 {
    match word {
        Some(word) => word.parse::<u64>().unwrap_or(0),
        None => 0,
    }
}

fn main(rt: HostRuntime) -> io::Result<()> {
    let mut words = env::args(&rt)?;
    let _program = words.next();
    let Some(word) = words.next() else {
        return few(&rt);
    };
    let first = number(words.next());
    let second = number(words.next());
    let third = number(words.next());
    match word.as_str() {
        "turn" | "mutex" => turn(&rt, word.as_str(), first, second),
        "steps" => steps(&rt, first, second),
        "wake" => {
            let rounds = Rounds {
                count: second,
                gap: third,
                seconds: 0,
            };
            wake(&rt, first, rounds)
        }
        "idle" => {
            let rounds = Rounds {
                count: 0,
                gap: 0,
                seconds: second,
            };
            wake(&rt, first, rounds)
        }
        "threads" | "alone" => run_trials(&rt, word.as_str(), first, second, third),
        "hold" => hold(&rt, first),
        _ => println!(rt; "benches turn|mutex|steps|wake|idle|threads|alone|hold NUMBER .."),
    }
}
