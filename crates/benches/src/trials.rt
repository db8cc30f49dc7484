//! Trials of a drawn script, in threads or alone.
use hub_lock::Gate;
use rand_core::SeedableRng;
use rand_core::utils::NextWord;
use rand_pcg::Lcg64Xsh32;
use std::alloc::Global;
use std::sync::Wait;
use std::thread::Threads;
use std::time::{Clock, Duration};
use std::{io, thread};
use trial_threads::{run_trial, run_trial_threads};

/// Holds the first edit of the first field so long.
#[derive(Drop)]
struct Held<R: Clock + Drop> {
    clock: R,
    time: Duration,
}

impl<R: Clock + Drop> Gate for Held<R> {
    fn before(&self, peer: u32, step: u64) {
        if peer == 2 && step == 1 {
            thread::sleep(&self.clock, self.time);
        }
    }

    fn after(&self, _peer: u32, _step: u64) {}
}

// The line of an action that a word draws, of so many fields.
fn drawn(alloc: Global, word: u32, fields: u32) -> io::Result<String> {
    let field = (word / 256)
        .checked_rem(fields)
        .unwrap_or(0)
        .saturating_add(1);
    let value = (word / 65536) % 26;
    Ok(match word % 4 {
        0 => format!(in alloc; "use {field}\n")?,
        1 => format!(in alloc; "press {}\n", 1 + value)?,
        2 => format!(in alloc; "insert {field} {:02x}\n", 97 + value)?,
        _ => format!(in alloc; "rub {field}\n")?,
    })
}

/// So many actions of so many fields, of the four kinds that `wlim trial-threads` draws, and a letter for each of 26 keys.
pub fn script_of(alloc: Global, fields: u32, actions: u32) -> io::Result<String> {
    let mut script = String::from_str(alloc, "trial 1\n")?;
    for key in 1u32..27 {
        let line = format!(in alloc; "single {key} {:02x}\n", 96 + key)?;
        script.push_str(line.as_str())?;
    }
    let line = format!(in alloc; "fields {fields}\n")?;
    script.push_str(line.as_str())?;
    let mut words = Lcg64Xsh32::seed_from_u64(7);
    for _ in 0..actions {
        let line = drawn(alloc, words.next_word(), fields)?;
        script.push_str(line.as_str())?;
    }
    script.push_str("end\n")?;
    Ok(script)
}

/// How many logs a trial in threads gives, or 0 where it isn't played to its end. The first edit of its first field is held
/// so long.
pub fn logs_of<R: Threads + Wait + Clock + Copy + Sync>(
    rt: &R,
    alloc: Global,
    script: &str,
    millis: u64,
) -> u64 {
    let gate = Held {
        clock: *rt,
        time: Duration::from_millis(millis),
    };
    match run_trial_threads(rt, alloc, script.as_bytes(), &gate) {
        Ok(trial) => trial.logs.as_slice().len() as u64,
        Err(_) => 0,
    }
}

/// How many of so many runs of the script came to their end, each in threads or alone.
pub fn play_often<R: Threads + Wait + Clock + Copy + Sync>(
    rt: &R,
    alloc: Global,
    script: &str,
    in_threads: bool,
    runs: u64,
) -> u64 {
    let mut played = 0u64;
    for _ in 0..runs {
        let is_played = if in_threads {
            logs_of(rt, alloc, script, 0) > 0
        } else {
            run_trial(alloc, script.as_bytes()).is_ok()
        };
        if is_played {
            played = played.saturating_add(1);
        }
    }
    played
}
