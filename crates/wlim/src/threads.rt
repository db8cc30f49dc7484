//! Trials in threads.
use crate::open_gate::OpenGate;
use program_threads::{Status, run_threads};
use serve_unix::Sink;
use std::alloc::Global;
use std::sync::Wait;
use std::thread::Threads;

/// Plays the trial that the words ask for in threads, and writes what its fields show.
pub fn play_threads<R: Threads + Wait + Sync, K: Sink>(
    rt: &R,
    alloc: Global,
    words: &[String],
    output: &mut K,
) -> Status {
    run_threads(rt, alloc, words, &OpenGate, output)
}
