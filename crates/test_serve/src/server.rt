//! Runs of the server over links in memory and over Unix sockets, and replays of what it records.
use crate::board::{Board, Hold, Output};
use program_run::run_plain;
use serve_net::{MemIn, MemNet, MemOut, MemSink, MemSource};
use serve_run::{ServeStatus, run_serve};
use serve_unix::{LinkJob, ThreadSpawner, UnixNet, UnixSink, UnixSource, begin_job};
use std::alloc::{AllocError, Global};
use std::fs::{File, Files};
use std::net::Net;
use std::sync::atomic::{AtomicU64, Ordering};
use std::sync::{Arc, Wait};
use std::test::Fail;
use std::thread::Threads;

/// The most bytes that an output holds.
const ROOM: usize = 4_194_304;

/// The words of a text, which blanks part.
pub(crate) fn words(alloc: Global, text: &str) -> Result<Vec<String>, AllocError> {
    let mut words = Vec::new(alloc);
    for word in text.split(' ') {
        words.push(String::from_str(alloc, word)?)?;
    }
    Ok(words)
}

/// A gate that holds so, and an output where the writes with these numbers fail.
pub(crate) fn output_of(alloc: Global, hold: Hold, fail: &[u64]) -> Result<Output, Fail> {
    Ok(Output {
        board: Arc::new(alloc, Board::new(hold))?,
        sink: MemSink::new(alloc, ROOM, fail.to_vec(alloc)?)?,
    })
}

/// Serves the net in memory by the words, where the starts of jobs with these numbers, counted from 1, are refused.
pub(crate) fn serve_mem<R: Threads + Wait + Copy + Send + Sync + 'static>(
    rt: R,
    alloc: Global,
    words: &[String],
    net: &mut MemNet,
    starts: &[u64],
    board: &Arc<Board, Global>,
    output: &mut Output,
) -> ServeStatus {
    let next = AtomicU64::new(1);
    let mut spawner = ThreadSpawner::new(rt, alloc, |job: LinkJob<MemIn, MemOut, Board>| {
        let number = next.fetch_add(1, Ordering::SeqCst);
        if starts.contains(&number) {
            return Err(job);
        }
        begin_job(rt, alloc, job)
    });
    run_serve(&rt, alloc, words, net, &mut spawner, board, output)
}

/// The same at Unix sockets.
pub(crate) fn serve_unix<
    R: Threads + Wait + Files<File = File> + Net + Copy + Send + Sync + 'static,
>(
    rt: R,
    alloc: Global,
    words: &[String],
    net: &mut UnixNet<R>,
    starts: &[u64],
    board: &Arc<Board, Global>,
    output: &mut Output,
) -> ServeStatus {
    let next = AtomicU64::new(1);
    let mut spawner = ThreadSpawner::new(rt, alloc, |job: LinkJob<UnixSource, UnixSink, Board>| {
        let number = next.fetch_add(1, Ordering::SeqCst);
        if starts.contains(&number) {
            return Err(job);
        }
        begin_job(rt, alloc, job)
    });
    run_serve(&rt, alloc, words, net, &mut spawner, board, output)
}

/// The transcript of a recorded session.
pub(crate) fn replay(alloc: Global, session: &[u8]) -> Result<MemSink, Fail> {
    let mut input = MemSource::new(session.to_vec(alloc)?, 4096, Vec::new(alloc));
    let mut transcript = MemSink::new(alloc, ROOM, Vec::new(alloc))?;
    let words = words(alloc, "replay")?;
    let _status = run_plain(alloc, &words, &mut input, &mut transcript);
    Ok(transcript)
}
