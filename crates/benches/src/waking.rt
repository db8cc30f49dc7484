//! Writers that sleep until a step tells their peers something.
ghost use Rattle.broker_steps.specs.Ranges.{IsPeerStep};

use crate::clock::since;
use crate::peers::{LIMITS, Reader, Writer, join_all, step_of};
use broker_steps::PeerStep;
use hub_lock::Hub;
use peer_link::write_peer;
use std::alloc::{AllocError, Global};
use std::sync::Wait;
use std::sync::atomic::{AtomicU64, Ordering};
use std::thread;
use std::thread::{Threads, join, map_vec};
use std::time::{Clock, Duration, Instant};
use wl_wire::{Failed, Sink};

/// `sync`, which is answered by 24 bytes.
const SYNC: &[u8] = b"\x01\0\0\0\0\0\x0c\0\x05\0\0\0";

/// How often each writer is woken, how many microseconds pass before each time, and how many seconds pass first.
#[derive(Clone, Copy)]
pub struct Rounds {
    pub count: u64,
    pub gap: u64,
    pub seconds: u64,
}

/// When the last step was made, in nanoseconds since the start, and how many frames all wrote.
#[derive(Drop)]
struct Board {
    start: Instant,
    sent: AtomicU64,
    written: AtomicU64,
}

/// A link that notes how long after the last step each frame came. It doesn't tell what that was.
#[derive(Drop)]
struct Timing<'a, R> {
    rt: &'a R,
    board: &'a Board,
    times: Vec<u64>,
}

impl<R: Clock> Sink for Timing<'_, R> {
    ghost use Rattle.std.specs.Prelude.{None};

    ghost held = { λ s. None };

    ghost fault_count = { λ s. 0 };

    fn write(&mut self, piece: &[u8]) -> Result<usize, Failed> {
        let now = since(self.rt, &self.board.start);
        let sent = self.board.sent.load(Ordering::SeqCst);
        // Without memory the time is lost.
        let _noted = self.times.push(now.saturating_sub(sent));
        self.board.written.fetch_add(1, Ordering::SeqCst);
        Ok(piece.len())
    }

    fn faults(&self) -> u64 {
        0
    }
}

// Writes until the peer has ended, and says how long after its step each frame came.
fn write_frames<R: Wait + Clock>(
    rt: &R,
    alloc: Global,
    writer: Writer<'_>,
    board: &Board,
) -> Vec<u64> {
    let Writer { hub, mut pass } = writer;
    let mut sink = Timing {
        rt,
        board,
        times: Vec::new(alloc),
    };
    let _end = write_peer(rt, hub, &mut pass, &mut sink);
    let Timing {
        rt: _,
        board: _,
        times,
    } = sink;
    times
}

// A pause, a step that tells its own peer something, and the writing of that.
fn wake_one<R: Wait + Clock>(
    rt: &R,
    reader: &mut Reader<'_>,
    step: &PeerStep,
    board: &Board,
    gap: u64,
)
    requires step { IsPeerStep step.now }
{
    thread::sleep(rt, Duration::from_micros(gap));
    let written = board.written.load(Ordering::SeqCst);
    board.sent.store(since(rt, &board.start), Ordering::SeqCst);
    if reader.hub.submit(rt, &mut reader.pass, step).is_err() {
        return;
    }
    for _ in rt.forever() {
        if board.written.load(Ordering::SeqCst) > written {
            return;
        }
        thread::yield_now();
    }
}

// Wakes all writers in turn, so often. Then all peers end, and so do their writers.
fn wake_all<R: Wait + Clock>(
    rt: &R,
    alloc: Global,
    readers: Vec<Reader<'_>>,
    board: &Board,
    rounds: Rounds,
) {
    let mut readers = readers;
    thread::sleep(rt, Duration::from_secs(rounds.seconds));
    if let Some(step) = step_of(alloc, SYNC) {
        for _ in 0..rounds.count {
            for reader in readers.iter_mut() {
                wake_one(rt, reader, &step, board, rounds.gap);
            }
        }
    }
    for reader in readers.iter_mut() {
        let _answer = reader.hub.submit(rt, &mut reader.pass, &PeerStep::Gone);
    }
}

fn write_all<R: Threads + Wait + Clock + Sync>(
    rt: &R,
    alloc: Global,
    writers: Vec<Writer<'_>>,
    board: &Board,
) -> Result<Vec<Vec<u64>>, AllocError> {
    map_vec(
        rt,
        writers,
        &|writer| write_frames(rt, alloc, writer, board),
    )
}

fn write_beside<R: Threads + Wait + Clock + Sync>(
    rt: &R,
    alloc: Global,
    readers: Vec<Reader<'_>>,
    writers: Vec<Writer<'_>>,
    board: &Board,
    rounds: Rounds,
) -> Option<Vec<Vec<u64>>> {
    let (noted, ()) = join(
        rt,
        move || write_all(rt, alloc, writers, board),
        move || wake_all(rt, alloc, readers, board, rounds),
    );
    noted.ok()
}

/// How many nanoseconds passed from each step to the write that it woke, in order.
pub fn times<R: Threads + Wait + Clock + Sync>(
    rt: &R,
    alloc: Global,
    start: Instant,
    writers: u64,
    rounds: Rounds,
) -> Option<Vec<u64>> {
    let (hub, mut root) = Hub::new(alloc, LIMITS).ok()?;
    let (readers, writers) = join_all(rt, alloc, &hub, &mut root, writers)?;
    let board = Board {
        start,
        sent: AtomicU64::new(0),
        written: AtomicU64::new(0),
    };
    let mut all = Vec::new(alloc);
    for times in write_beside(rt, alloc, readers, writers, &board, rounds)? {
        all.extend_from_slice(&times).ok()?;
    }
    all.sort().ok()?;
    Some(all)
}
