//! What a gate and the sinks of a test share: a reader is held until something was answered or written.
use hub_lock::Gate;
use std::sync::atomic::{AtomicU64, Ordering};
use std::thread;
use wio_core::{Failed, MemSink, Sink};

/// How long a reader is held at most.
const TURNS: u64 = 1_000_000_000;

/// Holds one step of one peer, which are numbers from 1, until the count has come so far. It counts the bytes that were
/// written, or once an answer that it waits for.
#[derive(Drop)]
pub struct Board {
    pub held: (u32, u64),
    pub answer: (u32, u64),
    pub wanted: u64,
    pub count: AtomicU64,
    pub gave_up: AtomicU64,
}

/// Holds nobody.
pub fn open() -> Board {
    Board {
        held: (0, 0),
        answer: (0, 0),
        wanted: 0,
        count: AtomicU64::new(0),
        gave_up: AtomicU64::new(0),
    }
}

impl Gate for Board {
    fn before(&self, peer: u32, step: u64) {
        if (peer, step) != self.held {
            return;
        }
        for _ in 0..TURNS {
            if self.count.load(Ordering::SeqCst) >= self.wanted {
                return;
            }
            thread::yield_now();
        }
        self.gave_up.store(1, Ordering::SeqCst);
    }

    fn after(&self, peer: u32, step: u64) {
        if (peer, step) == self.answer {
            self.count.store(self.wanted, Ordering::SeqCst);
        }
    }
}

/// A sink in memory that counts on the board what it is given, where that waits for no answer.
#[derive(Drop)]
pub struct Noted<'a> {
    pub board: &'a Board,
    pub sink: MemSink,
}

impl Sink for Noted<'_> {
    ghost use Rattle.std.specs.Prelude.{None};

    ghost held = { λ s. None };

    ghost fault_count = { λ s. s.sink.faults };

    fn write(&mut self, piece: &[u8]) -> Result<usize, Failed> {
        if self.board.answer.0 == 0 {
            self.board
                .count
                .fetch_add(piece.len() as u64, Ordering::SeqCst);
        }
        self.sink.write(piece)
    }

    fn faults(&self) -> u64 {
        self.sink.faults()
    }
}
