//! A gate that holds a reader, and an output that may let it go.
use serve_net::{Failed, MemSink, Sink};
use serve_run::Gate;
use std::alloc::Global;
use std::sync::Arc;
use std::sync::atomic::{AtomicU64, Ordering};
use std::thread;

/// How many turns a test waits at most for another thread.
const TURNS: u64 = 1_000_000_000;

/// Until when peer 1's first step is held, if it is: until peer 2's first step is answered, or until bytes of the record
/// went out.
#[derive(Clone, Copy, Debug, PartialEq, Eq)]
pub(crate) enum Hold {
    Nobody,
    UntilAnswered,
    UntilRecorded,
}

/// Holds peer 1's first step, and notes whether it waited in vain.
#[derive(Drop)]
pub(crate) struct Board {
    hold: Hold,
    done: AtomicU64,
    late: AtomicU64,
}

impl Board {
    pub(crate) fn new(hold: Hold) -> Board {
        Board {
            hold,
            done: AtomicU64::new(0),
            late: AtomicU64::new(0),
        }
    }

    /// Whether a step waited in vain.
    pub(crate) fn was_late(&self) -> bool {
        self.late.load(Ordering::SeqCst) > 0
    }
}

impl Gate for Board {
    fn before(&self, peer: u32, step: u64) {
        if peer != 1 || step != 1 || self.hold == Hold::Nobody {
            return;
        }
        for _ in 0..TURNS {
            if self.done.load(Ordering::SeqCst) > 0 {
                return;
            }
            thread::yield_now();
        }
        self.late.store(1, Ordering::SeqCst);
    }

    fn after(&self, peer: u32, step: u64) {
        if peer == 2 && step == 1 && self.hold == Hold::UntilAnswered {
            self.done.store(1, Ordering::SeqCst);
        }
    }
}

/// An output in memory.
#[derive(Drop)]
pub(crate) struct Output {
    pub(crate) board: Arc<Board, Global>,
    pub(crate) sink: MemSink,
}

impl Sink for Output {
    ghost use Rattle.std.specs.Prelude.{None};

    ghost held = { λ s. None };

    ghost fault_count = { λ s. s.sink.faults };

    fn write(&mut self, piece: &[u8]) -> Result<usize, Failed> {
        if self.board.hold == Hold::UntilRecorded {
            self.board.done.store(1, Ordering::SeqCst);
        }
        self.sink.write(piece)
    }

    fn faults(&self) -> u64 {
        self.sink.faults()
    }
}
