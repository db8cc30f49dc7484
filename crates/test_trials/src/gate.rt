//! A gate that holds fields' jobs.
use std::sync::atomic::{AtomicU64, Ordering};
use std::thread;
use trial_threads::Gate;

/// How many turns a test waits at most for another thread.
const TURNS: u64 = 1_000_000_000;

/// Holds nobody, or the first edit of each of two fields until that of the other is about to be made; and notes how many
/// first edits came, and whether one waited in vain.
#[derive(Drop)]
pub struct Meets {
    holds: bool,
    came: AtomicU64,
    late: AtomicU64,
}

impl Meets {
    pub fn new(holds: bool) -> Meets {
        Meets {
            holds,
            came: AtomicU64::new(0),
            late: AtomicU64::new(0),
        }
    }

    /// How many first edits were about to be made, and how many waited in vain.
    pub fn counts(&self) -> (u64, u64) {
        (
            self.came.load(Ordering::SeqCst),
            self.late.load(Ordering::SeqCst),
        )
    }
}

impl Gate for Meets {
    fn before(&self, _peer: u32, step: u64) {
        if step != 1 || !self.holds {
            return;
        }
        self.came.fetch_add(1, Ordering::SeqCst);
        for _ in 0..TURNS {
            if self.came.load(Ordering::SeqCst) > 1 {
                return;
            }
            thread::yield_now();
        }
        self.late.fetch_add(1, Ordering::SeqCst);
    }

    fn after(&self, _peer: u32, _step: u64) {}
}
