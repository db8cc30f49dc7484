//! Where threads sleep that found the lock taken. No contract speaks of it: that none sleeps for
//! good is tested.

use crossbeam_utils::CachePadded;
use std::sync::Wait;
use std::sync::atomic::{AtomicU64, Ordering};

/// A word that is 1 while a thread may be asleep or about to be, and else 0. No other value is on its
/// line of the cache, so an announcement takes nothing else from the other processors.
#[derive(Drop)]
pub(crate) struct Sleepers {
    wanted: CachePadded<AtomicU64>,
}

impl Sleepers {
    pub(crate) fn new() -> Sleepers {
        Sleepers {
            wanted: CachePadded::new(AtomicU64::new(0)),
        }
    }

    /// Says that somebody may be asleep. Whoever frees the lock after this wakes one thread.
    pub(crate) fn announce(&self) {
        self.wanted.store(1, Ordering::SeqCst);
    }

    /// Sleeps until it is woken, or not at all if nobody is announced any more. May return for no
    /// reason.
    pub(crate) fn sleep<R: Wait>(&self, rt: &R) {
        self.wanted.park(rt, 1);
    }

    /// Wakes one thread if any may be asleep. The load keeps a turn that nobody waits for from
    /// writing.
    pub(crate) fn wake_one(&self) {
        if self.wanted.load(Ordering::SeqCst) != 0 && self.wanted.swap(0, Ordering::SeqCst) != 0 {
            self.wanted.wake_one();
        }
    }
}
