//! Bells, on which writers sleep until something is stored for their peers. No contract speaks of
//! waking: that none sleeps for good is tested.
use crate::rings::BELLS;
use crossbeam_utils::CachePadded;
use std::sync::Wait;
use std::sync::atomic::{AtomicU64, Ordering};

/// A bell counts its rings, and who sleeps until it rings again. A sleeper is counted before it
/// looks at the rings, and who rings looks for sleepers after the ring was counted.
#[derive(Drop)]
pub(crate) struct Bell {
    rings: AtomicU64,
    sleepers: AtomicU64,
}

impl Bell {
    pub fn new() -> Bell {
        Bell {
            rings: AtomicU64::new(0),
            sleepers: AtomicU64::new(0),
        }
    }

    pub fn ring(&self) {
        self.rings.fetch_add(1, Ordering::SeqCst);
        if self.sleepers.load(Ordering::SeqCst) != 0 {
            self.rings.wake_all();
        }
    }

    /// What a thread remembers of the bell before it looks whether it has to wait.
    pub fn heard(&self) -> u64 {
        self.rings.load(Ordering::SeqCst)
    }

    /// Sleeps until the bell has rung more often than was heard. It may also return for no reason.
    pub fn wait_past<R: Wait>(&self, rt: &R, heard: u64) {
        self.sleepers.fetch_add(1, Ordering::SeqCst);
        self.rings.park(rt, (heard & 0xffff_ffff) as u32);
        self.sleepers.fetch_sub(1, Ordering::SeqCst);
    }
}

/// A row of bells. A peer's is the one with its number modulo theirs. What lies before and behind them,
/// as the addresses that each turn reads, is on other lines of the cache.
#[derive(Drop)]
pub struct Bells {
    row: CachePadded<[Bell; BELLS as usize]>,
}

impl Bells {
    /// None has rung.
    pub fn new() -> Bells {
        Bells {
            row: CachePadded::new(std::array::from_fn(|_| Bell::new())),
        }
    }

    fn bell(&self, peer: u32) -> &Bell {
        &self.row[(peer % BELLS) as usize]
    }

    /// Rings the bells whose bits are set, as `Rings` has them. (no memory)
    pub fn ring(&self, bits: u64) {
        let mut left = bits;
        for _ in 0..BELLS {
            if left == 0 {
                return;
            }
            self.bell(left.trailing_zeros()).ring();
            left &= left - 1;
        }
    }

    /// What a thread remembers of the peer's bell before it looks whether it has to wait.
    pub fn heard(&self, peer: u32) -> u64 {
        self.bell(peer).heard()
    }

    /// Sleeps until the peer's bell has rung more often than was heard. It may also return for no
    /// reason. (Wait: it promises what it does if it returns.)
    pub fn wait_past<R: Wait>(&self, rt: &R, peer: u32, heard: u64) {
        self.bell(peer).wait_past(rt, heard);
    }
}
