//! The bell on which who records sleeps until there is an entry. No contract speaks of waking.
use crate::bells::Bell;
use std::sync::Wait;
use std::sync::atomic::{AtomicU64, Ordering};

/// The bell of who records a hub, and whether the record is to end: once so many users left.
#[derive(Drop)]
pub struct RecordBell {
    bell: Bell,
    users: AtomicU64,
    left: AtomicU64,
}

impl RecordBell {
    /// The record is never to end.
    pub fn new() -> RecordBell {
        RecordBell {
            bell: Bell::new(),
            users: AtomicU64::new(u64::MAX),
            left: AtomicU64::new(0),
        }
    }

    /// There is an entry more.
    pub fn ring(&self) {
        self.bell.ring();
    }

    /// A user left.
    pub fn leave(&self) {
        self.left.fetch_add(1, Ordering::SeqCst);
        self.bell.ring();
    }

    /// The record ends once so many left: who sleeps then wakes, and whoever would sleep doesn't.
    pub fn end(&self, users: u64) {
        self.users.store(users, Ordering::SeqCst);
        self.bell.ring();
    }

    /// The record is to end: so many left as `end` was told of.
    pub fn is_over(&self) -> bool {
        self.left.load(Ordering::SeqCst) >= self.users.load(Ordering::SeqCst)
    }

    /// What a thread remembers of the bell before it looks whether it has to wait.
    pub fn heard(&self) -> u64 {
        self.bell.heard()
    }

    /// Sleeps until the bell has rung more often than was heard. It may also return for no reason.
    /// (Wait: it promises what it does if it returns.)
    pub fn wait_past<R: Wait>(&self, rt: &R, heard: u64) {
        self.bell.wait_past(rt, heard);
    }
}
