//! A bounded store of the bytes that wait for a peer, with the tokens that travel with them.
//!
//! A list whose oldest items can be let go: they leave memory, and contracts go on seeing all.
#![tactic(auto)]

mod begins;
mod long_list;
mod past;

ghost use Rattle.std.specs.Prelude.{◌≡◌, ◌+◌, ◌++◌, ◌≤◌, ◌↔◌, [], length, min, take, drop, IsTrue};
ghost use Rattle.std.specs.Prelude.{IfOk, if◌then◌else◌};
ghost use Rattle.out_store.specs.Queue.{queue, cells_of, bytes_of, tokens_of};
ghost use Rattle.out_store.specs.Spacing.{IsSpaced};
ghost use Rattle.out_store.specs.Runs.{NothingIsLost};

use begins::{Begin, add_begins, take_begun};
use circular_buffer::HeapCircularBuffer;
pub use long_list::{LongList, OwnCopy};
pub use past::Past;
use std::alloc::Global;
use std::marker::Model;
use wio_core::NoMemory;

/// The fewest bytes from the beginning of a message with a token to the next such message, or to the end of its group.
const SPACING: usize = 16;

/// What waits for one peer: bytes up to a capacity, and the tokens of the messages among them.
#[derive(Drop)]
pub struct Store {
    bytes: HeapCircularBuffer<u8>,
    begins: HeapCircularBuffer<Begin>,
    front: u64,
}

impl Model for Store {
    ghost use Rattle.std.specs.Prelude.{◌+◌, ◌*◌, ◌<◌, length};
    ghost use Rattle.out_store.specs.Queue.{Queue, queue, cells_of};
    ghost use Rattle.out_store.specs.Spacing.{IsSpaced};
    ghost use Rattle.out_store.specs.Ring.{offsets};

    ghost Value = { Queue };

    ghost view = { λ s. queue (cells_of s.bytes.items (offsets s.front s.begins.items))
        s.bytes.capacity };

    ghost invariant = { λ s. (IsSpaced 0 (offsets s.front s.begins.items) (length s.bytes.items))
        × (s.bytes.capacity < 16 * (s.begins.capacity + 1)) };
}

impl Store {
    /// An empty store for up to `capacity` bytes. All its memory is taken here.
    pub fn new(alloc: Global, capacity: usize) -> Result<Store, NoMemory>
        ensures { IfOk result (λ store. store ≡ queue [] capacity) }
    {
        Ok(Store {
            bytes: HeapCircularBuffer::with_capacity(alloc, capacity)?,
            begins: HeapCircularBuffer::with_capacity(alloc, capacity / SPACING)?,
            front: 0,
        })
    }

    /// Puts the group whole behind what waits, or leaves it out, and says whether it fitted. A
    /// token is listed with the offset of its message's first byte. (no memory)
    pub fn put_group(&mut self, group: &[u8], tokens: &[(usize, u32)]) -> bool
        requires { IsSpaced 0 tokens.now (length group.now) }
        ensures fits { IsTrue result ↔ (length self.old.cells + length group.now ≤
            self.old.capacity) }
        ensures put { self.new ≡ (if result then queue
            (self.old.cells ++ cells_of group.now tokens.now) self.old.capacity else self.old) }
    {
        let stored = self.bytes.len();
        if group.len() > self.bytes.capacity() - stored {
            return false;
        }
        add_begins(
            &mut self.begins,
            self.front.wrapping_add(stored as u64),
            tokens,
        );
        let _ = self.bytes.fill_from_slice(group);
        true
    }

    /// Moves the first bytes that wait into `buf`, as many as fit, and the tokens whose messages
    /// begin in them into `tokens`. Answers how many bytes and how many tokens. (no memory)
    pub fn take(&mut self, buf: &mut [u8], tokens: &mut [u32]) -> (usize, usize)
        requires piece { length buf.old ≤ 4096 }
        requires places { 256 ≤ length tokens.old }
        ensures count { result.0 ≡ min (length buf.old) (length self.old.cells) }
        ensures bytes { buf.new ≡ bytes_of (take result.0 self.old.cells) ++ drop result.0 buf.old }
        ensures token_count { result.1 ≡ length (tokens_of (take result.0 self.old.cells)) }
        ensures tokens { tokens.new ≡ tokens_of (take result.0 self.old.cells) ++ drop result.1
            tokens.old }
        ensures rest { self.new ≡ queue (drop result.0 self.old.cells) self.old.capacity }
    {
        let n = self.bytes.read_into(buf);
        let count = take_begun(&mut self.begins, self.front, n, tokens);
        self.front = self.front.wrapping_add(n as u64);
        (n, count)
    }

    /// How many bytes wait, never more than the capacity.
    pub fn len(&self) -> usize
        ensures count { result ≡ length self.now.cells }
        ensures within { result ≤ self.now.capacity }
    {
        self.bytes.len()
    }

    /// Whether no byte waits.
    pub fn is_empty(&self) -> bool
        ensures { IsTrue result ↔ (self.now.cells ≡ []) }
    {
        self.bytes.is_empty()
    }

    /// The most bytes that may wait.
    pub fn capacity(&self) -> usize
        ensures { result ≡ self.now.capacity }
    {
        self.bytes.capacity()
    }
}

/// Over every list of calls: what was taken, followed by what waits, is the groups that were put, in order.
pub fn nothing_is_lost()
    ensures { NothingIsLost }
{}
