//! Bytes that wait, of which the first leave.
ghost use Rattle.std.specs.Prelude.{◌≡◌, ◌≤◌, drop, vec_len};

use std::alloc::Global;
use std::marker::Model;
use wio_core::NoMemory;

/// The first bytes go.
pub(crate) fn cut_front(bytes: &mut Vec<u8>, count: usize)
    requires { count ≤ vec_len bytes.old }
    ensures { bytes.new.items ≡ drop count bytes.old.items }
{
    bytes.rotate_left(count);
    bytes.truncate(bytes.len() - count);
}

/// Bytes to which more comes at the end, and of which the first are let go.
///
/// In contracts it is the bytes that weren't let go.
#[derive(Drop)]
pub(crate) struct Backlog {
    bytes: Vec<u8>,
    // So many were let go: they leave memory when they are half of all.
    gone: usize,
}

impl Model for Backlog {
    ghost use Rattle.std.specs.Prelude.{ℕ, List, ◌*◌, ◌≤◌, drop, vec_len};

    ghost Value = { List ℕ };

    ghost view = { λ b. drop b.gone b.bytes.items };

    ghost invariant = { λ b. 2 * b.gone ≤ vec_len b.bytes };
}

impl Backlog {
    ghost use Rattle.std.specs.Prelude.{◌≡◌, ◌<◌, ◌≤◌, ◌*◌, ◌^◌, ◌++◌, []};
    ghost use Rattle.std.specs.Prelude.{drop, length, OnOk, OnErr};

    /// No bytes. Takes no memory.
    pub(crate) fn new(alloc: Global) -> Backlog
        ensures { result ≡ [] }
    {
        Backlog {
            bytes: Vec::new(alloc),
            gone: 0,
        }
    }

    /// The bytes that weren't let go.
    pub(crate) fn as_slice(&self) -> &[u8]
        ensures { result.now ≡ self.now }
    {
        let (_, left) = self.bytes.split_at(self.gone);
        left
    }

    /// How many bytes are in memory: at most twice those that weren't let go.
    pub(crate) fn kept(&self) -> usize
        ensures least { length self.now ≤ result }
        ensures most { result ≤ 2 * length self.now }
        ensures small { result < 2 ^ 63 }
    {
        self.bytes.len()
    }

    /// More comes. `NoMemory` is its one error, after which all is as before.
    pub(crate) fn push(&mut self, more: &[u8]) -> Result<(), NoMemory>
        ensures ok { OnOk result (self.new ≡ self.old ++ more.now) }
        ensures err { OnErr result (self.new ≡ self.old) }
    {
        self.bytes.extend_from_slice(more)?;
        Ok(())
    }

    /// The first bytes are let go.
    pub(crate) fn let_go(&mut self, count: usize)
        requires { count ≤ length self.old }
        ensures { self.new ≡ drop count self.old }
    {
        self.gone += count;
        if self.gone > 0 && self.gone >= self.bytes.len() - self.gone {
            cut_front(&mut self.bytes, self.gone);
            self.gone = 0;
        }
    }
}
