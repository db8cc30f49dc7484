//! A source in memory, which tells its content and fails where it is told to.
ghost use Rattle.std.specs.Prelude.{◌≡◌, ◌++◌, [], Some, None, length, take, drop, min, IfOk};
ghost use Rattle.std.specs.Prelude.{OnErr, IsErr, ◌↔◌, ◌<◌, ◌≤◌};
ghost use Rattle.std.specs.List.{Contains};
ghost use Rattle.wio_core.specs.Io.{raised};

use crate::{Failed, Source};
use std::marker::Model;

/// Gives the bytes of a `Vec`, in pieces of at most `chunk`, and fails in the calls that it was told.
#[derive(Drop)]
pub struct MemSource {
    bytes: Vec<u8>,
    at: usize,
    chunk: usize,
    fail: Vec<u64>,
    calls: u64,
    faults: u64,
}

impl Model for MemSource {
    ghost use Rattle.std.specs.Prelude.{take, drop, length, ◌≤◌, ◌<◌};
    ghost use Rattle.wio_core.specs.Memory.{SourceInMemory};

    ghost Value = { SourceInMemory };

    ghost view = { λ s. record {
      given = take s.at s.bytes.items;
      left = drop s.at s.bytes.items;
      chunk = s.chunk;
      fail = s.fail.items;
      calls = s.calls;
      faults = s.faults;
    } };

    ghost invariant = { λ s. (s.at ≤ length s.bytes.items) × (0 < s.chunk) };
}

impl MemSource {
    /// Gives these bytes, at most `chunk` of them in a read. The reads with a number in `fail`, counted from 1, fail.
    pub fn new(bytes: Vec<u8>, chunk: usize, fail: Vec<u64>) -> MemSource
        requires { 0 < chunk }
        ensures value { result ≡ record {
          given = [];
          left = bytes.items;
          chunk = chunk;
          fail =
              fail.items;
          calls = 0;
          faults = 0;
        } }
        ensures given { ⟦<MemSource as Source>⟧.given result ≡ Some [] }
        ensures left { ⟦<MemSource as Source>⟧.left result ≡ Some bytes.items }
        ensures no_fault_yet { ⟦<MemSource as Source>⟧.fault_count result ≡ 0 }
    {
        MemSource {
            bytes,
            at: 0,
            chunk,
            fail,
            calls: 0,
            faults: 0,
        }
    }
}

impl Source for MemSource {
    ghost given = { λ s. Some s.given };

    ghost left = { λ s. Some s.left };

    ghost fault_count = { λ s. s.faults };

    fn read(&mut self, buf: &mut [u8]) -> Result<usize, Failed>
        requires { 0 < length buf.old }
        // It fails in the calls that it was told, and in no other.
        ensures fails { IsErr result ↔ Contains self.old.fail (raised self.old.calls) }
        ensures count { IfOk result (λ n. n ≡ min (min self.old.chunk (length buf.old))
            (length self.old.left)) }
        ensures ok { IfOk result (λ n. self.new ≡ record self.old {
          given = self.old.given ++ take n self.old.left;
          left = drop n self.old.left;
          calls =
              raised self.old.calls;
        }) }
        // 0 only where nothing is left.
        ensures end { IfOk result (λ n. n ≡ 0 → self.new.left ≡ []) }
        ensures filled { IfOk result (λ n. buf.new ≡ take n self.old.left ++ drop n buf.old) }
        ensures err { OnErr result (self.new ≡ record self.old
            { calls = raised self.old.calls; faults = raised self.old.faults }) }
        ensures never_falls { self.old.faults ≤ self.new.faults }
    {
        self.calls = self.calls.saturating_add(1);
        if self.fail.contains(&self.calls) {
            self.faults = self.faults.saturating_add(1);
            return Err(Failed);
        }
        let n = self.chunk.min(buf.len()).min(self.bytes.len() - self.at);
        buf[..n].copy_from_slice(&self.bytes[self.at..self.at + n]);
        self.at += n;
        Ok(n)
    }

    fn faults(&self) -> u64 {
        self.faults
    }
}
