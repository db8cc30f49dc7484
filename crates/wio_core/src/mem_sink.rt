//! A sink in memory, which tells its content and fails where it is told to.
ghost use Rattle.std.specs.Prelude.{◌≡◌, ◌++◌, ◌+◌, ◌<◌, ◌≤◌, [], Some, length, IfOk, OnErr, IsErr};
ghost use Rattle.std.specs.Prelude.{◌↔◌, ◌⊎◌};
ghost use Rattle.std.specs.List.{Contains};
ghost use Rattle.wio_core.specs.Io.{raised};

use crate::{Failed, NoMemory, Sink};
use std::alloc::Global;
use std::marker::Model;

/// Holds bytes up to its room, which it reserves at once, and fails in the calls that it was told.
#[derive(Drop)]
pub struct MemSink {
    bytes: Vec<u8>,
    room: usize,
    fail: Vec<u64>,
    calls: u64,
    faults: u64,
}

impl Model for MemSink {
    ghost use Rattle.std.specs.Prelude.{vec_len, vec_capacity, ◌≤◌};
    ghost use Rattle.wio_core.specs.Memory.{SinkInMemory};

    ghost Value = { SinkInMemory };

    ghost view = { λ s. record {
      held = s.bytes.items;
      room = s.room;
      fail = s.fail.items;
      calls = s.calls;
      faults = s.faults;
    } };

    ghost invariant = { λ s. (vec_len s.bytes ≤ s.room) × (s.room ≤ vec_capacity s.bytes) };
}

impl MemSink {
    /// Holds up to `room` bytes. The writes with a number in `fail`, counted from 1, fail.
    pub fn new(alloc: Global, room: usize, fail: Vec<u64>) -> Result<MemSink, NoMemory>
        ensures value { IfOk result (λ sink. sink ≡ record
            { held = []; room = room; fail = fail.items; calls = 0; faults = 0 }) }
        ensures held { IfOk result (λ sink. ⟦<MemSink as Sink>⟧.held sink ≡ Some []) }
        ensures no_fault_yet { IfOk result (λ sink. ⟦<MemSink as Sink>⟧.fault_count sink ≡ 0) }
    {
        let bytes = Vec::with_capacity(alloc, room)?;
        Ok(MemSink {
            bytes,
            room,
            fail,
            calls: 0,
            faults: 0,
        })
    }

    /// What was written so far.
    pub fn held(&self) -> &[u8]
        ensures value { result.now ≡ self.now.held }
        ensures told { ⟦<MemSink as Sink>⟧.held self.now ≡ Some result.now }
    {
        &self.bytes
    }
}

impl Sink for MemSink {
    ghost held = { λ s. Some s.held };

    ghost fault_count = { λ s. s.faults };

    /// Takes the whole piece. A piece that passes the room fails, and no byte of it is held.
    fn write(&mut self, piece: &[u8]) -> Result<usize, Failed>
        requires { 0 < length piece.now }
        // It fails in the calls that it was told and past its room, and in no other.
        ensures fails { IsErr result ↔ (Contains self.old.fail (raised self.old.calls) ⊎
            (self.old.room < length self.old.held + length piece.now)) }
        ensures count { IfOk result (λ n. n ≡ length piece.now) }
        ensures ok { IfOk result (λ _. self.new ≡ record self.old
            { held = self.old.held ++ piece.now; calls = raised self.old.calls }) }
        ensures err { OnErr result (self.new ≡ record self.old
            { calls = raised self.old.calls; faults = raised self.old.faults }) }
        ensures never_falls { self.old.faults ≤ self.new.faults }
    {
        self.calls = self.calls.saturating_add(1);
        if self.fail.contains(&self.calls)
            || self.room - self.bytes.len() < piece.len()
            || self.bytes.extend_from_slice(piece).is_err()
        {
            self.faults = self.faults.saturating_add(1);
            return Err(Failed);
        }
        Ok(piece.len())
    }

    fn faults(&self) -> u64 {
        self.faults
    }
}
