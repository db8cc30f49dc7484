//! Sources and sinks of bytes, and the answer for want of memory that every crate above shares.
#![tactic(auto)]

ghost use Rattle.std.specs.Prelude.{◌≡◌, ℕ, ◌<◌, ◌≤◌, List, Option, length, take, IfOk, OnOk};
ghost use Rattle.std.specs.Prelude.{OnErr};
ghost use Rattle.std.specs.Io.KnownBytes.{Appends, Keeps};
ghost use Rattle.wio_core.specs.Io.{Reads, Rose, StaysQuiet};

use std::alloc::{AllocError, AllocFailed};
use thiserror::Error;

mod line_reader;
mod line_search;
mod mem_sink;
mod mem_source;
mod std_io;
mod window;

pub use line_reader::{LineReader, LineStop, NextLine};
pub use mem_sink::MemSink;
pub use mem_source::MemSource;
pub use std_io::{StdSink, StdSource};

/// A read or a write failed. The source or the sink counts it, once, among its faults.
#[derive(Clone, Copy, Debug, PartialEq, Eq, Error)]
#[error("a read or a write failed")]
pub struct Failed;

/// There was no memory for a growth. The one answer whose coming no clause tells; after it all is as before.
#[derive(Clone, Copy, Debug, PartialEq, Eq, Error)]
#[error("there was no memory")]
pub struct NoMemory;

impl From<AllocError> for NoMemory {
    fn from(_: AllocError) -> Self {
        NoMemory
    }
}

impl<T: Drop> From<AllocFailed<T>> for NoMemory {
    fn from(_: AllocFailed<T>) -> Self {
        NoMemory
    }
}

/// Bytes that come in, and a count of the reads that failed.
pub trait Source {
    /// The bytes that it gave so far, where it tells them.
    ghost given: { Self → Option (List ℕ) };

    /// The bytes that are left, where it tells them.
    ghost left: { Self → Option (List ℕ) };

    /// How often it failed.
    ghost fault_count: { Self → ℕ };

    /// Moves the first bytes that are left into the front of the buffer, and says how many; 0 says
    /// that nothing is left. The buffer behind them holds anything. After `Failed` nothing was
    /// given, one fault is counted, and the next call goes on as if this one hadn't been. No other
    /// call counts a fault.
    fn read(&mut self, buf: &mut [u8]) -> Result<usize, Failed>
        requires { 0 < length buf.old }
        ensures moved { IfOk result (λ n. Reads (given self.old) (given self.new) (left self.old)
            (left self.new) n buf.new) }

        ensures given_stays { OnErr result (Keeps (given self.old) (given self.new)) }
        ensures left_stays { OnErr result (Keeps (left self.old) (left self.new)) }

        ensures given_quiet { StaysQuiet (given self.old) (given self.new) }
        ensures left_quiet { StaysQuiet (left self.old) (left self.new) }

        ensures never_falls { fault_count self.old ≤ fault_count self.new }
        ensures cause { OnErr result (Rose (fault_count self.old) (fault_count self.new)) }
        ensures no_fault { OnOk result (fault_count self.new ≡ fault_count self.old) };

    /// How many reads failed so far, up to the greatest `u64`, where the count stands still.
    fn faults(&self) -> u64
        ensures { result ≡ fault_count self.now };
}

/// Bytes that go out, and a count of the writes that failed.
pub trait Sink {
    /// The bytes that it holds, where it tells them.
    ghost held: { Self → Option (List ℕ) };

    /// How often it failed.
    ghost fault_count: { Self → ℕ };

    /// Appends the first bytes of the piece, at least one, and says how many. After `Failed` none were
    /// appended, and one fault is counted. No other call counts a fault.
    fn write(&mut self, piece: &[u8]) -> Result<usize, Failed>
        requires { 0 < length piece.now }
        ensures some { IfOk result (λ n. 0 < n) }
        ensures within { IfOk result (λ n. n ≤ length piece.now) }
        ensures gained { IfOk result (λ n. Appends (held self.old) (held self.new)
            (take n piece.now)) }

        ensures stays { OnErr result (Keeps (held self.old) (held self.new)) }
        ensures quiet { StaysQuiet (held self.old) (held self.new) }

        ensures never_falls { fault_count self.old ≤ fault_count self.new }
        ensures cause { OnErr result (Rose (fault_count self.old) (fault_count self.new)) }
        ensures no_fault { OnOk result (fault_count self.new ≡ fault_count self.old) };

    /// How many writes failed so far, up to the greatest `u64`, where the count stands still.
    fn faults(&self) -> u64
        ensures { result ≡ fault_count self.now };
}

/// Writes the whole piece. After `Failed` the sink has gained a proper prefix of it, and one write failed; an empty
/// piece never fails.
pub fn write_all<K: Sink>(sink: &mut K, piece: &[u8]) -> Result<(), Failed>
    ensures whole { OnOk result (Appends (K.held sink.old) (K.held sink.new) piece.now) }
    ensures prefix { OnErr result ((n : ℕ) × (n < length piece.now) ×
        Appends (K.held sink.old) (K.held sink.new) (take n piece.now)) }
    ensures quiet { StaysQuiet (K.held sink.old) (K.held sink.new) }
    ensures never_falls { K.fault_count sink.old ≤ K.fault_count sink.new }
    ensures cause { OnErr result (Rose (K.fault_count sink.old) (K.fault_count sink.new)) }
    ensures no_fault { OnOk result (K.fault_count sink.new ≡ K.fault_count sink.old) }
{
    let mut at = 0;
    while at < piece.len() {
        at += sink.write(&piece[at..])?;
    }
    Ok(())
}
