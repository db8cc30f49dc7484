//! The bytes that a reader of lines holds, in one buffer that never grows.
ghost use Rattle.std.specs.Prelude.{◌≡◌, ◌<◌, ◌≤◌, ◌++◌, ℕ, List, [], drop, length, slice_range};
ghost use Rattle.std.specs.Prelude.{vec_len, IfOk, OnOk, OnErr};
ghost use Rattle.std.specs.Io.KnownBytes.{IsAtEnd};
ghost use Rattle.wio_core.specs.Io.{Rose, StaysQuiet};
ghost use Rattle.wio_core.specs.Lines.{TookFrom};

use crate::{Failed, NoMemory, Source};
use std::alloc::Global;
use std::marker::Model;

/// The bytes that the buffer has room for.
pub(crate) const SIZE: usize = 16384;

/// Contracts see the bytes that are held.
#[derive(Drop)]
pub(crate) struct Window {
    buffer: Vec<u8>,
    start: usize,
    end: usize,
}

impl Model for Window {
    ghost use Rattle.std.specs.Prelude.{ℕ, List, ◌≡◌, ◌≤◌, slice_range, vec_len};

    ghost Value = { List ℕ };

    ghost view = { λ w. slice_range w.buffer.items w.start w.end };

    ghost invariant = { λ w. (vec_len w.buffer ≡ 16384) × (w.start ≤ w.end) × (w.end ≤ 16384) };
}

impl Window {
    /// Holds nothing yet.
    pub(crate) fn new(alloc: Global) -> Result<Window, NoMemory>
        ensures { IfOk result (λ window. window ≡ []) }
    {
        Ok(Window {
            buffer: vec![in alloc; 0; SIZE]?,
            start: 0,
            end: 0,
        })
    }

    /// The bytes that are held.
    pub(crate) fn held(&self) -> &[u8]
        ensures value { result.now ≡ self.now }
        ensures few { length self.now ≤ 16384 }
    {
        &self.buffer[self.start..self.end]
    }

    /// Lets go of the first `n` bytes.
    pub(crate) fn consume(&mut self, n: usize)
        requires { n ≤ length self.old }
        ensures { self.new ≡ drop n self.old }
    {
        self.start += n;
        if self.start == self.end {
            self.start = 0;
            self.end = 0;
        }
    }

    /// Reads once behind what is held, at most `most` bytes, and says how many came.
    pub(crate) fn read<S: Source>(&mut self, source: &mut S, most: usize) -> Result<usize, Failed>
        requires room { length self.old < 16384 }
        requires some { 0 < most }
        ensures moved { IfOk result (λ n. (read : List ℕ)
            × TookFrom (S.given source.old) (S.given source.new)
            (S.left source.old) (S.left source.new) read
            × (self.new ≡ self.old ++ read) × (length read ≡ n)) }
        ensures within { IfOk result (λ n. n ≤ most) }
        ensures near { length self.new ≤ 16384 }
        ensures end { IfOk result (λ n. n ≡ 0 → IsAtEnd (S.left source.new)) }

        ensures took_nothing { OnErr result (TookFrom (S.given source.old) (S.given source.new)
            (S.left source.old) (S.left source.new) []) }
        ensures stays { OnErr result (self.new ≡ self.old) }

        ensures given_quiet { StaysQuiet (S.given source.old) (S.given source.new) }
        ensures left_quiet { StaysQuiet (S.left source.old) (S.left source.new) }
        ensures never_falls { S.fault_count source.old ≤ S.fault_count source.new }
        ensures cause { OnErr result (Rose (S.fault_count source.old) (S.fault_count source.new)) }
        ensures no_fault { OnOk result (S.fault_count source.new ≡ S.fault_count source.old) }
    {
        make_room(&mut self.buffer, &mut self.start, &mut self.end);
        let end = SIZE.min(self.end.saturating_add(most));
        let n = source.read(&mut self.buffer[self.end..end])?;
        self.end += n;
        Ok(n)
    }
}

/// Moves what stands from `start` to `end` to the front, if no room is behind it. A byte is moved
/// at most once: when the room is full again, it stands in a line that is whole or too long.
fn make_room(buffer: &mut Vec<u8>, start: &mut usize, end: &mut usize)
    requires size { vec_len buffer.old ≡ 16384 }
    requires order { start.old ≤ end.old }
    requires within { end.old ≤ 16384 }
    requires part { length (slice_range buffer.old.items start.old end.old) < 16384 }
    ensures size { vec_len buffer.new ≡ 16384 }
    ensures order { start.new ≤ end.new }
    ensures room { end.new < 16384 }
    ensures same { slice_range buffer.new.items start.new end.new
        ≡ slice_range buffer.old.items start.old end.old }
{
    if *end == SIZE {
        buffer.copy_within(*start..SIZE, 0);
        *end -= *start;
        *start = 0;
    }
}
