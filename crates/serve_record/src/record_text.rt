//! A recorded session as its entries come.
ghost use Rattle.std.specs.Prelude.{◌≡◌, ◌≢◌, ◌≤◌, ◌++◌, [], Some, Err, IfOk, OnOk, OnErr};
ghost use Rattle.std.specs.Io.KnownBytes.{Appends};
ghost use Rattle.wio_core.specs.Io.{Rose};
ghost use Rattle.session_text.specs.declared.line.Line.TheVariants.{Header, End};
ghost use Rattle.hub_lock.specs.Steps.{FitsLine};
ghost use Rattle.serve_record.specs.Recorded.{text_line};
ghost use Rattle.serve_record.specs.Lines.{lines_text, GainsFront, Gains};

use crate::entry_lines::add_entry;
use crate::record::{RecordStop, header};
use broker_model::Entry;
use broker_steps::{Limits, Stamp};
use std::alloc::Global;
use std::marker::Model;
use wio_core::{NoMemory, Sink, write_all};

// So many bytes are written at once, or a line more.
const PIECE: usize = 65_536;

/// The text of a recorded session, of which a last piece waits. Contracts see the bytes that wait.
#[derive(Drop)]
pub struct RecordText {
    waiting: Vec<u8>,
}

impl Model for RecordText {
    ghost use Rattle.std.specs.Prelude.{List, ℕ};

    ghost Value = { List ℕ };

    ghost view = { λ t. t.waiting.items };
}

impl RecordText {
    /// The header waits. `NoMemory` is its one error.
    pub fn new(alloc: Global, limits: &Limits) -> Result<RecordText, NoMemory>
        ensures { IfOk result (λ text. text ≡ text_line (Header limits.now)) }
    {
        Ok(RecordText {
            waiting: header(alloc, limits)?,
        })
    }

    // Adds the line of an entry behind its stamp, if it has one, and writes what waits, if it is a
    // whole piece. After `RecordStop` a front of it was written.
    pub(crate) fn put<K: Sink>(
        &mut self,
        alloc: Global,
        stamp: Stamp,
        entry: &Entry,
        output: &mut K,
    ) -> Result<(), RecordStop>
        requires { FitsLine entry.now }
        ensures { Gains K.held K.fault_count output.old output.new self.new
            (self.old ++ lines_text (Some entry.now) (Some stamp)) RecordStop.WriteFault
            result }
    {
        add_entry(alloc, &mut self.waiting, stamp, entry)?;
        if self.waiting.len() < PIECE {
            return Ok(());
        }
        self.write(output)
    }

    /// Writes what waits. `WriteFault` is its one error: then a front of it was written, and all waits.
    pub fn write<K: Sink>(&mut self, output: &mut K) -> Result<(), RecordStop>
        ensures whole { OnOk result (Appends (K.held output.old) (K.held output.new) self.old) }
        ensures none { OnOk result (self.new ≡ []) }
        ensures same { OnErr result (self.new ≡ self.old) }
        ensures why { OnErr result (result ≡ Err RecordStop.WriteFault) }
        ensures front { OnErr result (GainsFront (K.held output.old) (K.held output.new)
            self.old) }
        ensures never_falls { K.fault_count output.old ≤ K.fault_count output.new }
        ensures cause { result ≡ Err RecordStop.WriteFault →
            Rose (K.fault_count output.old) (K.fault_count output.new) }
        ensures no_fault { result ≢ Err RecordStop.WriteFault →
            K.fault_count output.new ≡ K.fault_count output.old }
    {
        write_all(output, self.waiting.as_slice())?;
        self.waiting.clear();
        Ok(())
    }

    /// Writes what waits, and the end. After `RecordStop` a front of it was written.
    pub fn end<K: Sink>(self, output: &mut K) -> Result<(), RecordStop>
        ensures whole { OnOk result (Appends (K.held output.old) (K.held output.new)
            (self ++ text_line End)) }
        ensures front { OnErr result (GainsFront (K.held output.old) (K.held output.new)
            (self ++ text_line End)) }
        ensures never_falls { K.fault_count output.old ≤ K.fault_count output.new }
        ensures cause { result ≡ Err RecordStop.WriteFault →
            Rose (K.fault_count output.old) (K.fault_count output.new) }
        ensures no_fault { result ≢ Err RecordStop.WriteFault →
            K.fault_count output.new ≡ K.fault_count output.old }
    {
        let RecordText { mut waiting } = self;
        waiting.extend_from_slice(b"end\n").map_err(NoMemory::from)?;
        write_all(output, waiting.as_slice())?;
        Ok(())
    }
}
