//! The whole recorded session goes out.
ghost use Rattle.std.specs.Prelude.{◌≡◌, ◌≢◌, ◌≤◌, ◌++◌, length, Err, IfOk, OnOk, OnErr};
ghost use Rattle.std.specs.Io.KnownBytes.{Appends};
ghost use Rattle.wio_core.specs.Io.{Rose};
ghost use Rattle.session_text.specs.declared.line.Line.TheVariants.{Header};
ghost use Rattle.serve_record.specs.Recorded.{recorded, text_line};
ghost use Rattle.serve_record.specs.declared.record.RecordStop.TheVariants as stops;
ghost use Rattle.serve_record.specs.Lines.{text_at, GainsFront, Gains};

use crate::record_text::RecordText;
use broker_model::{Journal, StampList};
use broker_steps::Limits;
use hub_lock::Session;
use std::alloc::Global;
use thiserror::Error;
use wio_core::{Failed, NoMemory, Sink};

/// Why a recorded session isn't whole. What was written is a front of it.
#[derive(Clone, Copy, Debug, PartialEq, Eq, Error)]
pub enum RecordStop {
    /// The output failed.
    #[error("the output failed")]
    WriteFault,
    /// There was no memory.
    #[error("there was no memory")]
    NoMemory,
}

impl From<Failed> for RecordStop {
    ghost from_gives = { λ _ e. e ≡ stops.WriteFault };

    fn from(_: Failed) -> Self {
        RecordStop::WriteFault
    }
}

impl From<NoMemory> for RecordStop {
    ghost from_gives = { λ _ e. e ≡ stops.NoMemory };

    fn from(_: NoMemory) -> Self {
        RecordStop::NoMemory
    }
}

// The header and its line feed.
pub(crate) fn header(alloc: Global, limits: &Limits) -> Result<Vec<u8>, NoMemory>
    ensures { IfOk result (λ text. text.items ≡ text_line (Header limits.now)) }
{
    let (entries, store, weight) = (limits.entries, limits.store, limits.weight);
    let line = format!(in alloc; "session 2 {entries} {store} {weight}\n")?;
    Ok(line.into_bytes())
}

// Adds the line of the entry with the number, and writes what waits, if it is a whole piece.
#[tactic(auto, using(crate::proofs::StepsText::is_kept, crate::proofs::StepsText::kept_is))]
fn write_entry<K: Sink>(
    alloc: Global,
    session: &Session,
    number: u32,
    text: &mut RecordText,
    output: &mut K,
) -> Result<(), RecordStop>
    requires first { 1 ≤ number }
    requires last { number ≤ length session.now.journal.entries }
    ensures { Gains K.held K.fault_count output.old output.new text.new (text.old
        ++ text_at session.now.journal.entries session.now.stamps.stamps number)
        RecordStop.WriteFault result }
{
    let Some(entry) = session.journal.entry(number) else {
        unreachable!()
    };
    let Some(stamp) = session.stamps.entry(number) else {
        unreachable!()
    };
    text.put(alloc, *stamp, entry, output)
}

/// Writes the recorded session: the header, the line of each entry that no other brings about behind
/// its stamp, and the end. After `RecordStop` a front of it was written.
pub fn write_record<K: Sink>(
    alloc: Global,
    session: &Session,
    output: &mut K,
) -> Result<(), RecordStop>
    ensures whole { OnOk result (Appends (K.held output.old) (K.held output.new)
        (recorded session.now.limits session.now.journal.entries session.now.stamps.stamps)) }
    ensures front { OnErr result (GainsFront (K.held output.old) (K.held output.new)
        (recorded session.now.limits session.now.journal.entries session.now.stamps.stamps)) }
    ensures never_falls { K.fault_count output.old ≤ K.fault_count output.new }
    ensures cause { result ≡ Err RecordStop.WriteFault →
        Rose (K.fault_count output.old) (K.fault_count output.new) }
    ensures no_fault { result ≢ Err RecordStop.WriteFault →
        K.fault_count output.new ≡ K.fault_count output.old }
{
    let mut text = RecordText::new(alloc, &session.limits)?;
    for before in 0..session.journal.len() {
        write_entry(alloc, session, before + 1, &mut text, output)?;
    }
    text.end(output)
}
