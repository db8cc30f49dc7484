//! A generated session as text.
ghost use Rattle.std.specs.Prelude.{◌≡◌, ◌≢◌, ◌++◌, ◌+◌, ◌<◌, ◌≤◌, ◌∷◌, [], ℕ, List, Option, OnOk};
ghost use Rattle.std.specs.Prelude.{OnErr, string_bytes};
ghost use Rattle.std.specs.Io.KnownBytes.{Appends};
ghost use Rattle.wio_core.specs.Io.{Rose};
ghost use Rattle.broker_steps.specs.Ranges.{IsStep};
ghost use Rattle.session_gen.specs.Generated.{step_count};
ghost use Rattle.program_gen.specs.Texts.{step_text, text_of, GrowsByPart};
ghost use Rattle.program_gen.specs.Runs.{Stands};
ghost use Rattle.program_gen.specs.Writing.{Writes};

use crate::running::Run;
use broker_steps::Step;
use seat_set::print_step;
use std::alloc::{AllocError, Global};
use thiserror::Error;
use wio_core::{Failed, NoMemory, Sink, write_all};

/// Why a session wasn't written whole. A front of it was, which isn't all of it.
#[derive(Clone, Copy, Debug, PartialEq, Eq, Error)]
pub enum WriteEnd {
    /// A write failed.
    #[error("a write failed")]
    WriteFault,
    /// There was no memory.
    #[error("there was no memory")]
    NoMemory,
}

impl From<NoMemory> for WriteEnd {
    ghost use Rattle.std.specs.Prelude.{◌≡◌};
    ghost use Rattle.program_gen.specs.declared.text.WriteEnd.TheVariants as ends;

    ghost from_gives = { λ _ e. e ≡ ends.NoMemory };

    fn from(_: NoMemory) -> Self {
        WriteEnd::NoMemory
    }
}

impl From<AllocError> for WriteEnd {
    ghost use Rattle.std.specs.Prelude.{◌≡◌};
    ghost use Rattle.program_gen.specs.declared.text.WriteEnd.TheVariants as ends;

    ghost from_gives = { λ _ e. e ≡ ends.NoMemory };

    fn from(_: AllocError) -> Self {
        WriteEnd::NoMemory
    }
}

impl From<Failed> for WriteEnd {
    ghost use Rattle.std.specs.Prelude.{◌≡◌};
    ghost use Rattle.program_gen.specs.declared.text.WriteEnd.TheVariants as ends;

    ghost from_gives = { λ _ e. e ≡ ends.WriteFault };

    fn from(_: Failed) -> Self {
        WriteEnd::WriteFault
    }
}

/// So many bytes are written at once, or a few more: those of one line.
const PIECE: usize = 16_384;

/// The first line of each generated session.
const HEADER: &str = "session 1 1000000 65536\n";

// The line of the step goes behind the page, with its line feed.
fn add_step(alloc: Global, page: &mut String, step: &Step) -> Result<(), NoMemory>
    requires { IsStep step.now }
    ensures { OnOk result (string_bytes page.new ≡ string_bytes page.old ++ step_text step.now) }
{
    let line = print_step(alloc, step)?;
    page.push_str(line.as_str())?;
    page.push('\n')?;
    Ok(())
}

// Writes the page, and empties it.
fn write_page<K: Sink>(page: &mut String, output: &mut K) -> Result<(), WriteEnd>
    ensures whole { OnOk result
        (Appends (K.held output.old) (K.held output.new) (string_bytes page.old)) }
    ensures empty { OnOk result (string_bytes page.new ≡ []) }
    ensures part { OnErr result
        (GrowsByPart (K.held output.old) (K.held output.new) (string_bytes page.old)) }
    ensures never_falls { K.fault_count output.old ≤ K.fault_count output.new }
    ensures cause { OnErr result (Rose (K.fault_count output.old) (K.fault_count output.new)) }
    ensures no_fault { result ≢ Err WriteEnd.WriteFault →
        K.fault_count output.new ≡ K.fault_count output.old }
{
    write_all(output, page.as_bytes())?;
    page.clear();
    Ok(())
}

// Makes the next step, and puts its line behind the page, which is written once it is long.
fn write_step<K: Sink>(
    alloc: Global,
    run: &mut Run,
    page: &mut String,
    output: &mut K,
) -> Result<(), WriteEnd>
    requires stands { Stands run.old }
    requires more { run.old.session.made < step_count }
    ensures stands { OnOk result (Stands run.new) }
    ensures made { OnOk result (run.new.session
        ≡ record run.old.session { made = run.old.session.made + 1 }) }
    ensures whole { (held : Option (List ℕ)) →
        Writes run.old (string_bytes page.old) held (K.held output.old) →
        OnOk result (Writes run.new (string_bytes page.new) held (K.held output.new)) }
    ensures front { (held : Option (List ℕ)) →
        Writes run.old (string_bytes page.old) held (K.held output.old) →
        OnErr result (GrowsByPart held (K.held output.new) (text_of run.old.session.number)) }
    ensures never_falls { K.fault_count output.old ≤ K.fault_count output.new }
    ensures cause { result ≡ Err WriteEnd.WriteFault →
        Rose (K.fault_count output.old) (K.fault_count output.new) }
    ensures no_fault { result ≢ Err WriteEnd.WriteFault →
        K.fault_count output.new ≡ K.fault_count output.old }
{
    let step = run.next(alloc)?;
    add_step(alloc, page, &step)?;
    if page.len() < PIECE {
        return Ok(());
    }
    write_page(page, output)
}

// Writes all of a run that stands before its first step.
fn write_run<K: Sink>(
    alloc: Global,
    number: u64,
    run: &mut Run,
    output: &mut K,
) -> Result<(), WriteEnd>
    requires stands { Stands run.old }
    requires first { run.old.session ≡ record { number = number; made = 0 } }
    ensures whole { OnOk result
        (Appends (K.held output.old) (K.held output.new) (text_of number)) }
    ensures front { OnErr result
        (GrowsByPart (K.held output.old) (K.held output.new) (text_of number)) }
    ensures never_falls { K.fault_count output.old ≤ K.fault_count output.new }
    ensures cause { result ≡ Err WriteEnd.WriteFault →
        Rose (K.fault_count output.old) (K.fault_count output.new) }
    ensures no_fault { result ≢ Err WriteEnd.WriteFault →
        K.fault_count output.new ≡ K.fault_count output.old }
{
    let mut page = String::from_str(alloc, HEADER)?;
    'steps: while run.left() > 0 {
        write_step(alloc, run, &mut page, output)?;
    }
    page.push_str("end\n")?;
    write_page(&mut page, output)
}

/// Writes the session of the number: its header, the line of each step, and `end`. It is written
/// piece by piece, and only the journal grows meanwhile.
///
/// After each error a front of the session was written, and not all of it. `WriteFault` comes only
/// where the sink's count of faults rose, and `NoMemory` may come at any time.
pub fn write_session<K: Sink>(alloc: Global, number: u64, output: &mut K) -> Result<(), WriteEnd>
    ensures whole { OnOk result
        (Appends (K.held output.old) (K.held output.new) (text_of number)) }
    ensures front { OnErr result
        (GrowsByPart (K.held output.old) (K.held output.new) (text_of number)) }
    ensures never_falls { K.fault_count output.old ≤ K.fault_count output.new }
    ensures cause { result ≡ Err WriteEnd.WriteFault →
        Rose (K.fault_count output.old) (K.fault_count output.new) }
    ensures no_fault { result ≢ Err WriteEnd.WriteFault →
        K.fault_count output.new ≡ K.fault_count output.old }
{
    let mut run = Run::new(alloc, number)?;
    write_run(alloc, number, &mut run, output)
}
