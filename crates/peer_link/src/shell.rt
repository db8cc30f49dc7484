//! The link of a shell.
ghost use Rattle.std.specs.Prelude.{◌≡◌, ◌≢◌, ◌≤◌, ◌<◌, ◌^◌, ℕ, List, Option, OnOk, Err};
ghost use Rattle.wio_core.specs.Io.{Rose, StaysQuiet};
ghost use Rattle.wio_core.specs.Lines.{TookFrom};
ghost use Rattle.turn_lock.specs.Pairs.{NoneOf};
ghost use Rattle.hub_lock.specs.Seats.{having_seen};
ghost use Rattle.hub_lock.specs.Passes.{IsOf, steps_of};
ghost use Rattle.peer_link.specs.Made.{SawMore};
ghost use Rattle.peer_link.specs.Ordering.{CanGoOn, Serving, ServesOn};
ghost use Rattle.peer_link.specs.ReadsShell.{ReadsShell};

use crate::answer::write_answer;
use crate::ends::ShellEnd;
use crate::order::{give_order, read_order};
use hub_lock::{Hub, ShellPass};
use std::alloc::Global;
use std::sync::Wait;
use wio_core::{Failed, LineReader, NoMemory, Sink, Source};

// Reads one line, gives its order, and answers it.
fn serve_line<R: Wait, S: Source, K: Sink>(
    rt: &R,
    alloc: Global,
    hub: &Hub,
    pass: &mut ShellPass,
    reader: &mut LineReader,
    source: &mut S,
    sink: &mut K,
) -> Result<(), ShellEnd>
    requires own { IsOf hub.now pass.old }
    requires ahead { CanGoOn reader.old }
    requires few { steps_of pass.old < 2 ^ 32 }
    ensures pass { pass.new ≡ having_seen pass.old pass.new.seen }
    ensures saw { SawMore hub.now.limits pass.old.seen pass.new.seen }
    ensures serves { (given left held : Option (List ℕ)) (read : List ℕ)
        → TookFrom given (S.given source.old) left (S.left source.old) read
        → Serving hub.now.limits pass.old reader.old read (S.left source.old) held (K.held sink.old)
        → (later : List ℕ) × TookFrom given (S.given source.new) left (S.left source.new) later
        × ServesOn hub.now.limits pass.new reader.new later (S.left source.new)
        held (K.held sink.new) result }
    ensures ahead { OnOk result (CanGoOn reader.new) }
    ensures few { OnOk result (steps_of pass.new < 2 ^ 32) }
    ensures given_quiet { StaysQuiet (S.given source.old) (S.given source.new) }
    ensures left_quiet { StaysQuiet (S.left source.old) (S.left source.new) }
    ensures held_quiet { StaysQuiet (K.held sink.old) (K.held sink.new) }
    ensures reads_never_fall { S.fault_count source.old ≤ S.fault_count source.new }
    ensures writes_never_fall { K.fault_count sink.old ≤ K.fault_count sink.new }
    ensures read_fault { result ≡ Err ShellEnd.ReadFault
        → Rose (S.fault_count source.old) (S.fault_count source.new) }
    ensures write_fault { result ≡ Err ShellEnd.WriteFault
        → Rose (K.fault_count sink.old) (K.fault_count sink.new) }
    ensures no_read_fault { result ≢ Err ShellEnd.ReadFault
        → S.fault_count source.new ≡ S.fault_count source.old }
    ensures no_write_fault { result ≢ Err ShellEnd.WriteFault
        → K.fault_count sink.new ≡ K.fault_count sink.old }
{
    let number = pass.steps() + 1;
    let step = read_order(alloc, reader, source, number)?;
    let applied = give_order(rt, hub, pass, &step)?;
    match write_answer(sink, applied.entry, applied.route) {
        Ok(()) => Ok(()),
        Err(Failed) => Err(ShellEnd::WriteFault),
    }
}

/// Reads the lines of a shell's link, gives the order of each, and answers it with the number of its
/// entry, of a key also with where it went: `grab`, `pass`, `nowhere` or `many`.
///
/// `Closed` comes at the source's end, `BadLine` where a line is outside of its grammar, with its
/// number, `ReadFault` and `WriteFault` where a read or a write failed, `JournalFull` where the
/// journal was full for an order; `NoMemory` may come at any line. Where a line or its answer ended
/// it, at most 16,384 bytes past that line's first were read. (Wait: it promises what it does if it
/// returns.)
pub fn read_shell<R: Wait, S: Source, K: Sink>(
    rt: &R,
    alloc: Global,
    hub: &Hub,
    pass: &mut ShellPass,
    source: &mut S,
    sink: &mut K,
) -> ShellEnd
    requires own { IsOf hub.now pass.old }
    requires fresh { NoneOf pass.old.number pass.old.seen }
    ensures pass { pass.new ≡ having_seen pass.old pass.new.seen }
    ensures saw { SawMore hub.now.limits pass.old.seen pass.new.seen }
    ensures law { (read : List ℕ)
        × TookFrom (S.given source.old) (S.given source.new)
        (S.left source.old) (S.left source.new) read
        × ReadsShell hub.now.limits pass.new read (S.left source.new)
        (K.held sink.old) (K.held sink.new) result }
    ensures given_quiet { StaysQuiet (S.given source.old) (S.given source.new) }
    ensures left_quiet { StaysQuiet (S.left source.old) (S.left source.new) }
    ensures held_quiet { StaysQuiet (K.held sink.old) (K.held sink.new) }
    ensures reads_never_fall { S.fault_count source.old ≤ S.fault_count source.new }
    ensures writes_never_fall { K.fault_count sink.old ≤ K.fault_count sink.new }
    ensures read_fault { result ≡ ShellEnd.ReadFault
        → Rose (S.fault_count source.old) (S.fault_count source.new) }
    ensures write_fault { result ≡ ShellEnd.WriteFault
        → Rose (K.fault_count sink.old) (K.fault_count sink.new) }
    ensures no_read_fault { result ≢ ShellEnd.ReadFault
        → S.fault_count source.new ≡ S.fault_count source.old }
    ensures no_write_fault { result ≢ ShellEnd.WriteFault
        → K.fault_count sink.new ≡ K.fault_count sink.old }
{
    let mut reader = match LineReader::new(alloc, None) {
        Ok(reader) => reader,
        Err(NoMemory) => return ShellEnd::NoMemory,
    };
    for _ in rt.forever() {
        if let Err(end) = serve_line(rt, alloc, hub, pass, &mut reader, source, sink) {
            return end;
        }
    }
    unreachable!()
}
