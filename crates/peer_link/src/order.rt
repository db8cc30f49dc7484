//! The orders of a shell's link, one a line.
ghost use Rattle.std.specs.Prelude.{◌≡◌, ◌≢◌, ◌≤◌, ◌++◌, ℕ, List, IfOk, IfErr, OnSome, Err};
ghost use Rattle.wio_core.specs.Io.{Rose, StaysQuiet};
ghost use Rattle.wio_core.specs.Lines.{TookFrom};
ghost use Rattle.broker_steps.specs.Ranges.{IsShellStep};
ghost use Rattle.hub_lock.specs.Seats.{having_seen};
ghost use Rattle.hub_lock.specs.Passes.{IsOf};
ghost use Rattle.peer_link.specs.Made.{SawMore};
ghost use Rattle.peer_link.specs.ShellLines.{IsOrder};
ghost use Rattle.peer_link.specs.Ordering.{CanGoOn, NoOrder, ReadsOrder, IsOrdered, NotOrdered};

use crate::ends::ShellEnd;
use broker_core::{Applied, Refused};
use broker_steps::ShellStep;
use hub_lock::{Hub, ShellPass};
use session_text::{BadLine, Form, Line, read_line};
use std::alloc::Global;
use std::sync::Wait;
use wio_core::{LineReader, NextLine, Source};

// The order of a line, which has that number.
fn order_of(alloc: Global, line: &[u8], number: u64) -> Result<ShellStep, ShellEnd>
    ensures order { IfOk result (IsOrder line.now) }
    ensures valid { IfOk result IsShellStep }
    ensures none { IfErr result (NoOrder line.now number) }
{
    match read_line(alloc, Form::Shell, line) {
        Ok(Line::Shell(step)) => Ok(step),
        Ok(_) => unreachable!(),
        Err(BadLine::Grammar) => Err(ShellEnd::BadLine(number)),
        Err(BadLine::NoMemory) => Err(ShellEnd::NoMemory),
    }
}

/// Reads the next line, which has that number, and its order.
pub(crate) fn read_order<S: Source>(
    alloc: Global,
    reader: &mut LineReader,
    source: &mut S,
    number: u64,
) -> Result<ShellStep, ShellEnd>
    requires { CanGoOn reader.old }
    ensures reads { (more : List ℕ)
        × TookFrom (S.given source.old) (S.given source.new)
        (S.left source.old) (S.left source.new) more
        × ReadsOrder reader.old (reader.old.held ++ more) reader.new
        (S.left source.new) number result }
    ensures ahead { IfOk result (λ _. CanGoOn reader.new) }
    ensures valid { IfOk result IsShellStep }
    ensures stays { OnSome reader.old.settled (source.new ≡ source.old) }
    ensures given_quiet { StaysQuiet (S.given source.old) (S.given source.new) }
    ensures left_quiet { StaysQuiet (S.left source.old) (S.left source.new) }
    ensures never_falls { S.fault_count source.old ≤ S.fault_count source.new }
    ensures cause { result ≡ Err ShellEnd.ReadFault
        → Rose (S.fault_count source.old) (S.fault_count source.new) }
    ensures no_fault { result ≢ Err ShellEnd.ReadFault
        → S.fault_count source.new ≡ S.fault_count source.old }
{
    match reader.next(source) {
        NextLine::Line(line) => order_of(alloc, line, number),
        NextLine::End => Err(ShellEnd::Closed),
        NextLine::Long => Err(ShellEnd::BadLine(number)),
        NextLine::Limit => unreachable!(),
        NextLine::ReadFault => Err(ShellEnd::ReadFault),
    }
}

/// Gives an order.
pub(crate) fn give_order<R: Wait>(
    rt: &R,
    hub: &Hub,
    pass: &mut ShellPass,
    step: &ShellStep,
) -> Result<Applied, ShellEnd>
    requires own { IsOf hub.now pass.old }
    requires step { IsShellStep step.now }
    ensures pass { pass.new ≡ having_seen pass.old pass.new.seen }
    ensures saw { SawMore hub.now.limits pass.old.seen pass.new.seen }
    ensures ordered { IfOk result (IsOrdered hub.now.limits pass.old pass.new step.now) }
    ensures refused { IfErr result (NotOrdered hub.now.limits pass.old pass.new step.now) }
{
    match hub.order(rt, pass, step) {
        Ok(applied) => Ok(applied),
        Err(Refused::JournalFull(kept)) => Err(ShellEnd::JournalFull(kept)),
        Err(Refused::NoMemory) => Err(ShellEnd::NoMemory),
        Err(Refused::NoPeer | Refused::Ended(_)) => unreachable!(),
    }
}
