//! The dones that the serving method is told, and the present activation.
ghost use Rattle.std.specs.Prelude.{◌≡◌, ◌<◌, ◌^◌, length, false, option_map, None, IfOk};
ghost use Rattle.relay_model.specs.Serial.{named as position_named};
ghost use Rattle.relay_model.specs.Activation.{serving, activates, updates, notice, notice_to};
ghost use Rattle.relay_model.specs.Activation.{dones, begun_by, begun_for, begun, at_position};
ghost use Rattle.relay_model.specs.Activation.{named, is_from, fresh};
ghost use Rattle.relay_model.specs.Hold.{holder};
ghost use Rattle.relay_plain.specs.Seat.{seat_of, seat_before};
ghost use Rattle.relay_plain.specs.Newest.{at_newest};
ghost use Rattle.relay_plain.specs.Activation.{notice_of};

use crate::hold::{begins_hold, word};
use crate::objects::{is_at, next};
use crate::seat::{EMPTY_SEAT, Seat, seat_after, serving};
use relay_model::{Act, Label};
use std::alloc::Global;
use wio_core::NoMemory;

/// What an act tells the serving method, each ended by a done.
#[derive(Clone, Copy)]
pub enum HoldNotice {
    /// A field begins to hold: `activate` and its state.
    Activates,
    /// The holder committed its state.
    Updates,
    /// The holder holds no more: `deactivate`.
    Deactivates,
}

// A commit of the holder without a word.
fn updates(act: &Act, older: &[Act], held: Option<Label>) -> bool
    requires { held ≡ holder older.now }
    ensures { result ≡ updates act.now older.now }
{
    match act {
        Act::Commit { field } => is_at(held, *field) && word(older, *field).is_none(),
        _ => false,
    }
}

// A hold begins, also one that takes the seat from another field, or a method comes while a field holds.
fn activates(log: &[Act], before: Seat, after: Seat) -> bool
    requires before { before ≡ seat_before log.now before }
    requires after { after ≡ seat_of log.now }
    ensures { result ≡ at_newest activates false log.now }
{
    match log {
        [] => false,
        [act, older @ ..] => {
            let made = matches!(act, Act::Method { .. }) && before.serving.is_none();
            begins_hold(act, older) || made && after.holder.is_some()
        }
    }
}

/// What the newest act says of the hold, where the seat was this before it and is this after it.
pub fn notice(log: &[Act], before: Seat, after: Seat) -> Option<HoldNotice>
    requires before { before ≡ seat_before log.now before }
    requires after { after ≡ seat_of log.now }
    ensures { option_map notice_of result ≡ at_newest notice None log.now }
{
    match log {
        [] => None,
        [act, older @ ..] => {
            if activates(log, before, after) {
                Some(HoldNotice::Activates)
            } else if updates(act, older, before.holder) {
                Some(HoldNotice::Updates)
            } else if before.holder.is_some() && after.holder.is_none() {
                Some(HoldNotice::Deactivates)
            } else {
                None
            }
        }
    }
}

// What the newest act tells a method, which is told only while it serves after the act.
fn notice_to(method: Label, log: &[Act], before: Seat, after: Seat) -> Option<HoldNotice>
    requires before { before ≡ seat_before log.now before }
    requires after { after ≡ seat_of log.now }
    ensures { option_map notice_of result ≡ at_newest (notice_to method) None log.now }
{
    if is_at(after.serving, method) {
        notice(log, before, after)
    } else {
        None
    }
}

// The acts that told a method a done, rising; and the seat after them.
fn dones(alloc: Global, log: &[Act], method: Label) -> Result<(Vec<usize>, Seat), NoMemory>
    requires { length log.now < 2 ^ 32 }
    ensures dones { IfOk result (λ found. found.0.items ≡ dones log.now method) }
    ensures seat { IfOk result (λ found. found.1 ≡ seat_of log.now) }
{
    match log {
        [] => Ok((Vec::new(alloc), EMPTY_SEAT)),
        [_, older @ ..] => {
            let (mut told, before) = dones(alloc, older, method)?;
            let after = seat_after(log, before);
            if notice_to(method, log, before, after).is_some() {
                told.push(next(older))?;
            }
            Ok((told, after))
        }
    }
}

// The act that began the present activation of a method, after an act that told it this.
fn begun_by(number: usize, notice: Option<HoldNotice>, before: Option<usize>) -> Option<usize>
    ensures { result ≡ begun_by number (option_map notice_of notice) before }
{
    match notice {
        Some(HoldNotice::Activates) => Some(number),
        Some(HoldNotice::Updates) | None => before,
        Some(HoldNotice::Deactivates) => None,
    }
}

// The last activation that was told to a method, where no deactivation followed; and the seat after the acts.
fn begun_for(log: &[Act], method: Label) -> (Option<usize>, Seat)
    requires { length log.now < 2 ^ 32 }
    ensures begun { result.0 ≡ begun_for log.now method }
    ensures seat { result.1 ≡ seat_of log.now }
{
    match log {
        [] => (None, EMPTY_SEAT),
        [_, older @ ..] => {
            let (begun, before) = begun_for(older, method);
            let after = seat_after(log, before);
            let notice = notice_to(method, log, before, after);
            (begun_by(next(older), notice, begun), after)
        }
    }
}

/// The act that began the present activation.
pub fn begun(log: &[Act]) -> Option<usize>
    requires { length log.now < 2 ^ 32 }
    ensures { result ≡ begun log.now }
{
    match serving(log) {
        Some(method) => begun_for(log, method).0,
        None => None,
    }
}

// The latest of so many dones whose number modulo 2^32 is the serial.
fn position_named(dones: usize, serial: u32) -> Option<usize>
    ensures { result ≡ position_named dones serial }
{
    if dones == 0 {
        None
    } else if dones % 4_294_967_296 == serial as usize {
        Some(dones)
    } else {
        position_named(dones - 1, serial)
    }
}

fn at_position(numbers: &[usize], position: Option<usize>) -> Option<usize>
    ensures { result ≡ at_position numbers.now position }
{
    match position {
        Some(position) => numbers.get(position.saturating_sub(1)).copied(),
        None => None,
    }
}

// The done of a method that a serial names: the latest with that number modulo 2^32 (`zwp_input_method_v2.commit`).
fn named(alloc: Global, log: &[Act], method: Label, serial: u32) -> Result<Option<usize>, NoMemory>
    requires { length log.now < 2 ^ 32 }
    ensures { IfOk result (λ done. done ≡ named log.now method serial) }
{
    let (dones, _) = dones(alloc, log, method)?;
    Ok(at_position(&dones, position_named(dones.len(), serial)))
}

// Both are there, and the second isn't below the first.
fn is_from(begun: Option<usize>, done: Option<usize>) -> bool
    ensures { result ≡ is_from begun done }
{
    match (begun, done) {
        (Some(begun), Some(done)) => begun <= done,
        _ => false,
    }
}

/// The act is a commit of the serving method whose serial names a done of the present activation.
pub fn fresh(alloc: Global, act: &Act, older: &[Act]) -> Result<bool, NoMemory>
    requires { length older.now < 2 ^ 32 }
    ensures { IfOk result (λ yes. yes ≡ fresh act.now older.now) }
{
    match act {
        Act::MCommit { method, serial } => {
            let done = named(alloc, older, *method, *serial)?;
            Ok(is_at(serving(older), *method) && is_from(begun(older), done))
        }
        _ => Ok(false),
    }
}
