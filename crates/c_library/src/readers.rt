//! What C is shown of a seat.
ghost use Rattle.std.specs.Prelude.{◌≡◌, List};
ghost use Rattle.relay_model.specs.declared.act.Act.{Act};
ghost use Rattle.c_relay.specs.Events.{Heard};
ghost use Rattle.c_relay.specs.Seated.{Seated};
ghost use Rattle.c_library.specs.Shown.{IsShown, IsNumber, label_or_0, shown_of};

use crate::opened::{Wlim, put, taken};
use c_relay::RelaySeat;
use relay_model::Label;
use std::alloc::Global;

/// What stands on a seat. A label is 0 where there is none.
#[repr(C)]
#[derive(Clone, Copy, Debug, PartialEq, Eq)]
pub struct Shown {
    /// How many acts the seat took.
    pub acts: u32,
    /// The surface that has the keyboard focus.
    pub focus: u32,
    /// The field that holds the seat.
    pub holder: u32,
    /// The method that serves the seat.
    pub serving: u32,
    /// The grab that stands.
    pub standing: u32,
}

pub(crate) fn label_or_0(label: Option<Label>) -> Label
    ensures { result ≡ label_or_0 label }
{
    match label {
        Some(label) => label,
        None => 0,
    }
}

fn show(seat: &RelaySeat) -> Shown
    ensures { (log : List Act) → (waits : List Heard) → Seated seat.now log waits → result ≡
        shown_of log }
{
    Shown {
        acts: seat.acts(),
        focus: label_or_0(seat.focus()),
        holder: label_or_0(seat.holder()),
        serving: label_or_0(seat.serving()),
        standing: label_or_0(seat.standing()),
    }
}

/// Writes what stands on the seat, which stays as it is. False where none is open: nothing is
/// written then.
#[unsafe(no_mangle)]
pub extern "C" fn wlim_look(seat: &mut Wlim, alloc: Global, shown: &mut Shown) -> bool
    ensures { IsShown seat.old.held.seat seat.new.held.seat shown.old shown.new result }
{
    let Some(boxed) = taken(seat, alloc) else {
        return false;
    };
    *shown = show(boxed.seat());
    put(seat, boxed);
    true
}

/// The number that the label was given; 0 where it has none, or no seat is open.
#[unsafe(no_mangle)]
pub extern "C" fn wlim_number(seat: &mut Wlim, alloc: Global, label: u32) -> u64
    ensures { IsNumber seat.old.held.seat seat.new.held.seat label result }
{
    let Some(boxed) = taken(seat, alloc) else {
        return 0;
    };
    let number = boxed.number(label);
    put(seat, boxed);
    number
}

/// The version of these functions: it grows where one of them changes or goes, and where there is a new event.
#[unsafe(no_mangle)]
pub extern "C" fn wlim_version() -> u32
    ensures { result ≡ 2 }
{
    2
}
