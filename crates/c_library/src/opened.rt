//! A seat as a program in C has it: opened and closed, given acts, and asked for events.
ghost use Rattle.std.specs.Prelude.{◌≡◌, ◌<◌, None, Some, is_some, option_map, length, OnOk};
ghost use Rattle.c_library.specs.Took.{Took, Made, Ended, TextRead, IsNewOr, answer_of};

use crate::answer;
use crate::held::Held;
use c_relay::{NumberedSeat, OBJECT_LIMIT, PEER_LIMIT, Refusal, SeatLimits};
use relay_model::{Act, Label, Text};
use std::alloc::Global;
use std::mem::replace;

/// A seat, or none. All zero is none.
#[repr(C)]
#[derive(Drop)]
pub struct Wlim {
    pub live: bool,
    pub held: Held,
    ghost holds: { live ≡ is_some held.seat },
}

/// How many bytes a text may have that a message carries alone.
pub(crate) const ALONE: usize = 4083;

/// How many beside two numbers.
pub(crate) const BESIDE_NUMBERS: usize = 4075;

// Takes the seat out.
pub(crate) fn taken(w: &mut Wlim, alloc: Global) -> Option<Box<NumberedSeat>>
    ensures value { option_map (λ boxed. boxed.value) result ≡ w.old.held.seat }
    ensures none { w.new.held.seat ≡ None }
{
    let Wlim { live, held } = replace(
        w,
        Wlim {
            live: false,
            held: Held::nothing(alloc),
        },
    );
    if live { Some(held.into_box()) } else { None }
}

// Puts a seat in.
pub(crate) fn put(w: &mut Wlim, seat: Box<NumberedSeat>)
    ensures { w.new.held.seat ≡ Some seat.value }
{
    let _ = replace(
        w,
        Wlim {
            live: true,
            held: Held::of_box(seat),
        },
    );
}

// What C is answered.
fn answer_of(answer: Result<Option<Label>, Refusal>) -> i64
    ensures { result ≡ answer_of answer }
{
    match answer {
        Ok(Some(number)) => i64::from(number),
        Ok(None) => answer::NOTHING,
        Err(Refusal::NoMemory) => answer::NO_MEMORY,
        Err(Refusal::Full) => answer::FULL,
        Err(Refusal::Long) => answer::LONG,
        Err(Refusal::Many) => answer::MANY,
    }
}

// A copy of the bytes as a text, of so many at most, or what C is answered.
pub(crate) fn text_in(alloc: Global, bytes: &[u8], most: usize) -> Result<Text, i64>
    ensures { TextRead most bytes.now result }
{
    if bytes.len() > most {
        return Err(answer::LONG);
    }
    let Ok(copy) = Vec::from_slice(alloc, bytes) else {
        return Err(answer::NO_MEMORY);
    };
    match Text::from_bytes(copy) {
        Ok(text) => Ok(text),
        Err(_) => Err(answer::NO_TEXT),
    }
}

// Has the seat take an act.
pub(crate) fn take(w: &mut Wlim, alloc: Global, act: Act) -> i64
    ensures { Took w.old.held.seat w.new.held.seat act result }
{
    let Some(mut seat) = taken(w, alloc) else {
        return answer::CLOSED;
    };
    let answer = seat.take(&act);
    put(w, seat);
    answer_of(answer)
}

// Has the seat take an act that makes an object, which gets the number.
pub(crate) fn make(w: &mut Wlim, alloc: Global, act: Act, number: u64) -> i64
    ensures { Made number w.old.held.seat w.new.held.seat act result }
{
    let Some(mut seat) = taken(w, alloc) else {
        return answer::CLOSED;
    };
    let answer = seat.make(&act, number);
    put(w, seat);
    answer_of(answer)
}

// Has the seat take the end of an object, whose number is forgotten.
pub(crate) fn end(w: &mut Wlim, alloc: Global, label: Label) -> i64
    ensures { Ended label w.old.held.seat w.new.held.seat result }
{
    let Some(mut seat) = taken(w, alloc) else {
        return answer::CLOSED;
    };
    let answer = seat.end(label);
    put(w, seat);
    answer_of(answer)
}

// Opens a seat that took no act, with limits of its own.
fn open(seat: &mut Wlim, alloc: Global, limits: SeatLimits) -> bool
    ensures { IsNewOr limits result seat.new.held.seat }
{
    wlim_close(seat, alloc);
    let Ok(made) = NumberedSeat::new(alloc, limits) else {
        return false;
    };
    let Ok(boxed) = Box::new(alloc, made) else {
        return false;
    };
    put(seat, boxed);
    true
}

/// Opens a seat that took no act, of at most 64 peers with at most 256 objects each. One that is open is closed before.
/// False where there is no memory: nothing is open then.
#[unsafe(no_mangle)]
pub extern "C" fn wlim_open(seat: &mut Wlim, alloc: Global) -> bool
    ensures { IsNewOr (record { peers = 64; objects = 256 }) result seat.new.held.seat }
{
    open(
        seat,
        alloc,
        SeatLimits {
            peers: PEER_LIMIT,
            objects: OBJECT_LIMIT,
        },
    )
}

/// As `wlim_open`, of at most so many peers with at most so many objects each.
#[unsafe(no_mangle)]
pub extern "C" fn wlim_open_with(seat: &mut Wlim, alloc: Global, peers: u32, objects: u32) -> bool
    ensures { IsNewOr (record { peers = peers; objects = objects }) result seat.new.held.seat }
{
    open(seat, alloc, SeatLimits { peers, objects })
}

/// Closes the seat, and gives back all its memory. What isn't open stays so.
#[unsafe(no_mangle)]
pub extern "C" fn wlim_close(seat: &mut Wlim, alloc: Global)
    ensures { seat.new.held.seat ≡ None }
{
    drop(taken(seat, alloc));
}
