//! What C is given of the events that wait.
ghost use Rattle.std.specs.Prelude.{◌≡◌};
ghost use Rattle.c_library.specs.Gave.{Gave, GaveOf};

use crate::answer;
use crate::opened::{Wlim, put, taken};
use c_relay::{Event, NumberedSeat};
use std::alloc::Global;

/// An event, and the embedder's number of the object that it is told to.
#[repr(C)]
#[derive(Clone, Copy, Debug, PartialEq, Eq)]
pub struct Given {
    /// The event.
    pub event: Event,
    /// The number of `event.to`; 0 where it has none.
    pub number: u64,
}

// Hands out the event that waits longest, and writes its text with a zero behind it.
fn give(seat: &mut NumberedSeat, given: &mut Given, text: &mut [u8]) -> i64
    ensures { Gave seat.old seat.new given.old given.new text.old text.new result }
{
    let Some(first) = seat.seat().first() else {
        return answer::NOTHING;
    };
    if text.len() <= first.length {
        return answer::SHORT;
    }
    let Ok(Some(event)) = seat.pull(text) else {
        return answer::NOTHING;
    };
    text[event.length] = 0;
    let number = seat.number(event.to);
    *given = Given { event, number };
    answer::GIVEN
}

/// Hands out the event that waits longest: writes it to `event`, and to `text` its text with a zero
/// behind it; what stands behind the zero stays. 1 with an event, 0 where none waits. Where `text`
/// has no room for the text and the zero, the event waits on, and nothing is written; with 4,084
/// bytes there is room always.
#[unsafe(no_mangle)]
pub extern "C" fn wlim_next(
    seat: &mut Wlim,
    alloc: Global,
    event: &mut Given,
    text: &mut [u8],
) -> i64
    ensures { GaveOf seat.old.held.seat seat.new.held.seat event.old event.new text.old text.new
        result }
{
    let Some(mut boxed) = taken(seat, alloc) else {
        return answer::CLOSED;
    };
    let answer = give(&mut boxed, event, text);
    put(seat, boxed);
    answer
}
