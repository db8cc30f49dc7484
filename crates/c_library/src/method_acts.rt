//! Requests of an input method (`zwp_input_method_v2`).
ghost use Rattle.c_library.specs.Took.{Took, TookText};

use crate::opened::{ALONE, BESIDE_NUMBERS, Wlim, take, text_in};
use relay_model::Act;
use std::alloc::Global;

/// `zwp_input_method_v2.commit_string`.
#[unsafe(no_mangle)]
pub extern "C" fn wlim_mstring(seat: &mut Wlim, alloc: Global, method: u32, text: &[u8]) -> i64
    ensures { TookText seat.old.held.seat seat.new.held.seat 4083 text.now (λ t. Act.MString method
        t) result }
{
    match text_in(alloc, text, ALONE) {
        Ok(text) => take(seat, alloc, Act::MString { method, text }),
        Err(answer) => answer,
    }
}

/// `zwp_input_method_v2.set_preedit_string`. Begin and end are offsets of the cursor in bytes.
#[unsafe(no_mangle)]
pub extern "C" fn wlim_mpreedit(
    seat: &mut Wlim,
    alloc: Global,
    method: u32,
    text: &[u8],
    begin: i32,
    end: i32,
) -> i64
    ensures { TookText seat.old.held.seat seat.new.held.seat 4075 text.now (λ t. Act.MPreedit method
        t begin end) result }
{
    match text_in(alloc, text, BESIDE_NUMBERS) {
        Ok(text) => take(
            seat,
            alloc,
            Act::MPreedit {
                method,
                text,
                begin,
                end,
            },
        ),
        Err(answer) => answer,
    }
}

/// `zwp_input_method_v2.delete_surrounding_text`. Lengths in bytes before and after the cursor.
#[unsafe(no_mangle)]
pub extern "C" fn wlim_mdelete(
    seat: &mut Wlim,
    alloc: Global,
    method: u32,
    before: u32,
    after: u32,
) -> i64
    ensures { Took seat.old.held.seat seat.new.held.seat (Act.MDelete method before after) result }
{
    take(
        seat,
        alloc,
        Act::MDelete {
            method,
            before,
            after,
        },
    )
}

/// `zwp_input_method_v2.commit`. The serial names one of the dones that the method was told.
#[unsafe(no_mangle)]
pub extern "C" fn wlim_mcommit(seat: &mut Wlim, alloc: Global, method: u32, serial: u32) -> i64
    ensures { Took seat.old.held.seat seat.new.held.seat (Act.MCommit method serial) result }
{
    take(seat, alloc, Act::MCommit { method, serial })
}
