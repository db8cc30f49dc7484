//! Requests of a field (`zwp_text_input_v3`).
ghost use Rattle.c_library.specs.Took.{Took, TookText};

use crate::opened::{BESIDE_NUMBERS, Wlim, take, text_in};
use relay_model::{Act, Rect};
use std::alloc::Global;

/// `zwp_text_input_v3.enable`.
#[unsafe(no_mangle)]
pub extern "C" fn wlim_enable(seat: &mut Wlim, alloc: Global, field: u32) -> i64
    ensures { Took seat.old.held.seat seat.new.held.seat (Act.Enable field) result }
{
    take(seat, alloc, Act::Enable { field })
}

/// `zwp_text_input_v3.disable`.
#[unsafe(no_mangle)]
pub extern "C" fn wlim_disable(seat: &mut Wlim, alloc: Global, field: u32) -> i64
    ensures { Took seat.old.held.seat seat.new.held.seat (Act.Disable field) result }
{
    take(seat, alloc, Act::Disable { field })
}

/// `zwp_text_input_v3.set_surrounding_text`. Cursor and anchor are offsets in bytes.
#[unsafe(no_mangle)]
pub extern "C" fn wlim_surround(
    seat: &mut Wlim,
    alloc: Global,
    field: u32,
    text: &[u8],
    cursor: i32,
    anchor: i32,
) -> i64
    ensures { TookText seat.old.held.seat seat.new.held.seat 4075 text.now (λ t. Act.Surround field
        t cursor anchor) result }
{
    match text_in(alloc, text, BESIDE_NUMBERS) {
        Ok(text) => take(
            seat,
            alloc,
            Act::Surround {
                field,
                text,
                cursor,
                anchor,
            },
        ),
        Err(answer) => answer,
    }
}

/// `zwp_text_input_v3.set_text_change_cause`.
#[unsafe(no_mangle)]
pub extern "C" fn wlim_cause(seat: &mut Wlim, alloc: Global, field: u32, cause: u32) -> i64
    ensures { Took seat.old.held.seat seat.new.held.seat (Act.Cause field cause) result }
{
    take(seat, alloc, Act::Cause { field, cause })
}

/// `zwp_text_input_v3.set_content_type`.
#[unsafe(no_mangle)]
pub extern "C" fn wlim_content(
    seat: &mut Wlim,
    alloc: Global,
    field: u32,
    hint: u32,
    purpose: u32,
) -> i64
    ensures { Took seat.old.held.seat seat.new.held.seat (Act.Content field hint purpose) result }
{
    take(
        seat,
        alloc,
        Act::Content {
            field,
            hint,
            purpose,
        },
    )
}

/// `zwp_text_input_v3.set_cursor_rectangle`.
#[unsafe(no_mangle)]
pub extern "C" fn wlim_rect(
    seat: &mut Wlim,
    alloc: Global,
    field: u32,
    x: i32,
    y: i32,
    width: i32,
    height: i32,
) -> i64
    ensures { Took seat.old.held.seat seat.new.held.seat (Act.Cursor field (record {
      x = x;
      y = y;
      width = width;
      height = height;
    })) result }
{
    take(
        seat,
        alloc,
        Act::Cursor {
            field,
            rect: Rect {
                x,
                y,
                width,
                height,
            },
        },
    )
}

/// `zwp_text_input_v3.commit`.
#[unsafe(no_mangle)]
pub extern "C" fn wlim_commit(seat: &mut Wlim, alloc: Global, field: u32) -> i64
    ensures { Took seat.old.held.seat seat.new.held.seat (Act.Commit field) result }
{
    take(seat, alloc, Act::Commit { field })
}
