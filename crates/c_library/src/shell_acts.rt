//! What the shell does: the keyboard focus, the keyboard, and where things are.
ghost use Rattle.c_library.specs.Took.{Took};

use crate::opened::{Wlim, take};
use relay_model::{Act, Keymap, Mods, Rect, Repeat, Size};
use std::alloc::Global;

/// The keyboard focus goes to a surface.
#[unsafe(no_mangle)]
pub extern "C" fn wlim_focus(seat: &mut Wlim, alloc: Global, surface: u32) -> i64
    ensures { Took seat.old.held.seat seat.new.held.seat (Act.Focus surface) result }
{
    take(seat, alloc, Act::Focus { surface })
}

/// The keyboard focus is taken away.
#[unsafe(no_mangle)]
pub extern "C" fn wlim_unfocus(seat: &mut Wlim, alloc: Global) -> i64
    ensures { Took seat.old.held.seat seat.new.held.seat Act.Unfocus result }
{
    take(seat, alloc, Act::Unfocus)
}

/// A surface is placed on the screen.
#[unsafe(no_mangle)]
pub extern "C" fn wlim_area(
    seat: &mut Wlim,
    alloc: Global,
    surface: u32,
    x: i32,
    y: i32,
    width: i32,
    height: i32,
) -> i64
    ensures { Took seat.old.held.seat seat.new.held.seat (Act.Area surface (record {
      x = x;
      y = y;
      width = width;
      height = height;
    })) result }
{
    take(
        seat,
        alloc,
        Act::Area {
            surface,
            rect: Rect {
                x,
                y,
                width,
                height,
            },
        },
    )
}

/// How large the screen is.
#[unsafe(no_mangle)]
pub extern "C" fn wlim_screen(seat: &mut Wlim, alloc: Global, width: i32, height: i32) -> i64
    ensures { Took seat.old.held.seat seat.new.held.seat (Act.Screen (record {
      width = width;
      height
          = height;
    })) result }
{
    take(
        seat,
        alloc,
        Act::Screen {
            size: Size { width, height },
        },
    )
}

/// A key of the seat's keyboard: state 0 is released, 1 pressed.
#[unsafe(no_mangle)]
pub extern "C" fn wlim_key(seat: &mut Wlim, alloc: Global, time: u32, key: u32, state: u32) -> i64
    ensures { Took seat.old.held.seat seat.new.held.seat (Act.Key time key state) result }
{
    take(seat, alloc, Act::Key { time, key, state })
}

/// The modifiers of the seat's keyboard.
#[unsafe(no_mangle)]
pub extern "C" fn wlim_mods(
    seat: &mut Wlim,
    alloc: Global,
    depressed: u32,
    latched: u32,
    locked: u32,
    group: u32,
) -> i64
    ensures { Took seat.old.held.seat seat.new.held.seat (Act.Mods (record {
      depressed = depressed;
      latched = latched;
      locked = locked;
      group = group;
    })) result }
{
    take(
        seat,
        alloc,
        Act::Mods(Mods {
            depressed,
            latched,
            locked,
            group,
        }),
    )
}

/// The keymap of the seat's keyboard; `token` is the embedder's, and comes back with the event.
#[unsafe(no_mangle)]
pub extern "C" fn wlim_keymap(
    seat: &mut Wlim,
    alloc: Global,
    format: u32,
    token: u32,
    size: u32,
) -> i64
    ensures { Took seat.old.held.seat seat.new.held.seat (Act.Keymap (record {
      format = format;
      token = token;
      size = size;
    })) result }
{
    take(
        seat,
        alloc,
        Act::Keymap(Keymap {
            format,
            token,
            size,
        }),
    )
}

/// How keys repeat.
#[unsafe(no_mangle)]
pub extern "C" fn wlim_repeat(seat: &mut Wlim, alloc: Global, rate: i32, delay: i32) -> i64
    ensures { Took seat.old.held.seat seat.new.held.seat (Act.Repeat (record {
      rate = rate;
      delay =
          delay;
    })) result }
{
    take(seat, alloc, Act::Repeat(Repeat { rate, delay }))
}
