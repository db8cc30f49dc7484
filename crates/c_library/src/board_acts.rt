//! Requests of a virtual keyboard (`zwp_virtual_keyboard_v1`).
ghost use Rattle.c_library.specs.Took.{Took};

use crate::opened::{Wlim, take};
use relay_model::{Act, Keymap, Mods};
use std::alloc::Global;

/// `zwp_virtual_keyboard_v1.keymap`. It is told to nobody; a board sends no key before it.
#[unsafe(no_mangle)]
pub extern "C" fn wlim_vkeymap(
    seat: &mut Wlim,
    alloc: Global,
    board: u32,
    format: u32,
    token: u32,
    size: u32,
) -> i64
    ensures { Took seat.old.held.seat seat.new.held.seat (Act.VKeymap board (record {
      format =
          format;
      token = token;
      size = size;
    })) result }
{
    take(
        seat,
        alloc,
        Act::VKeymap {
            board,
            keymap: Keymap {
                format,
                token,
                size,
            },
        },
    )
}

/// `zwp_virtual_keyboard_v1.key`: state 0 is released, 1 pressed.
#[unsafe(no_mangle)]
pub extern "C" fn wlim_vkey(
    seat: &mut Wlim,
    alloc: Global,
    board: u32,
    time: u32,
    key: u32,
    state: u32,
) -> i64
    ensures { Took seat.old.held.seat seat.new.held.seat (Act.VKey board time key state) result }
{
    take(
        seat,
        alloc,
        Act::VKey {
            board,
            time,
            key,
            state,
        },
    )
}

/// `zwp_virtual_keyboard_v1.modifiers`.
#[unsafe(no_mangle)]
pub extern "C" fn wlim_vmods(
    seat: &mut Wlim,
    alloc: Global,
    board: u32,
    depressed: u32,
    latched: u32,
    locked: u32,
    group: u32,
) -> i64
    ensures { Took seat.old.held.seat seat.new.held.seat (Act.VMods board (record {
      depressed =
          depressed;
      latched = latched;
      locked = locked;
      group = group;
    })) result }
{
    take(
        seat,
        alloc,
        Act::VMods {
            board,
            mods: Mods {
                depressed,
                latched,
                locked,
                group,
            },
        },
    )
}
