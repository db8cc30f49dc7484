//! What the shell says to a broker: the keyboard focus, the keyboard, and where things are.
ghost use Rattle.std.specs.Prelude.{◌≡◌};
ghost use Rattle.broker_steps.specs.Ranges.{IsShellStep};
ghost use Rattle.c_library.specs.Called.{Tells};
ghost use Rattle.c_library.specs.OrdersCalled.{Says, SayCalled};

use crate::answer;
use crate::broker::{WlimBroker, put_in, taken_out};
use crate::codes::{order_code, stamp_at};
use broker_steps::ShellStep;
use c_broker::ByteSeat;
use relay_model::{Keymap, Mods, Rect, Repeat, Size};
use std::alloc::Global;

// Whether a key's state is 0 or 1, and sizes aren't negative.
fn is_in_range(step: ShellStep) -> bool
    ensures { Tells (IsShellStep step) result }
{
    match step {
        ShellStep::Area { rect, .. } => rect.width >= 0 && rect.height >= 0,
        ShellStep::Screen { size } => size.width >= 0 && size.height >= 0,
        ShellStep::Key { state, .. } => state <= 1,
        ShellStep::Focus { .. }
        | ShellStep::Unfocus
        | ShellStep::Mods(_)
        | ShellStep::Keymap(_)
        | ShellStep::Repeat(_)
        | ShellStep::At { .. } => true,
    }
}

// The shell says it, if its numbers are in their ranges.
fn order(seat: &mut ByteSeat, moment: u64, step: ShellStep) -> i64
    ensures { Says moment step seat.old seat.new result }
{
    if !is_in_range(step) {
        return answer::RANGE;
    }
    order_code(seat.order(step, stamp_at(moment)))
}

// The same of what C has.
fn say(broker: &mut WlimBroker, alloc: Global, moment: u64, step: ShellStep) -> i64
    ensures { SayCalled moment step broker.old.held.seat broker.new.held.seat result }
{
    let Some(mut seat) = taken_out(broker, alloc) else {
        return answer::CLOSED;
    };
    let answer = order(&mut seat, moment, step);
    put_in(broker, seat);
    answer
}

/// The keyboard focus goes to a surface.
#[unsafe(no_mangle)]
pub extern "C" fn wlim_broker_focus(
    broker: &mut WlimBroker,
    alloc: Global,
    moment: u64,
    peer: u32,
    id: u32,
) -> i64
    ensures { SayCalled moment (ShellStep.Focus peer id) broker.old.held.seat broker.new.held.seat
        result }
{
    say(broker, alloc, moment, ShellStep::Focus { peer, id })
}

/// The keyboard focus goes away.
#[unsafe(no_mangle)]
pub extern "C" fn wlim_broker_unfocus(broker: &mut WlimBroker, alloc: Global, moment: u64) -> i64
    ensures { SayCalled moment ShellStep.Unfocus broker.old.held.seat broker.new.held.seat result }
{
    say(broker, alloc, moment, ShellStep::Unfocus)
}

/// Where a surface stands on the screen, in pixels; the size isn't negative.
#[unsafe(no_mangle)]
pub extern "C" fn wlim_broker_area(
    broker: &mut WlimBroker,
    alloc: Global,
    moment: u64,
    peer: u32,
    id: u32,
    x: i32,
    y: i32,
    width: i32,
    height: i32,
) -> i64
    ensures { SayCalled moment (ShellStep.Area peer id (record {
      x = x;
      y = y;
      width = width;
      height = height;
    })) broker.old.held.seat broker.new.held.seat result }
{
    let rect = Rect {
        x,
        y,
        width,
        height,
    };
    say(broker, alloc, moment, ShellStep::Area { peer, id, rect })
}

/// How large the screen is, in pixels; not negative.
#[unsafe(no_mangle)]
pub extern "C" fn wlim_broker_screen(
    broker: &mut WlimBroker,
    alloc: Global,
    moment: u64,
    width: i32,
    height: i32,
) -> i64
    ensures { SayCalled moment (ShellStep.Screen (record {
      width = width;
      height = height;
    })) broker.old.held.seat broker.new.held.seat result }
{
    let size = Size { width, height };
    say(broker, alloc, moment, ShellStep::Screen { size })
}

/// A key of the seat's keyboard: state 0 is released, 1 pressed; time in milliseconds.
#[unsafe(no_mangle)]
pub extern "C" fn wlim_broker_key(
    broker: &mut WlimBroker,
    alloc: Global,
    moment: u64,
    time: u32,
    key: u32,
    state: u32,
) -> i64
    ensures { SayCalled moment (ShellStep.Key time key state) broker.old.held.seat
        broker.new.held.seat result }
{
    say(broker, alloc, moment, ShellStep::Key { time, key, state })
}

/// The modifiers of the seat's keyboard.
#[unsafe(no_mangle)]
pub extern "C" fn wlim_broker_mods(
    broker: &mut WlimBroker,
    alloc: Global,
    moment: u64,
    depressed: u32,
    latched: u32,
    locked: u32,
    group: u32,
) -> i64
    ensures { SayCalled moment (ShellStep.Mods (record {
      depressed = depressed;
      latched = latched;
      locked = locked;
      group = group;
    })) broker.old.held.seat broker.new.held.seat result }
{
    let mods = Mods {
        depressed,
        latched,
        locked,
        group,
    };
    say(broker, alloc, moment, ShellStep::Mods(mods))
}

/// The keymap of the seat's keyboard; `token` is a number of C's, and comes back with what is taken.
#[unsafe(no_mangle)]
pub extern "C" fn wlim_broker_keymap(
    broker: &mut WlimBroker,
    alloc: Global,
    moment: u64,
    format: u32,
    token: u32,
    size: u32,
) -> i64
    ensures { SayCalled moment (ShellStep.Keymap (record {
      format = format;
      token = token;
      size = size;
    })) broker.old.held.seat broker.new.held.seat result }
{
    let keymap = Keymap {
        format,
        token,
        size,
    };
    say(broker, alloc, moment, ShellStep::Keymap(keymap))
}

/// How keys repeat: how many a second, and after how many milliseconds.
#[unsafe(no_mangle)]
pub extern "C" fn wlim_broker_repeat(
    broker: &mut WlimBroker,
    alloc: Global,
    moment: u64,
    rate: i32,
    delay: i32,
) -> i64
    ensures { SayCalled moment (ShellStep.Repeat (record { rate = rate; delay = delay }))
        broker.old.held.seat broker.new.held.seat result }
{
    say(
        broker,
        alloc,
        moment,
        ShellStep::Repeat(Repeat { rate, delay }),
    )
}
