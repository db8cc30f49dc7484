//! A broker as a program in C has it: all peers of a seat by their bytes, opened and closed.
ghost use Rattle.std.specs.Prelude.{◌≡◌, None, Some, is_some, option_map, IfOk};
ghost use Rattle.broker_steps.specs.Ranges.{IsLimits, IsWithin};
ghost use Rattle.c_library.specs.Called.{Opened, Tells, new_broker};

use crate::answer;
use crate::held_bytes::HeldBytes;
use broker_model::NoMemory;
use broker_steps::{ENTRY_LIMIT, Limits, STORE_LIMIT, WEIGHT_LIMIT};
use c_broker::ByteSeat;
use std::alloc::Global;
use std::mem::replace;

/// A broker, or none. All zero is none.
#[repr(C)]
#[derive(Drop)]
pub struct WlimBroker {
    pub live: bool,
    pub held: HeldBytes,
    ghost holds: { live ≡ is_some held.seat },
}

// Takes the broker out.
pub(crate) fn taken_out(broker: &mut WlimBroker, alloc: Global) -> Option<Box<ByteSeat>>
    ensures value { option_map (λ boxed. boxed.value) result ≡ broker.old.held.seat }
    ensures none { broker.new.held.seat ≡ None }
{
    let WlimBroker { live, held } = replace(
        broker,
        WlimBroker {
            live: false,
            held: HeldBytes::nothing(alloc),
        },
    );
    if live { Some(held.into_box()) } else { None }
}

// Puts a broker in.
pub(crate) fn put_in(broker: &mut WlimBroker, seat: Box<ByteSeat>)
    ensures { broker.new.held.seat ≡ Some seat.value }
{
    let _ = replace(
        broker,
        WlimBroker {
            live: true,
            held: HeldBytes::of_box(seat),
        },
    );
}

// Whether a number is from 1 to so many.
fn is_within(most: u64, number: u64) -> bool
    ensures { Tells (IsWithin most number) result }
{
    1 <= number && number <= most
}

// Whether the limits are in their ranges.
fn are_limits(limits: Limits) -> bool
    ensures { Tells (IsLimits limits) result }
{
    is_within(u64::from(ENTRY_LIMIT), u64::from(limits.entries))
        && is_within(u64::from(STORE_LIMIT), u64::from(limits.store))
        && is_within(WEIGHT_LIMIT, limits.weight)
}

// A broker that nobody joined yet. `NoMemory` is its one error.
fn boxed(alloc: Global, limits: Limits) -> Result<Box<ByteSeat>, NoMemory>
    requires limits { IsLimits limits }
    ensures { IfOk result (λ boxed. boxed.value ≡ new_broker limits) }
{
    let seat = ByteSeat::new(alloc, limits)?;
    Ok(Box::new(alloc, seat)?)
}

/// Opens a broker whose peers have a store of so many bytes each, 1 to 1,048,576, and whose journal may have so many
/// entries, 1 to 4,000,000, and weigh so much, 1 to 536,870,912. One that is open is closed before. Where a number is
/// out of its range, or there is no memory, none is open then.
#[unsafe(no_mangle)]
pub extern "C" fn wlim_broker_open(
    broker: &mut WlimBroker,
    alloc: Global,
    store: u32,
    entries: u32,
    weight: u64,
) -> i64
    ensures { Opened (record { entries = entries; store = store; weight = weight }) result
        broker.new.held.seat }
{
    wlim_broker_close(broker, alloc);
    let limits = Limits {
        entries,
        store,
        weight,
    };
    if !are_limits(limits) {
        return answer::RANGE;
    }
    match boxed(alloc, limits) {
        Ok(seat) => {
            put_in(broker, seat);
            answer::GIVEN
        }
        Err(_) => answer::NO_MEMORY,
    }
}

/// Closes the broker, and gives back all its memory. What isn't open stays so.
#[unsafe(no_mangle)]
pub extern "C" fn wlim_broker_close(broker: &mut WlimBroker, alloc: Global)
    ensures { broker.new.held.seat ≡ None }
{
    drop(taken_out(broker, alloc));
}
