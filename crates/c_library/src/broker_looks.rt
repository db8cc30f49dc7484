//! How a broker and its peers stand. Each call leaves the broker as it is.
ghost use Rattle.std.specs.Prelude.{◌≡◌, pos};
ghost use Rattle.c_library.specs.Called.{Asked};
ghost use Rattle.c_library.specs.LooksCalled.{ReadyCalled, UsedCalled, standing_in, stored_in, joined_in};
ghost use Rattle.c_library.specs.LooksCalled.{grab_in, used_in};

use crate::answer;
use crate::broker::{WlimBroker, put_in, taken_out};
use crate::codes::{standing_code, stored_code};
use crate::readers::label_or_0;
use c_broker::ByteSeat;
use std::alloc::Global;

/// How much of the limits of a broker is used up.
#[repr(C)]
#[derive(Clone, Copy, Debug, PartialEq, Eq)]
pub struct Used {
    /// So many entries.
    pub entries: u32,
    /// So much they weigh.
    pub weight: u64,
}

/// How a peer stands.
#[unsafe(no_mangle)]
pub extern "C" fn wlim_broker_standing(broker: &mut WlimBroker, alloc: Global, peer: u32) -> i64
    ensures { Asked (standing_in peer) broker.old.held.seat broker.new.held.seat result }
{
    let Some(seat) = taken_out(broker, alloc) else {
        return answer::CLOSED;
    };
    let answer = standing_code(seat.standing(peer));
    put_in(broker, seat);
    answer
}

/// How many bytes are stored for a peer, alive or ended.
#[unsafe(no_mangle)]
pub extern "C" fn wlim_broker_stored(broker: &mut WlimBroker, alloc: Global, peer: u32) -> i64
    ensures { Asked (stored_in peer) broker.old.held.seat broker.new.held.seat result }
{
    let Some(seat) = taken_out(broker, alloc) else {
        return answer::CLOSED;
    };
    let answer = stored_code(seat.stored(peer));
    put_in(broker, seat);
    answer
}

/// How many peers joined, alive or not.
#[unsafe(no_mangle)]
pub extern "C" fn wlim_broker_peers(broker: &mut WlimBroker, alloc: Global) -> i64
    ensures { Asked (λ b. pos (joined_in b)) broker.old.held.seat broker.new.held.seat result }
{
    let Some(seat) = taken_out(broker, alloc) else {
        return answer::CLOSED;
    };
    let answer = i64::from(seat.peers());
    put_in(broker, seat);
    answer
}

/// The lowest number of a peer above `after` for which bytes are stored; 0 where there is none. Its cost grows with the
/// peers that live or have bytes stored, not with those that came and went.
#[unsafe(no_mangle)]
pub extern "C" fn wlim_broker_ready(broker: &mut WlimBroker, alloc: Global, after: u32) -> i64
    ensures { ReadyCalled after broker.old.held.seat broker.new.held.seat result }
{
    let Some(seat) = taken_out(broker, alloc) else {
        return answer::CLOSED;
    };
    let answer = i64::from(seat.ready(after));
    put_in(broker, seat);
    answer
}

/// Above 0 where a grab stands, to which the modifiers of the seat's keyboard go; 0 where they go to the focused
/// surface.
#[unsafe(no_mangle)]
pub extern "C" fn wlim_broker_grab(broker: &mut WlimBroker, alloc: Global) -> i64
    ensures { Asked grab_in broker.old.held.seat broker.new.held.seat result }
{
    let Some(seat) = taken_out(broker, alloc) else {
        return answer::CLOSED;
    };
    let answer = i64::from(label_or_0(seat.grab()));
    put_in(broker, seat);
    answer
}

// How much of the limits is used up.
fn used_of(seat: &ByteSeat) -> Used
    ensures { result ≡ used_in seat.now }
{
    let kept = seat.kept();
    Used {
        entries: kept.entries,
        weight: kept.weight,
    }
}

/// Writes how much of the limits is used up: each entry and its weight counts, also of steps long ago.
#[unsafe(no_mangle)]
pub extern "C" fn wlim_broker_used(broker: &mut WlimBroker, alloc: Global, used: &mut Used) -> i64
    ensures { UsedCalled used.old used.new broker.old.held.seat broker.new.held.seat result }
{
    let Some(seat) = taken_out(broker, alloc) else {
        return answer::CLOSED;
    };
    *used = used_of(&seat);
    put_in(broker, seat);
    answer::GIVEN
}
