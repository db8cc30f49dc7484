//! Peers by their bytes: they join and end, send, and take what they are to be sent.
ghost use Rattle.std.specs.Prelude.{◌≡◌};
ghost use Rattle.c_library.specs.Codes as coded;
ghost use Rattle.c_library.specs.PeersCalled.{Joins, Receives, Leaves, Takes, counted};
ghost use Rattle.c_library.specs.PeersCalled.{JoinCalled, ReceiveCalled, GoneCalled, TakeCalled};

use crate::answer;
use crate::broker::{WlimBroker, put_in, taken_out};
use crate::codes::{done_code, join_code, role_of, stamp_at};
use c_broker::{ByteSeat, Took};
use std::alloc::Global;

/// The most bytes that are taken at once.
const MOST_BYTES: usize = 4096;

/// The most tokens that come with bytes, to a peer or from it.
const MOST_TOKENS: usize = 256;

/// How much was taken of what is stored for a peer.
#[repr(C)]
#[derive(Clone, Copy, Debug, PartialEq, Eq)]
pub struct Taken {
    /// So many bytes.
    pub bytes: usize,
    /// So many tokens with them.
    pub tokens: usize,
}

// A peer joins as the role with the number, if there is one.
fn join(seat: &mut ByteSeat, moment: u64, role: u32) -> i64
    ensures { Joins moment role seat.old seat.new result }
{
    let Some(role) = role_of(role) else {
        return answer::RANGE;
    };
    join_code(seat.join(role, stamp_at(moment)))
}

/// A peer joins: its role is 1 for an application, 2 for an input method, 3 for one that has virtual keyboards. Above 0
/// the peer's number.
#[unsafe(no_mangle)]
pub extern "C" fn wlim_broker_join(
    broker: &mut WlimBroker,
    alloc: Global,
    moment: u64,
    role: u32,
) -> i64
    ensures { JoinCalled moment role broker.old.held.seat broker.new.held.seat result }
{
    let Some(mut seat) = taken_out(broker, alloc) else {
        return answer::CLOSED;
    };
    let answer = join(&mut seat, moment, role);
    put_in(broker, seat);
    answer
}

// What a peer sent is received, if its tokens aren't too many.
fn receive(seat: &mut ByteSeat, moment: u64, peer: u32, bytes: &[u8], tokens: &[u32]) -> i64
    ensures { Receives moment peer bytes.now tokens.now seat.old seat.new result }
{
    if tokens.len() > MOST_TOKENS {
        return answer::RANGE;
    }
    done_code(seat.receive(peer, bytes, tokens, stamp_at(moment)))
}

/// Bytes of a peer, however they are cut, and the tokens of the descriptors that came with them, at most 256.
#[unsafe(no_mangle)]
pub extern "C" fn wlim_broker_receive(
    broker: &mut WlimBroker,
    alloc: Global,
    moment: u64,
    peer: u32,
    bytes: &[u8],
    tokens: &[u32],
) -> i64
    ensures { ReceiveCalled moment peer bytes.now tokens.now broker.old.held.seat
        broker.new.held.seat result }
{
    let Some(mut seat) = taken_out(broker, alloc) else {
        return answer::CLOSED;
    };
    let answer = receive(&mut seat, moment, peer, bytes, tokens);
    put_in(broker, seat);
    answer
}

// The link of a peer has ended.
fn gone(seat: &mut ByteSeat, moment: u64, peer: u32) -> i64
    ensures { Leaves moment peer seat.old seat.new result }
{
    done_code(seat.gone(peer, stamp_at(moment)))
}

/// The peer's link has ended: it ends, and all its objects.
#[unsafe(no_mangle)]
pub extern "C" fn wlim_broker_gone(
    broker: &mut WlimBroker,
    alloc: Global,
    moment: u64,
    peer: u32,
) -> i64
    ensures { GoneCalled moment peer broker.old.held.seat broker.new.held.seat result }
{
    let Some(mut seat) = taken_out(broker, alloc) else {
        return answer::CLOSED;
    };
    let answer = gone(&mut seat, moment, peer);
    put_in(broker, seat);
    answer
}

// How much was taken, and its answer.
fn took_code(took: Took, taken: &mut Taken) -> i64
    ensures code { result ≡ coded.took_code took }
    ensures counts { taken.new ≡ counted took taken.old }
{
    match took {
        Took::Bytes(bytes, tokens) => {
            *taken = Taken { bytes, tokens };
            answer::GIVEN
        }
        Took::NoPeer => answer::NOBODY,
        Took::Closed => answer::ENDED,
        Took::Empty => answer::NOTHING,
        Took::JournalFull(_) => answer::FULL,
        Took::NoMemory => answer::NO_MEMORY,
    }
}

// Takes of what is stored for the peer into the first 4,096 of the bytes, where there is room for one and 256 tokens.
fn take(
    seat: &mut ByteSeat,
    moment: u64,
    peer: u32,
    bytes: &mut [u8],
    tokens: &mut [u32],
    taken: &mut Taken,
) -> i64
    ensures { Takes moment peer bytes.old tokens.old taken.old bytes.new tokens.new taken.new
        seat.old seat.new result }
{
    if bytes.is_empty() || tokens.len() < MOST_TOKENS {
        return answer::SHORT;
    }
    let room = MOST_BYTES.min(bytes.len());
    let (front, _) = bytes.split_at_mut(room);
    let took = seat.take(peer, front, tokens, stamp_at(moment));
    took_code(took, taken)
}

/// Takes of what is stored for the peer, alive or ended: the first bytes, as many as fit, at most 4,096 at once, and
/// the tokens whose messages begin in them.
#[unsafe(no_mangle)]
pub extern "C" fn wlim_broker_take(
    broker: &mut WlimBroker,
    alloc: Global,
    moment: u64,
    peer: u32,
    bytes: &mut [u8],
    tokens: &mut [u32],
    taken: &mut Taken,
) -> i64
    ensures { TakeCalled moment peer bytes.old tokens.old taken.old bytes.new tokens.new taken.new
        broker.old.held.seat broker.new.held.seat result }
{
    let Some(mut seat) = taken_out(broker, alloc) else {
        return answer::CLOSED;
    };
    let answer = take(&mut seat, moment, peer, bytes, tokens, taken);
    put_in(broker, seat);
    answer
}
