//! What the shell is told of a broker, beside what is stored for its clients.
ghost use Rattle.std.specs.Prelude.{◌≡◌};
ghost use Rattle.c_library.specs.ToldCalled.{Handed, NextCalled, Writes, told_of};

use crate::answer;
use crate::broker::{WlimBroker, put_in, taken_out};
use c_broker::{ByteSeat, Heard, ShellEvent};
use c_relay::kind;
use std::alloc::Global;

/// What the shell is told.
#[repr(C)]
#[derive(Clone, Copy, Debug, PartialEq, Eq)]
pub struct Told {
    /// `PASS`, `PLACED` or `VMODS` of `kind`.
    pub kind: u32,
    /// Of `PASS` and `VMODS` whose message told it: its peer; 0 where none did, as with a key of
    /// the seat's keyboard. Of `PLACED` 0, also where a message placed it, as a field's commit.
    pub peer: u32,
    /// The object that the message went to, as a virtual keyboard, by its id there; 0 where `peer`
    /// is 0.
    pub id: u32,
    /// Of `PASS` the time, of `PLACED` the popup's peer, of `VMODS` the depressed modifiers.
    pub first: u32,
    /// The key; the popup's id there; the latched modifiers.
    pub second: u32,
    /// The key's state; x; the locked modifiers.
    pub third: i64,
    /// Nothing; y; the group.
    pub fourth: i64,
}

// The event as C has it.
fn told_of(event: ShellEvent) -> Told
    ensures { result ≡ told_of event }
{
    match event {
        ShellEvent::Passed {
            from,
            time,
            key,
            state,
        } => Told {
            kind: kind::PASS,
            peer: from.peer,
            id: from.id,
            first: time,
            second: key,
            third: i64::from(state),
            fourth: 0,
        },
        ShellEvent::Placed { peer, id, x, y } => Told {
            kind: kind::PLACED,
            peer: 0,
            id: 0,
            first: peer,
            second: id,
            third: x,
            fourth: y,
        },
        ShellEvent::Modified { from, mods } => Told {
            kind: kind::VMODS,
            peer: from.peer,
            id: from.id,
            first: mods.depressed,
            second: mods.latched,
            third: i64::from(mods.locked),
            fourth: i64::from(mods.group),
        },
    }
}

// Writes what the shell is handed, where it is an event.
fn write(heard: Heard, told: &mut Told) -> i64
    ensures { Writes heard told.old told.new result }
{
    match heard {
        Heard::Event(event) => {
            *told = told_of(event);
            answer::GIVEN
        }
        Heard::Missed => answer::MISSED,
        Heard::Nothing => answer::NOTHING,
    }
}

// Hands out what the shell was told and waits longest.
fn next(seat: &mut ByteSeat, told: &mut Told) -> i64
    ensures { Handed seat.old seat.new told.old told.new result }
{
    write(seat.next(), told)
}

/// Hands out what the shell was told and waits longest: 1 with an event, 0 where none waits, 6 once where none waits
/// and some are lost, since 1,024 waited.
#[unsafe(no_mangle)]
pub extern "C" fn wlim_broker_next(broker: &mut WlimBroker, alloc: Global, told: &mut Told) -> i64
    ensures { NextCalled told.old told.new broker.old.held.seat broker.new.held.seat result }
{
    let Some(mut seat) = taken_out(broker, alloc) else {
        return answer::CLOSED;
    };
    let answer = next(&mut seat, told);
    put_in(broker, seat);
    answer
}
