//! What no clause tells: that memory is found. The events are those that were worked out by hand.
use crate::answer;
use crate::events::{Given, wlim_next};
use crate::field_acts::{wlim_commit, wlim_enable};
use crate::held::Held;
use crate::method_acts::{wlim_mcommit, wlim_mstring};
use crate::opened::{Wlim, wlim_close, wlim_open};
use crate::peer_acts::{wlim_field, wlim_method, wlim_peer, wlim_surface};
use crate::shell_acts::wlim_focus;
use c_relay::{Event, kind};
use std::alloc::Global;
use std::rt::HostRuntime;

// The acts 1 to 10: a method serves, the field 3 holds the seat, and a string is committed.
fn act(seat: &mut Wlim, alloc: Global, number: u32) -> i64 {
    match number {
        1 | 4 => wlim_peer(seat, alloc),
        2 => wlim_surface(seat, alloc, 1, 20),
        3 => wlim_field(seat, alloc, 1, 30),
        5 => wlim_method(seat, alloc, 4, 50),
        6 => wlim_focus(seat, alloc, 2),
        7 => wlim_enable(seat, alloc, 3),
        8 => wlim_commit(seat, alloc, 3),
        9 => wlim_mstring(seat, alloc, 5, b"a"),
        _ => wlim_mcommit(seat, alloc, 5, 1),
    }
}

// The kind of each event, whom it is told to, and that object's number.
static EVENTS: [(u32, u32, u64); 6] = [
    (kind::ENTER, 3, 30),
    (kind::ACTIVATE, 5, 50),
    (kind::CONTENT_TYPE, 5, 50),
    (kind::METHOD_DONE, 5, 50),
    (kind::COMMIT_STRING, 3, 30),
    (kind::FIELD_DONE, 3, 30),
];

#[test]
fn one_string_goes_through_the_exports(rt: HostRuntime) {
    let alloc = rt.alloc();
    let mut seat = Wlim {
        live: false,
        held: Held::nothing(alloc),
    };
    assert!(rt; act(&mut seat, alloc, 1) == answer::CLOSED);
    assert!(rt; wlim_open(&mut seat, alloc));
    for number in 1..=10 {
        assert!(rt; act(&mut seat, alloc, number) == i64::from(number));
    }
    let mut given = Given {
        event: Event {
            kind: 0,
            to: 0,
            length: 0,
            first: 0,
            second: 0,
            third: 0,
            fourth: 0,
            group: 0,
        },
        number: 0,
    };
    let mut text = [7; 2];
    for (kind, to, number) in &EVENTS {
        assert!(rt; wlim_next(&mut seat, alloc, &mut given, &mut text) == answer::GIVEN);
        assert!(rt; given.event.kind == *kind && given.event.to == *to && given.number == *number);
    }
    wlim_close(&mut seat, alloc);
    assert!(rt; act(&mut seat, alloc, 1) == answer::CLOSED);
}
