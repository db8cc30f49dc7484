//! What no clause tells: that memory is found. A peer is served through the exports; what is taken was worked out by
//! hand.
use crate::answer;
use crate::broker::{WlimBroker, wlim_broker_close, wlim_broker_open};
use crate::broker_looks::{
    Used, wlim_broker_grab, wlim_broker_peers, wlim_broker_ready, wlim_broker_standing,
    wlim_broker_stored, wlim_broker_used,
};
use crate::broker_orders::{
    wlim_broker_area, wlim_broker_focus, wlim_broker_key, wlim_broker_keymap, wlim_broker_mods,
    wlim_broker_repeat, wlim_broker_screen, wlim_broker_unfocus,
};
use crate::broker_peers::{
    Taken, wlim_broker_gone, wlim_broker_join, wlim_broker_receive, wlim_broker_take,
};
use crate::broker_told::{Told, wlim_broker_next};
use crate::codes::APP;
use crate::held_bytes::HeldBytes;
use c_relay::kind;
use std::alloc::Global;
use std::process::Abort;
use std::rt::HostRuntime;

// `wl_display.get_registry`, with the id 2, and half of a second one.
static ASKS: [u8; 18] = [1, 0, 0, 0, 1, 0, 12, 0, 2, 0, 0, 0, 1, 0, 0, 0, 1, 0];

// The globals of an application: three messages.
const GLOBALS: usize = 36 + 28 + 48;

const NOTHING_TOLD: Told = Told {
    kind: 0,
    peer: 9,
    id: 9,
    first: 0,
    second: 0,
    third: 0,
    fourth: 0,
};

fn sends(rt: &impl Abort, broker: &mut WlimBroker, alloc: Global) {
    for byte in &ASKS {
        let answer = wlim_broker_receive(broker, alloc, 2, 1, &[*byte], &[]);
        assert!(rt; answer == answer::GIVEN);
    }
    assert!(rt; wlim_broker_receive(broker, alloc, 2, 1, &[], &[0; 257]) == answer::RANGE);
    assert!(rt; wlim_broker_receive(broker, alloc, 2, 2, &ASKS, &[7]) == answer::NOBODY);
}

fn takes(rt: &impl Abort, broker: &mut WlimBroker, alloc: Global) {
    let mut taken = Taken {
        bytes: 0,
        tokens: 9,
    };
    let mut bytes = [0; 5000];
    let mut tokens = [0; 256];
    assert!(rt;
        wlim_broker_ready(broker, alloc, 0) == 1 && wlim_broker_ready(broker, alloc, 1) == 0
    );
    assert!(rt; wlim_broker_stored(broker, alloc, 1) == GLOBALS as i64);
    let short = wlim_broker_take(broker, alloc, 3, 1, &mut [], &mut tokens, &mut taken);
    assert!(rt; short == answer::SHORT && taken.tokens == 9);
    let answer = wlim_broker_take(broker, alloc, 3, 1, &mut bytes, &mut tokens, &mut taken);
    assert!(rt; answer == answer::GIVEN && taken.bytes == GLOBALS && taken.tokens == 0);
    let none = wlim_broker_take(broker, alloc, 3, 1, &mut bytes, &mut tokens, &mut taken);
    assert!(rt; none == answer::NOTHING);
}

fn says(rt: &impl Abort, broker: &mut WlimBroker, alloc: Global) {
    let mut told = NOTHING_TOLD;
    assert!(rt; wlim_broker_focus(broker, alloc, 4, 1, 9) == answer::GIVEN);
    assert!(rt; wlim_broker_unfocus(broker, alloc, 4) == answer::GIVEN);
    assert!(rt; wlim_broker_area(broker, alloc, 4, 1, 9, -1, 0, 5, 5) == answer::GIVEN);
    assert!(rt; wlim_broker_area(broker, alloc, 4, 1, 9, 0, 0, -1, 5) == answer::RANGE);
    assert!(rt; wlim_broker_screen(broker, alloc, 4, 9, 9) == answer::GIVEN);
    assert!(rt; wlim_broker_screen(broker, alloc, 4, 9, -9) == answer::RANGE);
    assert!(rt; wlim_broker_mods(broker, alloc, 4, 1, 2, 3, 4) == answer::GIVEN);
    assert!(rt; wlim_broker_keymap(broker, alloc, 4, 1, 2, 3) == answer::GIVEN);
    assert!(rt; wlim_broker_repeat(broker, alloc, 4, 25, 600) == answer::GIVEN);
    assert!(rt; wlim_broker_key(broker, alloc, 4, 5, 30, 2) == answer::RANGE);
    assert!(rt; wlim_broker_key(broker, alloc, 4, 5, 30, 1) == answer::PASSED);
    assert!(rt; wlim_broker_next(broker, alloc, &mut told) == answer::GIVEN);
    assert!(rt; told.kind == kind::PASS && told.peer == 0 && told.first == 5 && told.second == 30);
    assert!(rt; told.third == 1 && told.fourth == 0);
    assert!(rt; wlim_broker_next(broker, alloc, &mut told) == answer::NOTHING);
    assert!(rt; wlim_broker_grab(broker, alloc) == 0);
}

#[test]
fn a_peer_is_served_through_the_exports(rt: HostRuntime) {
    let alloc = rt.alloc();
    let mut broker = WlimBroker {
        live: false,
        held: HeldBytes::nothing(alloc),
    };
    assert!(rt; wlim_broker_join(&mut broker, alloc, 1, APP) == answer::CLOSED);
    assert!(rt; wlim_broker_open(&mut broker, alloc, 0, 100, 100_000) == answer::RANGE);
    assert!(rt; wlim_broker_open(&mut broker, alloc, 4096, 100, 100_000) == answer::GIVEN);
    assert!(rt; wlim_broker_join(&mut broker, alloc, 1, 4) == answer::RANGE);
    assert!(rt; wlim_broker_join(&mut broker, alloc, 1, APP) == 1);
    sends(&rt, &mut broker, alloc);
    takes(&rt, &mut broker, alloc);
    says(&rt, &mut broker, alloc);
    assert!(rt; wlim_broker_gone(&mut broker, alloc, 5, 1) == answer::GIVEN);
    assert!(rt; wlim_broker_gone(&mut broker, alloc, 5, 1) == answer::ENDED);
    assert!(rt; wlim_broker_standing(&mut broker, alloc, 1) == answer::GONE);
    assert!(rt; wlim_broker_peers(&mut broker, alloc) == 1);
    let mut used = Used {
        entries: 0,
        weight: 0,
    };
    assert!(rt; wlim_broker_used(&mut broker, alloc, &mut used) == answer::GIVEN);
    assert!(rt; used.entries > 10 && used.weight > 100);
    wlim_broker_close(&mut broker, alloc);
    assert!(rt; wlim_broker_peers(&mut broker, alloc) == answer::CLOSED);
}
