//! What no clause tells: that memory is found. Bytes come a byte at a time, and what is taken was worked out by hand.
use crate::equal::equal;
use broker_steps::{Limits, ShellStep, Stamp};
use c_broker::{ByteSeat, Heard, Refused, Route, Sender, ShellEvent, Standing, Took};
use relay_model::{EndCause, Role};
use std::test::Fail;

const GIVEN: Stamp = Stamp {
    moment: 7,
    author: 1,
};

// `wl_display.get_registry`, with the id 2, and half of a second one.
static ASKS: [u8; 18] = [1, 0, 0, 0, 1, 0, 12, 0, 2, 0, 0, 0, 1, 0, 0, 0, 1, 0];

// The globals of an application: three messages.
const GLOBALS: usize = 36 + 28 + 48;

const LIMITS: Limits = Limits {
    entries: 100,
    store: 4096,
    weight: 100_000,
};

#[test]
fn a_peer_is_served_byte_by_byte(rt: HostRuntime) -> Result<(), Fail> {
    let mut seat = ByteSeat::new(rt.alloc(), LIMITS)?;
    equal(&rt, seat.join(Role::App, GIVEN), Ok(1));
    for byte in &ASKS {
        equal(&rt, seat.receive(1, &[*byte], &[], GIVEN), Ok(()));
    }
    equal(&rt, seat.receive(1, &[], &[7, 8], GIVEN), Ok(()));
    equal(
        &rt,
        seat.receive(2, &ASKS, &[], GIVEN),
        Err(Refused::NoPeer),
    );

    equal(&rt, (seat.ready(0), seat.ready(1)), (1, 0));
    let took = seat.take(1, &mut [0; 4096], &mut [0; 256], GIVEN);
    equal(&rt, took, Took::Bytes(GLOBALS, 0));
    equal(&rt, seat.stored(1), Some(0));

    let (time, key, state) = (5, 30, 1);
    let order = seat.order(ShellStep::Key { time, key, state }, GIVEN);
    equal(&rt, order, Ok(Some(Route::Pass)));
    let passed = ShellEvent::Passed {
        from: Sender { peer: 0, id: 0 },
        time,
        key,
        state,
    };
    equal(&rt, seat.next(), Heard::Event(passed));
    equal(&rt, seat.next(), Heard::Nothing);

    equal(&rt, seat.gone(1, GIVEN), Ok(()));
    equal(&rt, seat.standing(1), Standing::Over(EndCause::Gone));
    let again = seat.gone(1, GIVEN);
    equal(&rt, again, Err(Refused::Ended(EndCause::Gone)));
    equal(&rt, seat.peers(), 1);
    Ok(())
}
