//! Where keys go, with a grab and without.
use crate::equal::{equal, equal_at};
use kbd_grab::{Grab, Keymap, Mods, Repeat, Route};
use std::process::Abort;
use std::test::Fail;

// Presses or releases these keys in turn, and compares where each goes.
fn turn_all(rt: &impl Abort, grab: &mut Grab, rows: &[(u32, bool, Route)]) {
    for (key, pressed, route) in rows {
        equal_at(rt, &key, grab.key(*key, *pressed), *route);
    }
}

const WHERE_64_ARE_DOWN: [(u32, bool, Route); 6] = [
    (64, true, Route::TooMany),
    // pressed again, a key that is down
    (63, true, Route::Pass),
    // the key that was refused is up
    (64, false, Route::Pass),
    (64, true, Route::TooMany),
    (7, false, Route::Pass),
    (64, true, Route::Pass),
];

#[test]
fn refuses_the_65th_key(rt: HostRuntime) -> Result<(), Fail> {
    let mut grab = Grab::new(rt.alloc())?;
    for key in 0..64 {
        equal_at(&rt, &key, grab.key(key, true), Route::Pass);
    }
    turn_all(&rt, &mut grab, &WHERE_64_ARE_DOWN);
    Ok(())
}

const BEFORE_A_GRAB: [(u32, bool, Route); 1] = [(30, true, Route::Pass)];

const UNDER_THE_FIRST: [(u32, bool, Route); 4] = [
    (31, true, Route::ToGrab(5)),
    // pressed before the grab stood
    (30, true, Route::Pass),
    (31, true, Route::ToGrab(5)),
    // a release of a key that is up
    (32, false, Route::Pass),
];

const UNDER_THE_NEXT: [(u32, bool, Route); 4] = [
    (31, true, Route::Nowhere),
    (31, false, Route::Nowhere),
    // a first press again
    (31, true, Route::ToGrab(9)),
    (30, false, Route::Pass),
];

const MAP: Keymap = Keymap {
    format: 1,
    token: 7,
    size: 100,
};

const MODS: Mods = Mods {
    depressed: 1,
    latched: 2,
    locked: 4,
    group: 0,
};

const REPEAT: Repeat = Repeat {
    rate: 25,
    delay: 600,
};

#[test]
fn keys_follow_their_first_press_and_what_was_told_last_is_kept(
    rt: HostRuntime,
) -> Result<(), Fail> {
    let mut grab = Grab::new(rt.alloc())?;
    turn_all(&rt, &mut grab, &BEFORE_A_GRAB);
    grab.fall();
    grab.stand(5);
    equal(&rt, grab.standing(), Some(5));
    turn_all(&rt, &mut grab, &UNDER_THE_FIRST);
    grab.fall();
    grab.stand(9);
    turn_all(&rt, &mut grab, &UNDER_THE_NEXT);

    grab.keymap(MAP);
    grab.repeat(REPEAT);
    grab.mods(MODS);
    equal(&rt, grab.last_keymap(), Some(MAP));
    equal(&rt, grab.last_repeat(), Some(REPEAT));
    equal(&rt, grab.last_mods(), Some(MODS));
    Ok(())
}
