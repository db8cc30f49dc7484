//! Counts of dones: serials that are fresh, round the greatest number and at the limit.
use crate::equal::{equal, equal_at};
use serial_count::{Count32, Since, fresh};

/// The count of dones, the dones of the activation, a serial, and whether it is fresh.
const ROWS: [(u32, u64, u32, bool); 11] = [
    // the last done, and one before the present activation
    (3, 1, 3, true),
    (3, 1, 2, false),
    // the first done of the activation, and the one before it
    (9, 4, 6, true),
    (9, 4, 5, false),
    // a done that wasn't told yet, and no activation at all
    (9, 4, 10, false),
    (9, 0, 9, false),
    // the count has gone round: serial 4,294,967,295 was six dones ago
    (5, 10, 4294967295, true),
    (5, 5, 4294967295, false),
    (5, 6, 4294967295, false),
    // an activation so long that every serial names one of its dones
    (5, 4294967296, 6, true),
    (5, 4294967295, 6, false),
];

#[test]
fn tells_fresh_serials(rt: HostRuntime) {
    for (count, since, serial, want) in &ROWS {
        let answer = fresh(Count32::at(*count), Since::at(*since), *serial);
        equal_at(&rt, &(serial, count, since), answer, *want);
    }
}

#[test]
fn counts_round_and_stays_at_the_limit(rt: HostRuntime) {
    let mut count = Count32::at(4294967294);
    count.next();
    equal(&rt, count.get(), 4294967295);
    count.next();
    equal(&rt, count, Count32::at(0));

    let mut since = Since::at(4294967295);
    since.next();
    equal(&rt, since.get(), 4294967296);
    since.next();
    equal(&rt, since, Since::at(18446744073709551615));
    since.begin();
    equal(&rt, since.get(), 1);
    since.next();
    equal(&rt, since.get(), 2);
}
