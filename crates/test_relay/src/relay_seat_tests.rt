//! What no clause tells: that memory is found. The events are those that were worked out by hand.
use crate::acts::{OPENING, acts_of};
use crate::equal::equal;
use c_relay::{RelaySeat, kind};
use relay_model::{Act, Text};
use std::test::Fail;

// The kind of each event, whom it is told to, its first argument and the first byte of its text.
static EVENTS: [(u32, u32, i64, u8); 6] = [
    (kind::ENTER, 3, 2, 0),
    (kind::ACTIVATE, 5, 0, 0),
    (kind::CONTENT_TYPE, 5, 0, 0),
    (kind::METHOD_DONE, 5, 0, 0),
    (kind::COMMIT_STRING, 3, 0, b'a'),
    (kind::FIELD_DONE, 3, 1, 0),
];

// Each act has the number that it would have alone; an act on no object has none.
#[test]
fn one_string_is_pulled(rt: HostRuntime) -> Result<(), Fail> {
    let mut seat = RelaySeat::new(rt.alloc())?;
    for act in &acts_of(rt.alloc(), OPENING)? {
        equal(&rt, seat.take(&Act::Drop { label: 99 }), Ok(None));
        let number = seat.acts().saturating_add(1);
        equal(&rt, seat.take(act), Ok(Some(number)));
    }
    equal(&rt, seat.acts(), 8);
    equal(&rt, (seat.focus(), seat.holder()), (Some(2), Some(3)));
    equal(&rt, (seat.serving(), seat.standing()), (Some(5), None));
    let (method, serial) = (5, 1);
    let text = Text::of(rt.alloc(), "a")?;
    equal(&rt, seat.take(&Act::MString { method, text }), Ok(Some(9)));
    equal(
        &rt,
        seat.take(&Act::MCommit { method, serial }),
        Ok(Some(10)),
    );
    for (kind, to, first, byte) in &EVENTS {
        let mut text = [0; 1];
        let Ok(Some(event)) = seat.pull(&mut text) else {
            return Err(Fail::new("no event"));
        };
        equal(&rt, (event.kind, event.to), (*kind, *to));
        equal(&rt, (event.first, text[0]), (*first, *byte));
    }
    equal(&rt, seat.pull(&mut []), Ok(None));
    Ok(())
}
