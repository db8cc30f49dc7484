//! A field's client and a method's client in a small session, each beside one that is heard, against the bytes of its
//! transcript.
use crate::equal::{equal, equal_at};
use client_side::{
    BatchView, ClientFault, Edit, FieldClient, FieldHearer, MethodClient, MethodHearer,
};
use compose_method::{ComposeTable, Event, Method};
use std::test::Fail;

/// The rest of an enter.
const ENTER: [u8; 7] = [0, 12, 0, 6, 0, 0, 0];

/// The state that an enter asks for.
const STATE: [u8; 80] = [
    7, 0, 0, 0, 1, 0, 8, 0, 7, 0, 0, 0, 3, 0, 24, 0, 2, 0, 0, 0, 97, 0, 0, 0, 1, 0, 0, 0, 1, 0, 0,
    0, 7, 0, 0, 0, 5, 0, 16, 0, 0, 0, 0, 0, 0, 0, 0, 0, 7, 0, 0, 0, 6, 0, 24, 0, 0, 0, 0, 0, 0, 0,
    0, 0, 1, 0, 0, 0, 1, 0, 0, 0, 7, 0, 0, 0, 7, 0, 8, 0,
];

/// The string "a", and a done with the serial 1.
const STRING: [u8; 28] = [
    7, 0, 0, 0, 3, 0, 16, 0, 2, 0, 0, 0, 97, 0, 0, 0, 7, 0, 0, 0, 5, 0, 12, 0, 1, 0, 0, 0,
];

/// The state after it.
const STATE_AFTER: [u8; 44] = [
    7, 0, 0, 0, 3, 0, 24, 0, 3, 0, 0, 0, 97, 97, 0, 0, 2, 0, 0, 0, 2, 0, 0, 0, 7, 0, 0, 0, 4, 0,
    12, 0, 0, 0, 0, 0, 7, 0, 0, 0, 7, 0, 8, 0,
];

/// The same done once more.
const DONE: [u8; 12] = [7, 0, 0, 0, 5, 0, 12, 0, 1, 0, 0, 0];

/// A key that goes down, and up.
const PRESS: [u8; 24] = [
    6, 0, 0, 0, 1, 0, 24, 0, 9, 0, 0, 0, 100, 0, 0, 0, 30, 0, 0, 0, 1, 0, 0, 0,
];

const RELEASE: [u8; 24] = [
    6, 0, 0, 0, 1, 0, 24, 0, 10, 0, 0, 0, 100, 0, 0, 0, 30, 0, 0, 0, 0, 0, 0, 0,
];

/// An activation with its done.
const ACTIVATION: [u8; 32] = [
    5, 0, 0, 0, 0, 0, 8, 0, 5, 0, 0, 0, 4, 0, 16, 0, 0, 0, 0, 0, 0, 0, 0, 0, 5, 0, 0, 0, 5, 0, 8, 0,
];

/// The string "a", and a commit with the serial 1.
const TYPED: [u8; 28] = [
    5, 0, 0, 0, 0, 0, 16, 0, 2, 0, 0, 0, 97, 0, 0, 0, 5, 0, 0, 0, 3, 0, 12, 0, 1, 0, 0, 0,
];

/// The pieces that a field's client takes, and what it then sends; and what was heard so far. The enter is cut.
static FIELD: [(&[u8], &[u8], Heard); 4] = [
    (&[7, 0, 0, 0, 0], &[], (0, 0, 0, false, 0)),
    (&ENTER, &STATE, (1, 0, 0, false, 0)),
    (&STRING, &STATE_AFTER, (1, 0, 1, true, 0)),
    (&DONE, &[], (1, 0, 1, false, 0)),
];

/// The same of a method's client, with how many events were heard: a press before the activation types nothing.
static METHOD: [(&[u8], &[u8], u32); 4] = [
    (&PRESS, &[], 1),
    (&ACTIVATION, &[], 4),
    (&PRESS, &TYPED, 5),
    (&RELEASE, &[], 6),
];

/// What was heard: how many enters and leaves, the serial of the last batch and whether it has edits, and how many events of
/// the method.
type Heard = (u32, u32, u32, bool, u32);

/// Who hears that.
#[derive(Drop)]
struct Ear {
    heard: Heard,
}

impl FieldHearer for Ear {
    ghost may_follow = { λ before happening after. Unit {0} };

    fn entered(&mut self) {
        self.heard.0 = self.heard.0.wrapping_add(1);
    }

    fn left(&mut self) {
        self.heard.1 = self.heard.1.wrapping_add(1);
    }

    fn batch(&mut self, edits: &BatchView<'_>, serial: u32) {
        self.heard.2 = serial;
        self.heard.3 = !edits.string.is_empty();
    }
}

impl MethodHearer for Ear {
    ghost may_follow = { λ before event after. Unit {0} };

    fn came(&mut self, _event: &Event<'_>) {
        self.heard.4 = self.heard.4.wrapping_add(1);
    }
}

#[test]
fn a_field_tells_what_it_becomes(rt: HostRuntime) -> Result<(), Fail> {
    let mut client = FieldClient::new(rt.alloc())?;
    let mut other = FieldClient::new(rt.alloc())?;
    let mut ear = Ear {
        heard: (0, 0, 0, false, 0),
    };
    equal(&rt, client.to_send().len(), 164);
    client.sent();
    equal(&rt, client.edit(&Edit::Insert("a")).ok(), Some(true));
    for (piece, wanted, all) in &FIELD {
        equal_at(&rt, piece, client.receive(piece), Ok(()));
        equal_at(&rt, piece, client.to_send(), *wanted);
        client.sent();
        equal_at(&rt, piece, other.receive_heard(piece, &mut ear), Ok(()));
        equal_at(&rt, piece, ear.heard, *all);
    }
    equal(
        &rt,
        (client.commits(), client.field().text() == "aa"),
        (2, true),
    );
    let no_event = [9, 0, 0, 0, 0, 0, 12, 0, 0, 0, 0, 0];
    equal(&rt, client.receive(&no_event), Err(ClientFault::BadEvent));
    equal(&rt, client.receive(&[]), Err(ClientFault::BadEvent));
    Ok(())
}

// No descriptor is given for a keymap.
#[test]
fn a_method_types_what_is_pressed(rt: HostRuntime) -> Result<(), Fail> {
    let alloc = rt.alloc();
    let mut table = ComposeTable::new(alloc)?;
    equal(&rt, table.single(30, "a"), Ok(()));
    let mut client = MethodClient::new(alloc, Method::new(alloc, table)?)?;
    let method = Method::new(alloc, ComposeTable::new(alloc)?)?;
    let mut other = MethodClient::new(alloc, method)?;
    let mut ear = Ear {
        heard: (0, 0, 0, false, 0),
    };
    equal(&rt, client.to_send().len(), 124);
    client.sent();
    for (piece, wanted, events) in &METHOD {
        equal_at(&rt, piece, client.receive(piece), Ok(()));
        equal_at(&rt, piece, client.to_send(), *wanted);
        client.sent();
        equal_at(&rt, piece, other.receive_heard(piece, &mut ear), Ok(()));
        equal_at(&rt, piece, ear.heard.4, *events);
    }
    let keymap = [6, 0, 0, 0, 0, 0, 16, 0, 1, 0, 0, 0, 16, 0, 0, 0];
    equal(&rt, client.receive(&keymap), Err(ClientFault::BadEvent));
    Ok(())
}
