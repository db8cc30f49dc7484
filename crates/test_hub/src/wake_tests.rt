//! A writer that has nothing to take sleeps, and wakes where a step tells its peer something and where its peer ends; a
//! step that tells two peers something, or ends one and tells the other, wakes both. No contract speaks of waking. A ring
//! that is lost would keep the test from ending.
ghost use Rattle.std.specs.Prelude.{◌≡◌, ◌≤◌, IfOk};
ghost use Rattle.hub_lock.specs.Passes.{IsOf};

use crate::equal::equal_at;
use crate::peer::{LIMITS, Orders, Steps, Takes, join_peer, shell_of, step_of};
use broker_core::Took;
use broker_steps::{FORM_1_WEIGHT, Limits, PeerStep, ShellStep};
use hub_lock::{Hub, HubPass};
use relay_model::Role;
use std::alloc::Global;
use std::process::Abort;
use std::sync::Wait;
use std::sync::atomic::{AtomicU64, Ordering};
use std::test::Fail;
use std::thread;
use std::thread::{Threads, join};
use std::time::{Clock, Duration};
use wio_core::NoMemory;

/// What a peer asks for doesn't fit into its store.
const SMALL: Limits = Limits {
    entries: 1_000_000,
    store: 111,
    weight: FORM_1_WEIGHT,
};

/// What is done beside two writers. The first peer and the second are 0 and 1, as the hub has peers 1 and 2.
#[derive(Clone, Copy)]
enum Act {
    /// The peer sends these messages.
    Send(usize, &'static [&'static [u8]]),
    /// Its link is gone.
    Gone(usize),
    /// The focus goes to surface 6 of the peer with that number.
    Focus(u32),
    /// Waits until the peer's writer took so many bytes more, and then a little, so that it sleeps again.
    Told(usize, u64),
}

/// Two peers, what is done before their writers begin to take, and beside them, `each` so often; how many steps the readers
/// made then, and how often the writers took.
struct Play {
    small: bool,
    roles: [Role; 2],
    before: &'static [Act],
    first: &'static [Act],
    times: u32,
    each: &'static [Act],
    last: &'static [Act],
    steps: (u64, u64),
    takes: (u64, u64),
}

/// An application makes its registry, compositor 3, seat 4, manager 5, surface 6 and text input 7.
const APP: [&[u8]; 6] = [
    b"\x01\0\0\0\x01\0\x0c\0\x02\0\0\0",
    b"\x02\0\0\0\0\0\x28\0\x01\0\0\0\x0e\0\0\0wl_compositor\0\0\0\x01\0\0\0\x03\0\0\0",
    b"\x02\0\0\0\0\0\x20\0\x02\0\0\0\x08\0\0\0wl_seat\0\x01\0\0\0\x04\0\0\0",
    b"\x02\0\0\0\0\0\x34\0\x03\0\0\0\x1a\0\0\0zwp_text_input_manager_v3\0\0\0\x01\0\0\0\x05\0\0\0",
    b"\x03\0\0\0\0\0\x0c\0\x06\0\0\0",
    b"\x05\0\0\0\x01\0\x10\0\x07\0\0\0\x04\0\0\0",
];

/// A method makes its registry, seat 3, manager 4 and input method 5.
const METHOD: [&[u8]; 4] = [
    b"\x01\0\0\0\x01\0\x0c\0\x02\0\0\0",
    b"\x02\0\0\0\0\0\x20\0\x02\0\0\0\x08\0\0\0wl_seat\0\x01\0\0\0\x03\0\0\0",
    b"\x02\0\0\0\0\0\x34\0\x04\0\0\0\x1c\0\0\0zwp_input_method_manager_v2\0\x01\0\0\0\x04\0\0\0",
    b"\x04\0\0\0\0\0\x10\0\x03\0\0\0\x05\0\0\0",
];

/// The text input 7 enables, and commits that.
const ENABLE: [&[u8]; 2] = [b"\x07\0\0\0\x01\0\x08\0", b"\x07\0\0\0\x07\0\x08\0"];

/// A peer asks for its registry, and is told 112 bytes.
const REGISTRY: [&[u8]; 1] = [b"\x01\0\0\0\x01\0\x0c\0\x02\0\0\0"];

/// A peer asks for a callback, which is done at once: it is told 24 bytes.
const SYNC: [&[u8]; 1] = [b"\x01\0\0\0\0\0\x0c\0\x02\0\0\0"];

/// What a peer is told while it makes its objects: three globals, and what the seat has.
const SET_UP: u64 = 124;

/// An `enter`, or a `leave`.
const MOVED: u64 = 12;

/// An `activate`, a `content_type` and a `done`.
const ACTIVATED: u64 = 32;

/// A `deactivate` and a `done`.
const DEACTIVATED: u64 = 16;

static PLAYS: [Play; 4] = [
    // A peer asks, each time when all was taken.
    Play {
        small: false,
        roles: [Role::App, Role::App],
        before: &[],
        first: &[],
        times: 200,
        each: &[Act::Send(0, &SYNC), Act::Told(0, 24)],
        last: &[Act::Gone(0), Act::Gone(1)],
        steps: (201, 1),
        takes: (200, 0),
    },
    // What a peer asks for doesn't fit into its store: it ends with its first step.
    Play {
        small: true,
        roles: [Role::App, Role::App],
        before: &[],
        first: &[Act::Send(0, &REGISTRY)],
        times: 0,
        each: &[],
        last: &[Act::Gone(0), Act::Gone(1)],
        steps: (1, 1),
        takes: (0, 0),
    },
    // The focus goes to one peer's surface and to the other's in turn: 200 moves.
    Play {
        small: false,
        roles: [Role::App, Role::App],
        before: &[Act::Send(0, &APP), Act::Send(1, &APP)],
        first: &[
            Act::Told(0, SET_UP),
            Act::Told(1, SET_UP),
            Act::Focus(1),
            Act::Told(0, MOVED),
            Act::Focus(2),
            Act::Told(0, MOVED),
            Act::Told(1, MOVED),
        ],
        times: 99,
        each: &[
            Act::Focus(1),
            Act::Told(0, MOVED),
            Act::Told(1, MOVED),
            Act::Focus(2),
            Act::Told(0, MOVED),
            Act::Told(1, MOVED),
        ],
        last: &[Act::Gone(0), Act::Gone(1)],
        steps: (7, 7),
        takes: (201, 200),
    },
    // A field takes the seat. Then the application goes, which ends its own writer and tells the method; when that was
    // taken the method goes too.
    Play {
        small: false,
        roles: [Role::App, Role::Method],
        before: &[
            Act::Send(0, &APP),
            Act::Send(1, &METHOD),
            Act::Focus(1),
            Act::Send(0, &ENABLE),
        ],
        first: &[
            Act::Told(0, SET_UP + MOVED),
            Act::Told(1, SET_UP + ACTIVATED),
            Act::Gone(0),
            Act::Told(1, DEACTIVATED),
        ],
        times: 0,
        each: &[],
        last: &[Act::Gone(1)],
        steps: (9, 5),
        takes: (1, 2),
    },
];

/// How many bytes the two writers took.
#[derive(Drop)]
struct Taken {
    one: AtomicU64,
    other: AtomicU64,
}

/// The shell and both readers, and how many bytes the writers should have taken.
#[derive(Drop)]
struct Crew<'a> {
    shell: Orders<'a>,
    one: Steps<'a>,
    other: Steps<'a>,
    wanted: (u64, u64),
}

fn wait_for<R: Wait + Clock>(rt: &R, taken: &AtomicU64, bytes: u64) {
    for _ in rt.forever() {
        if taken.load(Ordering::SeqCst) >= bytes {
            break;
        }
        thread::yield_now();
    }
    thread::sleep(rt, Duration::from_micros(300));
}

fn give<R: Wait>(rt: &R, steps: &mut Steps<'_>, alloc: Global, messages: &[&[u8]]) {
    for message in messages {
        if let Some(step) = step_of(alloc, message) {
            let _answer = steps.hub.submit(rt, &mut steps.pass, &step);
        }
    }
}

fn do_act<R: Wait + Clock>(rt: &R, alloc: Global, crew: &mut Crew<'_>, taken: &Taken, act: Act) {
    match act {
        Act::Send(0, messages) => give(rt, &mut crew.one, alloc, messages),
        Act::Send(_, messages) => give(rt, &mut crew.other, alloc, messages),
        Act::Gone(0) => {
            let one = &mut crew.one;
            let _answer = one.hub.submit(rt, &mut one.pass, &PeerStep::Gone);
        }
        Act::Gone(_) => {
            let other = &mut crew.other;
            let _answer = other.hub.submit(rt, &mut other.pass, &PeerStep::Gone);
        }
        Act::Focus(peer) => {
            let focus = ShellStep::Focus { peer, id: 6 };
            let shell = &mut crew.shell;
            let _answer = shell.hub.order(rt, &mut shell.pass, &focus);
        }
        Act::Told(0, bytes) => {
            crew.wanted.0 = crew.wanted.0.saturating_add(bytes);
            wait_for(rt, &taken.one, crew.wanted.0);
        }
        Act::Told(_, bytes) => {
            crew.wanted.1 = crew.wanted.1.saturating_add(bytes);
            wait_for(rt, &taken.other, crew.wanted.1);
        }
    }
}

fn do_all<R: Wait + Clock>(
    rt: &R,
    alloc: Global,
    crew: &mut Crew<'_>,
    taken: &Taken,
    acts: &[Act],
) {
    for next in acts {
        do_act(rt, alloc, crew, taken, *next);
    }
}

// What is done beside the writers in the play of that place. How many steps the readers made.
fn play_acts<R: Wait + Clock>(
    rt: &R,
    alloc: Global,
    crew: Crew<'_>,
    taken: &Taken,
    place: usize,
) -> (u64, u64) {
    let mut crew = crew;
    if let Some(play) = PLAYS.get(place) {
        do_all(rt, alloc, &mut crew, taken, play.first);
        for _ in 0..play.times {
            do_all(rt, alloc, &mut crew, taken, play.each);
        }
        do_all(rt, alloc, &mut crew, taken, play.last);
    }
    (crew.one.pass.steps(), crew.other.pass.steps())
}

// Takes until the peer has ended, and says how often; what was taken is counted meanwhile.
fn take_all<R: Wait>(rt: &R, takes: Takes<'_>, taken: &AtomicU64) -> u64 {
    let Takes { hub, mut pass } = takes;
    let mut bytes = [0; 4096];
    let mut tokens = [0; 256];
    for _ in rt.forever() {
        let Took::Bytes(count, _) = hub.wait_take(rt, &mut pass, &mut bytes, &mut tokens) else {
            break;
        };
        taken.fetch_add(count as u64, Ordering::SeqCst);
    }
    pass.steps()
}

// How often each writer took, in a thread of its own.
fn take_both<R: Threads + Wait + Sync>(
    rt: &R,
    one: Takes<'_>,
    other: Takes<'_>,
    taken: &Taken,
) -> (u64, u64) {
    join(
        rt,
        move || take_all(rt, one, &taken.one),
        move || take_all(rt, other, &taken.other),
    )
}

// How many steps the readers made, and how often each writer took.
fn play_beside<R: Threads + Wait + Clock + Sync>(
    rt: &R,
    alloc: Global,
    crew: Crew<'_>,
    one: Takes<'_>,
    other: Takes<'_>,
    taken: &Taken,
    place: usize,
) -> ((u64, u64), (u64, u64)) {
    join(
        rt,
        move || play_acts(rt, alloc, crew, taken, place),
        move || take_both(rt, one, other, taken),
    )
}

fn new_hub(alloc: Global, small: bool) -> Result<(Hub, HubPass), NoMemory>
    ensures own { IfOk result (λ made. IsOf made.0 made.1) }
{
    if small {
        return Hub::new(alloc, SMALL);
    }
    Hub::new(alloc, LIMITS)
}

// The play of that place: two peers join, and what comes before is done.
fn play_at<R: Abort + Threads + Wait + Clock + Sync>(
    rt: &R,
    alloc: Global,
    row: &Play,
    place: usize,
) -> Result<(), Fail> {
    let (hub, mut root) = new_hub(alloc, row.small)?;
    let Some((one, one_takes)) = join_peer(rt, &hub, &mut root, row.roles[0]) else {
        return Err(Fail::new("no peer joined"));
    };
    let Some((other, other_takes)) = join_peer(rt, &hub, &mut root, row.roles[1]) else {
        return Err(Fail::new("no peer joined"));
    };
    let Some(shell) = shell_of(&hub, &mut root) else {
        return Err(Fail::new("no shell"));
    };
    let mut crew = Crew {
        shell,
        one,
        other,
        wanted: (0, 0),
    };
    let taken = Taken {
        one: AtomicU64::new(0),
        other: AtomicU64::new(0),
    };
    do_all(rt, alloc, &mut crew, &taken, row.before);
    let played = play_beside(rt, alloc, crew, one_takes, other_takes, &taken, place);
    equal_at(rt, &place, played, (row.steps, row.takes));
    Ok(())
}

#[test]
fn sleeping_writers_wake(rt: HostRuntime) -> Result<(), Fail> {
    for place in 0..PLAYS.len() {
        play_at(&rt, rt.alloc(), &PLAYS[place], place)?;
    }
    Ok(())
}
