//! What no clause tells: that memory is found, and that the shared state answers as its callers use it.
ghost use Rattle.broker_steps.specs.Ranges.{IsLimits};

use crate::equal::equal;
use broker_core::{Applied, JoinRefusal, Kept, Refused, Shared, Took};
use broker_steps::{FORM_1_WEIGHT, Limits, PeerStep, ShellStep, Stamp, Step, TokenList};
use relay_core::Route;
use relay_model::{EndCause, Role};
use std::alloc::Global;
use std::process::Abort;
use std::test::Fail;
use wl_wire::{Bytes, NoMemory};

const GIVEN: Stamp = Stamp {
    moment: 7,
    author: 3,
};

// A step of the first peer, or a key.
#[derive(Clone, Copy)]
enum Kind {
    Registry,
    Tokens,
    Gone,
    Key,
}

// A call with what it has to answer, or what a reader has to give.
#[derive(Clone, Copy)]
enum Call {
    Join(Role, Result<u32, JoinRefusal>),
    // 64 methods join.
    Fill,
    Goes(Kind),
    Answers(Kind, Result<Applied, Refused>),
    Stored(usize),
    Take(Took),
    // How many are alive, how many entries and stamps there are, and what the entries weigh.
    Shows(u32, u32, u64),
    LetGo(u32),
    // The number of the oldest that is kept.
    Pop(Option<u32>),
}

const KEY: ShellStep = ShellStep::Key {
    time: 5,
    key: 30,
    state: 1,
};

fn answer(
    alloc: Global,
    shared: &mut Shared,
    kind: Kind,
) -> Result<Result<Applied, Refused>, NoMemory> {
    let step = match kind {
        Kind::Registry => PeerStep::Message {
            id: 1,
            opcode: 1,
            body: Bytes::from_slice(alloc, &[2, 0, 0, 0])?,
        },
        Kind::Tokens => PeerStep::Tokens(TokenList::from_slice(alloc, &[7, 8])?),
        Kind::Gone => PeerStep::Gone,
        Kind::Key => return Ok(shared.apply(&Step::Shell(KEY), GIVEN)),
    };
    Ok(shared.apply(&Step::Peer(1, step), GIVEN))
}

fn make_call(
    rt: &impl Abort,
    alloc: Global,
    shared: &mut Shared,
    call: Call,
) -> Result<(), NoMemory> {
    match call {
        Call::Join(role, want) => equal(rt, shared.join(role, GIVEN), want),
        Call::Fill => {
            for number in 1..65 {
                equal(rt, shared.join(Role::Method, GIVEN), Ok(number));
            }
        }
        Call::Goes(kind) => assert!(rt; answer(alloc, shared, kind)?.is_ok()),
        Call::Answers(kind, want) => equal(rt, answer(alloc, shared, kind)?, want),
        Call::Stored(want) => equal(rt, shared.stored(1), Some(want)),
        Call::Take(want) => {
            let took = shared.take(1, &mut [0; 200], &mut [0; 256], GIVEN);
            equal(rt, took, want);
        }
        Call::Shows(peers, entries, weight) => {
            let stamps = (shared.stamps().len(), shared.stamps().entry(entries));
            equal(rt, stamps, (entries, Some(&GIVEN)));
            let weighs = shared.journal().kept().weight;
            equal(
                rt,
                (shared.peers(), shared.journal().len()),
                (peers, entries),
            );
            equal(rt, weighs, weight);
        }
        Call::LetGo(number) => shared.let_go(number),
        Call::Pop(want) => equal(rt, shared.pop_oldest().map(|out| out.number), want),
    }
    Ok(())
}

// An application joins and asks for its registry, and a key passes. Then entries are let go.
const EACH_CALL_ANSWERS: [Call; 12] = [
    Call::Join(Role::App, Ok(1)),
    Call::Goes(Kind::Registry),
    Call::Stored(112),
    Call::Take(Took::Bytes(112, 0)),
    Call::Answers(
        Kind::Key,
        Ok(Applied {
            entry: 4,
            route: Some(Route::Pass),
        }),
    ),
    Call::Goes(Kind::Tokens),
    Call::LetGo(2),
    Call::Pop(Some(3)),
    Call::Shows(1, 5, 92),
    Call::LetGo(9),
    Call::Pop(None),
    Call::Stored(0),
];

const FULL: Kept = Kept {
    entries: 1,
    weight: 16,
};

// Nobody is there, the journal is full, and the peer ended.
const EACH_REFUSAL_HAS_ITS_CAUSE: [Call; 8] = [
    Call::Answers(Kind::Gone, Err(Refused::NoPeer)),
    Call::Take(Took::NoPeer),
    Call::Join(Role::App, Ok(1)),
    Call::Take(Took::Empty),
    Call::Join(Role::App, Err(JoinRefusal::JournalFull(FULL))),
    Call::Goes(Kind::Gone),
    Call::Answers(Kind::Gone, Err(Refused::Ended(EndCause::Gone))),
    Call::Take(Took::Closed),
];

const THE_65TH_PEER_IS_REFUSED: [Call; 2] = [
    Call::Fill,
    Call::Join(Role::App, Err(JoinRefusal::TooManyPeers(64))),
];

// Each list has a state of its own.
fn play(rt: &impl Abort, alloc: Global, limits: Limits, calls: &[Call]) -> Result<(), NoMemory>
    requires { IsLimits limits }
{
    let mut shared = Shared::new(alloc, limits)?;
    for call in calls {
        make_call(rt, alloc, &mut shared, *call)?;
    }
    Ok(())
}

#[test]
fn each_list_of_calls_is_answered(rt: HostRuntime) -> Result<(), Fail> {
    let (weight, alloc) = (FORM_1_WEIGHT, rt.alloc());
    let (entries, store) = (5, 128);
    play(
        &rt,
        alloc,
        Limits {
            entries,
            store,
            weight,
        },
        &EACH_CALL_ANSWERS,
    )?;
    let (entries, store) = (1, 64);
    play(
        &rt,
        alloc,
        Limits {
            entries,
            store,
            weight,
        },
        &EACH_REFUSAL_HAS_ITS_CAUSE,
    )?;
    let (entries, store) = (100, 64);
    play(
        &rt,
        alloc,
        Limits {
            entries,
            store,
            weight,
        },
        &THE_65TH_PEER_IS_REFUSED,
    )?;
    Ok(())
}
