//! The relay tells what the slow evaluator of its rules tells: of the worked rows, and of lists made from numbers. And
//! what batches come to: each reason once, and the counts of those that are relayed.
use crate::acts::{OPENING, Tape, acts_of, take, write};
use crate::acts_by_number::random_acts;
use crate::equal::equal_at;
use relay_core::Relay;
use relay_model::Act;
use relay_plain::plain_told;
use relay_reasons::{BatchFate, Reason, Seat, batch_fate, seat_now};
use std::alloc::AllocGlobal;
use std::process::Abort;
use std::test::Fail;

#[rattlefmt::skip]
static ROWS: [&str; 11] = [
    // the ordinary path
    "peer\nsurface 1\nfield 1\npeer\nmethod 4\nfocus 2\nenable 3\ncommit 3\nmstring 5 61\nmcommit 5 1",
    // a serial before any done
    "peer\nsurface 1\nfield 1\npeer\nmethod 4\nfocus 2\nenable 3\ncommit 3\nmstring 5 61\nmcommit 5 0",
    // an earlier done of the same activation
    "peer\nsurface 1\nfield 1\npeer\nmethod 4\nfocus 2\nenable 3\ncommit 3\nmstring 5 61\nmcommit 5 1\n\
     commit 3\nmstring 5 62\nmcommit 5 1",
    // a new activation
    "peer\nsurface 1\nfield 1\npeer\nmethod 4\nfocus 2\nenable 3\ncommit 3\nmstring 5 61\nmcommit 5 1\n\
     enable 3\ncommit 3\nmcommit 5 1",
    // edits from before it
    "peer\nsurface 1\nfield 1\npeer\nmethod 4\nfocus 2\nmstring 5 61\nenable 3\ncommit 3\n\
     mpreedit 5 62 0 1\nmcommit 5 1",
    // an empty batch
    "peer\nsurface 1\nfield 1\npeer\nmethod 4\nfocus 2\nenable 3\ncommit 3\nmcommit 5 1",
    // commits before the focus
    "peer\nsurface 1\nfield 1\ncommit 3\ncommit 3\npeer\nmethod 6\nfocus 2\nenable 3\ncommit 3\n\
     mcommit 7 1",
    // a second field
    "peer\nsurface 1\nfield 1\npeer\nmethod 4\nfocus 2\nenable 3\ncommit 3\nfield 1\nenable 9\ncommit 9\n\
     mcommit 5 1",
    // a late method
    "peer\nsurface 1\nfield 1\nfocus 2\nenable 3\ncommit 3\npeer\nmethod 7\nmcommit 8 1",
    // boards beside a grab
    "peer\nmethod 1\ngrab 2\nvboard 1\nvkeymap 4 1 9 100\nvkey 4 5 30 1\nkey 6 31 1\npeer\nvboard 8\n\
     vkeymap 9 1 9 100\nvkey 9 7 32 1",
    // boards that end
    "peer\nmethod 1\npeer\nvboard 3\nvkey 4 1 30 1\nvkeymap 4 1 9 100\nvboard 3\nvkeymap 7 1 9 100\n\
     vkey 4 1 30 1\ngrab 2\nvkey 7 2 30 1\nkey 3 30 1\nvkey 4 4 30 0\nvmods 7 5 6 7 8\ndrop 10\n\
     vmods 7 5 6 7 8\nvkey 7 5 30 0\ndrop 4\nvkey 4 6 30 0\ngone 3\nvkey 7 7 30 1",
];

// Both tell the same, which has so many bytes as text.
fn agree(rt: &(impl Abort + AllocGlobal), acts: &[Act]) -> Result<usize, Fail> {
    let alloc = rt.alloc();
    let mut tape = Tape {
        alloc,
        text: String::new(alloc),
        failed: false,
    };
    let mut relay = Relay::new(alloc)?;
    for act in acts {
        take(rt, &mut relay, act, &mut tape)?;
    }
    assert!(rt; acts.len() < 4294967296);
    let mut plain = String::new(alloc);
    for told in &plain_told(alloc, acts)? {
        write(alloc, told, &mut plain)?;
    }
    equal_at(rt, &acts, plain.as_str(), tape.text.as_str());
    Ok(plain.len())
}

#[test]
fn tells_the_worked_rows(rt: HostRuntime) -> Result<(), Fail> {
    for row in &ROWS {
        let acts = acts_of(rt.alloc(), row)?;
        assert!(rt; agree(&rt, &acts)? > 0);
    }
    Ok(())
}

#[test]
fn tells_of_lists_made_from_numbers(rt: HostRuntime) -> Result<(), Fail> {
    let mut bytes: usize = 0;
    for seed in 0..200 {
        let acts = random_acts(rt.alloc(), seed, 40)?;
        bytes = bytes.saturating_add(agree(&rt, &acts)?);
    }
    // Of 200 lists much is told, and one of some hundreds of acts is told in a moment.
    assert!(rt; bytes > 100_000);
    let acts = random_acts(rt.alloc(), 200, 300)?;
    assert!(rt; agree(&rt, &acts)? > 0);
    Ok(())
}

// The field 3 leaves the seat at 10, and takes it again at 12.
const AFTER_THE_OPENING: &str = "disable 3\ncommit 3\nenable 3\ncommit 3";

// After so many acts, a commit of this method with this serial comes to this.
#[rattlefmt::skip]
static FATES: [(u32, u32, u32, BatchFate); 9] = [
    (4, 5, 0, BatchFate::Unrelayed(Reason::NotServing)),
    (5, 5, 0, BatchFate::Unrelayed(Reason::NoActivation)),
    (8, 5, 1, BatchFate::Relayed { field: 3, count: 1 }),
    (8, 4, 1, BatchFate::Unrelayed(Reason::NotServing)),
    (8, 5, 0, BatchFate::Unrelayed(Reason::NamesNoDone)),
    (8, 5, 2, BatchFate::Unrelayed(Reason::NamesNoDone)),
    (10, 5, 2, BatchFate::Unrelayed(Reason::NoActivation)),
    (12, 5, 2, BatchFate::Unrelayed(Reason::EarlierActivation)),
    (12, 5, 3, BatchFate::Relayed { field: 3, count: 3 }),
];

const AT_THE_END: Seat = Seat {
    holder: Some(3),
    commits: Some(3),
    serving: Some(5),
    dones: 3,
    since: 1,
};

#[test]
fn each_reason_comes_where_it_holds(rt: HostRuntime) -> Result<(), Fail> {
    let alloc = rt.alloc();
    let mut tape = Tape {
        alloc,
        text: String::new(alloc),
        failed: false,
    };
    let mut relay = Relay::new(alloc)?;
    for lines in [OPENING, AFTER_THE_OPENING] {
        for act in &acts_of(alloc, lines)? {
            take(&rt, &mut relay, act, &mut tape)?;
            for (acts, method, serial, want) in FATES {
                if relay.acts() == acts {
                    let got = batch_fate(&relay, method, serial);
                    equal_at(&rt, &(acts, method, serial), got, want);
                }
            }
        }
    }
    equal_at(&rt, &12, seat_now(&relay), AT_THE_END);
    Ok(())
}
