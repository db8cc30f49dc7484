//! What no clause tells: that memory is found, and that a journal is used as its callers use it.
use crate::equal::equal;
use broker_core::{Entry, Journal, Kept, StampList};
use broker_steps::{Limits, ShellStep, Stamp, TokenList, WEIGHT_LIMIT};
use relay_model::{EndCause, Role};
use std::alloc::Global;
use std::process::Abort;
use std::test::Fail;
use wl_wire::Bytes;

// Puts the entry, unless the journal is full for it.
fn put(journal: &mut Journal, limit: u32, entry: Entry) -> Result<bool, Fail> {
    let limits = Limits {
        entries: limit,
        store: 64,
        weight: WEIGHT_LIMIT,
    };
    if journal.len() == u32::MAX || journal.is_full(&limits, &entry) {
        return Ok(false);
    }
    journal.reserve(1)?;
    journal.push(entry);
    Ok(true)
}

fn message(body: Vec<u8>) -> Entry {
    Entry::Message {
        peer: 1,
        id: 1,
        opcode: 1,
        body: Bytes::new(body),
    }
}

// A journal of a join, a message and an end. An entry too many is left out, and an end is none.
fn three(rt: &impl Abort, alloc: Global) -> Result<Journal, Fail> {
    let mut journal = Journal::new(alloc);
    let (peer, cause) = (1, EndCause::Gone);
    assert!(rt; put(&mut journal, 2, Entry::Join(Role::App))?);
    assert!(rt; put(&mut journal, 2, message(vec![in alloc; 2, 0, 0, 0]?))?);
    assert!(rt; !put(&mut journal, 2, Entry::Join(Role::Method))?);
    assert!(rt; put(&mut journal, 2, Entry::End { peer, cause })?);
    Ok(journal)
}

// The kinds of the entries 1 to 3 are these; an entry that was let go is none.
fn shows(rt: &impl Abort, journal: &Journal, kinds: [&str; 5]) {
    for (number, want) in (0..5).zip(kinds) {
        let kind = match journal.entry(number) {
            Some(Entry::Join(Role::App)) => "join",
            Some(Entry::Message { .. }) => "message",
            Some(Entry::End { .. }) => "end",
            Some(_) => "other",
            None => "",
        };
        equal(rt, kind, want);
    }
    let (entries, weight) = (2, 36);
    equal(rt, journal.kept(), Kept { entries, weight });
    equal(rt, journal.len(), 3);
}

// Entries that were let go still count, and none answers for their numbers.
#[test]
fn a_journal_of_three_entries(rt: HostRuntime) -> Result<(), Fail> {
    let mut journal = three(&rt, rt.alloc())?;
    shows(&rt, &journal, ["", "join", "message", "end", ""]);
    shows(
        &rt,
        &journal.copy(rt.alloc())?,
        ["", "join", "message", "end", ""],
    );
    journal.let_go(1);
    equal(&rt, (journal.kept_from(), journal.ends_in_end()), (1, true));
    shows(&rt, &journal, ["", "", "message", "end", ""]);
    shows(
        &rt,
        &journal.copy(rt.alloc())?,
        ["", "", "message", "end", ""],
    );
    assert!(rt; matches!(journal.pop_oldest(), Some(Entry::Message { .. })));
    journal.let_go(9);
    equal(&rt, journal.kept_from(), 3);
    assert!(rt; matches!(journal.pop_oldest(), None));
    shows(&rt, &journal, ["", "", "", "", ""]);
    Ok(())
}

// A body weighs its bytes, and tokens 4 each; a copy weighs as much. What an ended peer costs for good is 2 bytes.
#[test]
fn entries_weigh_what_they_hold(rt: HostRuntime) -> Result<(), Fail> {
    let alloc = rt.alloc();
    let tokens = Entry::Tokens {
        peer: 1,
        tokens: TokenList::from_slice(alloc, &[7, 8])?,
    };
    for (entry, weight) in [(message(vec![in alloc; 0; 4088]?), 8208), (tokens, 48)] {
        let mut journal = Journal::new(alloc);
        let copy = entry.copy(alloc)?;
        assert!(rt; put(&mut journal, 2, entry)?);
        assert!(rt; put(&mut journal, 2, copy)?);
        let entries = 2;
        equal(&rt, journal.kept(), Kept { entries, weight });
    }
    equal(&rt, std::mem::size_of::<Option<EndCause>>(), 2);
    Ok(())
}

// What the entry with this number says.
fn entry(number: u32) -> Entry {
    match number {
        1 => Entry::Join(Role::App),
        2 => Entry::Shell(ShellStep::At { moment: 9 }),
        3 => Entry::Shell(ShellStep::Unfocus),
        _ => Entry::End {
            peer: 1,
            cause: EndCause::Full,
        },
    }
}

/// Each entry with the stamp of its call, and the stamp that it has: a moment and an author.
const STAMPS: [(u32, (u64, u64), (u64, u64)); 4] = [
    (1, (5, 1), (5, 1)),
    (2, (6, 2), (9, 2)),
    (3, (3, 4), (9, 4)),
    (4, (20, 7), (9, 0)),
];

fn stamp(by: (u64, u64)) -> Stamp {
    let (moment, author) = by;
    Stamp { moment, author }
}

fn shows_stamps(rt: &impl Abort, stamps: &StampList) {
    equal(rt, stamps.len(), 4);
    assert!(rt; stamps.entry(0).is_none() && stamps.entry(5).is_none());
    for (number, _, want) in STAMPS {
        equal(rt, stamps.entry(number).copied(), Some(stamp(want)));
    }
}

// A moment never falls, and stays where its stamp was let go.
#[test]
fn moments_never_fall(rt: HostRuntime) -> Result<(), Fail> {
    let mut stamps = StampList::new(rt.alloc());
    for (number, given, _) in STAMPS {
        let next = stamps.next(&entry(number), stamp(given));
        stamps.reserve(1)?;
        assert!(rt; stamps.len() < u32::MAX);
        stamps.push(next);
    }
    shows_stamps(&rt, &stamps.copy(rt.alloc())?);
    equal(&rt, stamps.pop_oldest(), Some(stamp((5, 1))));
    stamps.let_go(4);
    equal(&rt, stamps.kept_from(), 4);
    assert!(rt; stamps.entry(4).is_none());
    equal(&rt, stamps.next(&entry(1), stamp((5, 1))).moment, 9);
    Ok(())
}
