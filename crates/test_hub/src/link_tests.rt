//! How links in memory end, by what they give and by what can't be written to them, and what then stands in the journal.
ghost use Rattle.std.specs.Prelude.{◌≤◌};
ghost use Rattle.hub_lock.specs.Passes.{IsOf};

use crate::board::open;
use crate::equal::{equal, equal_at};
use crate::peer::{ASK, LIMITS, Link, asks, join_link, read_all, write_all};
use broker_core::{Entry, Journal, Took};
use hub_lock::{Hub, HubPass};
use peer_link::{ReadEnd, ShellEnd, WriteEnd, read_shell};
use relay_model::{EndCause, Role};
use std::alloc::Global;
use std::process::Abort;
use std::sync::Wait;
use std::test::Fail;
use wio_core::{MemSink, MemSource};

/// What an entry of the journal is.
#[derive(Clone, Copy, Debug)]
enum Seen {
    Token(u32),
    Body(&'static [u8]),
    Took(u32),
}

/// What a link gives, and which reads and writes of it fail. How its reader ends, after how many steps; how its writer ends,
/// which runs after that, how many bytes it took, and what one take more answers; how many bytes came out, how many
/// entries the journal has, and which it has by their numbers.
#[derive(Drop)]
struct Row<'a> {
    bytes: &'a [u8],
    reads: &'a [u64],
    writes: &'a [u64],
    read: (ReadEnd, u64),
    wrote: (WriteEnd, u64, Took),
    out: usize,
    entries: u32,
    seen: &'a [(u32, Seen)],
}

/// How a writer ends that had nothing to take.
const IDLE: (WriteEnd, u64, Took) = (WriteEnd::Closed, 0, Took::Closed);

static ROWS: [Row<'static>; 4] = [
    // a header that announces nothing
    Row {
        bytes: &[0, 0, 0, 0],
        reads: &[],
        writes: &[],
        read: (ReadEnd::BadFrame(0, 0), 1),
        wrote: IDLE,
        out: 0,
        entries: 2,
        seen: &[],
    },
    // a frame with a message of 7 bytes, and another frame
    Row {
        bytes: &[8, 0, 0, 0, 1, 0, 0, 0, 1, 0, 7, 0, 8, 0, 0, 0, 1, 1, 1, 1],
        reads: &[],
        writes: &[],
        read: (ReadEnd::Ended(EndCause::Bad), 1),
        wrote: (WriteEnd::Closed, 32, Took::Closed),
        out: 36,
        entries: 4,
        seen: &[],
    },
    // a read that fails in mid-stream
    Row {
        bytes: &ASK,
        reads: &[4],
        writes: &[],
        read: (ReadEnd::ReadFault, 2),
        wrote: (WriteEnd::Closed, 112, Took::Closed),
        out: 116,
        entries: 4,
        seen: &[(2, Seen::Body(&[2, 0, 0, 0])), (4, Seen::Took(112))],
    },
    // a frame with the token 9 and the message of `ASK`: the token stands before its message
    Row {
        bytes: &[12, 0, 1, 0, 9, 0, 0, 0, 1, 0, 0, 0, 1, 0, 12, 0, 2, 0, 0, 0],
        reads: &[],
        writes: &[],
        read: (ReadEnd::Closed, 3),
        wrote: (WriteEnd::Closed, 112, Took::Closed),
        out: 116,
        entries: 5,
        seen: &[(2, Seen::Token(9)), (3, Seen::Body(&[2, 0, 0, 0]))],
    },
];

/// What was told for 100 frames is taken in three pieces.
const PIECES: [(u32, Seen); 3] = [
    (103, Seen::Took(4096)),
    (104, Seen::Took(4096)),
    (105, Seen::Took(3008)),
];

/// Of each write that fails: how many bytes went out before it, of each frame the header and then the rest; how many bytes
/// the writer took; what one take more answers; and how many entries the journal then has.
static UNWRITTEN: [(usize, u64, Took, u32); 6] = [
    (0, 4096, Took::Bytes(4096, 0), 104),
    (4, 4096, Took::Bytes(4096, 0), 104),
    (4100, 8192, Took::Bytes(3008, 0), 105),
    (4104, 8192, Took::Bytes(3008, 0), 105),
    (8200, 11_200, Took::Closed, 105),
    (8204, 11_200, Took::Closed, 105),
];

fn is_seen(journal: &Journal, number: u32, seen: Seen) -> bool {
    match (journal.entry(number), seen) {
        (Some(Entry::Tokens { tokens, .. }), Seen::Token(token)) => {
            tokens.as_slice() == [token].as_slice()
        }
        (Some(Entry::Message { body, .. }), Seen::Body(wanted)) => body.as_slice() == wanted,
        (Some(Entry::Took { bytes, .. }), Seen::Took(wanted)) => *bytes == wanted,
        _ => false,
    }
}

// The link of a peer that joins gives the bytes and ends, and then its writer runs.
fn run_link<R: Abort + Wait>(
    rt: &R,
    alloc: Global,
    link: Link<'_>,
    row: &Row<'_>,
) -> Result<(), Fail> {
    let (bytes, fail) = (row.bytes.to_vec(alloc)?, row.reads.to_vec(alloc)?);
    let mut sink = MemSink::new(alloc, 20_000, row.writes.to_vec(alloc)?)?;
    let Link { reads, writes } = link;
    let read = read_all(rt, alloc, reads, bytes, fail, &open());
    equal_at(rt, &row.bytes, read, row.read);
    let wrote = write_all(rt, writes, &mut sink);
    equal_at(rt, &row.bytes, wrote, row.wrote);
    equal_at(rt, &row.bytes, sink.held().len(), row.out);
    Ok(())
}

// The journal has as many entries, and these.
fn check_journal<R: Abort>(rt: &R, journal: &Journal, row: &Row<'_>) {
    equal_at(rt, &row.bytes, journal.len(), row.entries);
    for (number, seen) in row.seen {
        equal_at(rt, seen, is_seen(journal, *number, *seen), true);
    }
}

fn check_row<R: Abort + Wait>(rt: &R, alloc: Global, row: &Row<'_>) -> Result<(), Fail> {
    let (hub, mut root) = Hub::new(alloc, LIMITS)?;
    let Some(link) = join_link(rt, &hub, &mut root, Role::App) else {
        return Err(Fail::new("no peer joined"));
    };
    run_link(rt, alloc, link, row)?;
    let session = hub.session(rt, &mut root)?;
    check_journal(rt, &session.journal, row);
    Ok(())
}

#[test]
fn a_link_ends_by_what_it_gives(rt: HostRuntime) -> Result<(), Fail> {
    let alloc = rt.alloc();
    for row in &ROWS {
        check_row(&rt, alloc, row)?;
    }
    // the first bytes of a frame, none of them or all but one at most
    for count in 0..ASK.len() {
        let end = match count {
            0 => ReadEnd::Closed,
            _ => ReadEnd::Torn(count),
        };
        let row = Row {
            bytes: &ASK[..count],
            reads: &[],
            writes: &[],
            read: (end, 1),
            wrote: IDLE,
            out: 0,
            entries: 2,
            seen: &[],
        };
        check_row(&rt, alloc, &row)?;
    }
    Ok(())
}

#[test]
fn nothing_is_taken_after_a_failed_write(rt: HostRuntime) -> Result<(), Fail> {
    let alloc = rt.alloc();
    let bytes = asks(alloc, 100)?;
    for at in 0..UNWRITTEN.len() {
        let (out, taken, more, entries) = UNWRITTEN[at];
        let row = Row {
            bytes: bytes.as_slice(),
            reads: &[],
            writes: &[at as u64 + 1],
            read: (ReadEnd::Closed, 101),
            wrote: (WriteEnd::WriteFault, taken, more),
            out,
            entries,
            seen: match entries {
                105 => &PIECES,
                _ => &[PIECES[0], PIECES[1]],
            },
        };
        check_row(&rt, alloc, &row)?;
    }
    Ok(())
}

// A shell's lines are answered up to the third, which is none.
fn answer_shell<R: Abort + Wait>(
    rt: &R,
    alloc: Global,
    hub: &Hub,
    root: &mut HubPass,
) -> Result<(), Fail>
    requires own { IsOf hub.now root.old }
    requires room { root.old.next ≤ 1 }
{
    let lines = b"key 5 30 1\nscreen 10 10\nnonsense\nunfocus\n".to_vec(alloc)?;
    let mut source = MemSource::new(lines, 7, Vec::new(alloc));
    let mut sink = MemSink::new(alloc, 100, Vec::new(alloc))?;
    let mut pass = hub.shell(root);
    let end = read_shell(rt, alloc, hub, &mut pass, &mut source, &mut sink);
    equal(rt, (end, pass.steps()), (ShellEnd::BadLine(3), 2));
    equal(rt, sink.held(), b"1 pass\n2\n".as_slice());
    Ok(())
}

#[test]
fn a_shell_is_answered(rt: HostRuntime) -> Result<(), Fail> {
    let (hub, mut root) = Hub::new(rt.alloc(), LIMITS)?;
    answer_shell(&rt, rt.alloc(), &hub, &mut root)
}
