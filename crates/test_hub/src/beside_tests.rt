//! Links that are read and written beside each other, each reader and each writer in a thread of its own: a gate holds a
//! reader until the writer wrote or another reader was answered, and the one journal has each peer's messages in their
//! order and gives, replayed, what was written.
ghost use Rattle.std.specs.Prelude.{◌≡◌};
ghost use Rattle.hub_lock.specs.Passes.{IsOf};

use crate::board::{Board, Noted};
use crate::equal::{equal, equal_at};
use crate::peer::{LIMITS, Link, asks, join_link, read_all, write_all};
use crate::replay::replay;
use broker_core::{Entry, Journal, Took};
use hub_lock::{Hub, HubPass};
use peer_link::{ReadEnd, WriteEnd};
use relay_model::Role;
use std::alloc::{AllocError, Global};
use std::process::Abort;
use std::sync::Wait;
use std::sync::atomic::{AtomicU64, Ordering};
use std::test::Fail;
use std::thread::{Threads, join, map_vec};
use wio_core::MemSink;

/// So many links, each of so many frames, where the writes with these numbers fail; which step is held, and until when; how
/// the writers end, how many bytes they took, and what one take more answers.
struct Row {
    links: u32,
    asks: u32,
    fail: &'static [u64],
    held: (u32, u64),
    answer: (u32, u64),
    wanted: u64,
    wrote: (WriteEnd, u64, Took),
}

static ROWS: [Row; 4] = [
    // A writer runs beside its reader: the second step is held until the first's answer was written, in one frame.
    Row {
        links: 1,
        asks: 1,
        fail: &[],
        held: (1, 2),
        answer: (0, 0),
        wanted: 116,
        wrote: (WriteEnd::Closed, 112, Took::Closed),
    },
    // The first message's answer meets the write that fails: the writer ends, and the second's answer is there to take.
    Row {
        links: 1,
        asks: 2,
        fail: &[1],
        held: (1, 2),
        answer: (0, 0),
        wanted: 116,
        wrote: (WriteEnd::WriteFault, 112, Took::Bytes(112, 0)),
    },
    // Two readers run beside each other: peer 1's first step is held until peer 2's was answered.
    Row {
        links: 2,
        asks: 1,
        fail: &[],
        held: (1, 1),
        answer: (2, 1),
        wanted: 1,
        wrote: (WriteEnd::Closed, 112, Took::Closed),
    },
    // Eight links race.
    Row {
        links: 8,
        asks: 100,
        fail: &[],
        held: (0, 0),
        answer: (0, 0),
        wanted: 0,
        wrote: (WriteEnd::Closed, 11_200, Took::Closed),
    },
];

/// What became of a link: how its reader ended, after how many steps; how its writer ended, how many bytes it took, and what
/// one take more answers; and what came out.
#[derive(Drop)]
struct Done {
    peer: u32,
    read: (ReadEnd, u64),
    wrote: (WriteEnd, u64, Took),
    out: Vec<u8>,
}

// The reader's loop and the writer's, each in a thread of its own; none where there is no memory.
fn serve<R: Threads + Wait + Sync>(
    rt: &R,
    alloc: Global,
    link: Link<'_>,
    count: u32,
    fail: &[u64],
    board: &Board,
) -> Option<Done> {
    let bytes = asks(alloc, count).ok()?;
    let sink = MemSink::new(alloc, 65_536, fail.to_vec(alloc).ok()?).ok()?;
    let Link { reads, writes } = link;
    let peer = reads.pass.peer();
    let mut noted = Noted { board, sink };
    let (read, (wrote, out)) = join(
        rt,
        move || read_all(rt, alloc, reads, bytes, Vec::new(alloc), board),
        move || {
            let wrote = write_all(rt, writes, &mut noted);
            let out: Result<_, _> = noted.sink.held().to_vec(alloc);
            (wrote, out)
        },
    );
    let out = out.ok()?;
    Some(Done {
        peer,
        read,
        wrote,
        out,
    })
}

fn serve_all<R: Threads + Wait + Sync>(
    rt: &R,
    alloc: Global,
    links: Vec<Link<'_>>,
    count: u32,
    fail: &[u64],
    board: &Board,
) -> Result<Vec<Option<Done>>, AllocError> {
    map_vec(
        rt,
        links,
        &|link| serve(rt, alloc, link, count, fail, board),
    )
}

fn join_links<'a, R: Wait>(
    rt: &R,
    alloc: Global,
    hub: &'a Hub,
    root: &mut HubPass,
    count: u32,
) -> Result<Vec<Link<'a>>, Fail>
    requires own { IsOf hub.now root.old }
    ensures own { IsOf hub.now root.new }
{
    let mut links = Vec::new(alloc);
    for _ in 0..count {
        let Some(link) = join_link(rt, hub, root, Role::App) else {
            return Err(Fail::new("no peer joined"));
        };
        links.push(link)?;
    }
    Ok(links)
}

// The bytes of frames without tokens, without their headers.
fn unframed(alloc: Global, bytes: &[u8]) -> Result<Vec<u8>, AllocError> {
    let mut found = Vec::new(alloc);
    let mut rest = bytes;
    for _ in 0..bytes.len() {
        let [low, high, 0, 0, more @ ..] = rest else {
            break;
        };
        let size = u16::from_le_bytes([*low, *high]) as usize;
        if more.len() < size {
            break;
        }
        found.extend_from_slice(&more[..size])?;
        rest = &more[size..];
    }
    Ok(found)
}

// How many messages of the peer stand in their order, and the number of the first.
fn in_order(journal: &Journal, peer: u32) -> (u32, u32) {
    let mut next = 2u32;
    let mut first = 0u32;
    for number in 1..journal.len().saturating_add(1) {
        if let Some(Entry::Message { peer: of, body, .. }) = journal.entry(number) {
            if *of == peer && body.as_slice() == next.to_le_bytes().as_slice() {
                if next == 2 {
                    first = number;
                }
                next = next.saturating_add(1);
            }
        }
    }
    (next.saturating_sub(2), first)
}

// The link ended as it should, and the journal has what it gave; replayed, it gives what came out, or nothing did where a
// write failed.
fn stands<R: Abort>(
    rt: &R,
    alloc: Global,
    journal: &Journal,
    row: &Row,
    done: &Done,
) -> Result<(), Fail> {
    let told = 112 * u64::from(row.asks);
    equal_at(
        rt,
        &done.peer,
        done.read,
        (ReadEnd::Closed, u64::from(row.asks) + 1),
    );
    equal_at(rt, &done.peer, done.wrote, row.wrote);
    equal_at(rt, &done.peer, in_order(journal, done.peer).0, row.asks);
    let taken = replay(alloc, journal, done.peer)?;
    equal_at(rt, &done.peer, taken.len() as u64, told);
    if row.fail.is_empty() {
        let out = unframed(alloc, done.out.as_slice())?;
        equal_at(rt, &done.peer, out.as_slice(), taken.as_slice());
    } else {
        equal_at(rt, &done.peer, done.out.len(), 0);
    }
    Ok(())
}

// All links stand so. Where peer 2 was answered first, its message stands first.
fn all_stand<R: Abort>(
    rt: &R,
    alloc: Global,
    journal: &Journal,
    row: &Row,
    all: &[Option<Done>],
) -> Result<(), Fail> {
    equal(rt, all.len(), row.links as usize);
    for done in all {
        let Some(done) = done else {
            return Err(Fail::new("no memory"));
        };
        stands(rt, alloc, journal, row, done)?;
    }
    if row.answer.0 == 2 {
        let (_, first) = in_order(journal, 1);
        let (_, second) = in_order(journal, 2);
        equal(rt, second < first, true);
    }
    Ok(())
}

fn check_row<R: Abort + Threads + Wait + Sync>(
    rt: &R,
    alloc: Global,
    row: &Row,
) -> Result<(), Fail> {
    let (hub, mut root) = Hub::new(alloc, LIMITS)?;
    let board = Board {
        held: row.held,
        answer: row.answer,
        wanted: row.wanted,
        count: AtomicU64::new(0),
        gave_up: AtomicU64::new(0),
    };
    let links = join_links(rt, alloc, &hub, &mut root, row.links)?;
    let all = serve_all(rt, alloc, links, row.asks, row.fail, &board)?;
    equal(rt, board.gave_up.load(Ordering::SeqCst), 0);
    let session = hub.session(rt, &mut root)?;
    all_stand(rt, alloc, &session.journal, row, all.as_slice())
}

#[test]
fn links_run_beside_each_other(rt: HostRuntime) -> Result<(), Fail> {
    for row in &ROWS {
        check_row(&rt, rt.alloc(), row)?;
    }
    Ok(())
}
