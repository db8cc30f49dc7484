//! The server over links in memory: orders, words, faults, and which steps stand in which order.
use crate::board::Hold;
use crate::equal::{equal, equal_at};
use crate::server::{output_of, serve_mem, words};
use serve_net::{Door, MemLink, MemNet, MemSink, MemSource};
use serve_run::ServeStatus;
use std::alloc::Global;
use std::process::Abort;
use std::sync::{Arc, Wait};
use std::test::Fail;
use std::thread::Threads;

/// A frame with one message, `get_registry`.
const REGISTRY: [u8; 16] = [12, 0, 0, 0, 1, 0, 0, 0, 1, 0, 12, 0, 2, 0, 0, 0];

/// The words, and a link for each letter: an application's, a method's, or a shell's whose lines are good, or not (`x`).
/// Which accepts, which starts of jobs and which writes of the output fail, by their numbers from 1; and what is held. The status; and
/// the session that is written, or how many lines of it have a word.
#[derive(Drop)]
struct Row {
    line: &'static str,
    links: &'static str,
    fails: [&'static [u64]; 3],
    hold: Hold,
    status: ServeStatus,
    session: Option<&'static str>,
    lines: &'static [(&'static str, u64)],
}

static ROWS: [Row; 10] = [
    // an order of 64 letters: each link has its jobs, and each its lines in the session
    Row {
        line: "serve --app a --method m --shell s --order amsaksamsamsamsamsamsamsamsamsamsamsamsamsamsamsamsamsamsamsamsa",
        links: "amsaksamsamsamsamsamsamsamsamsamsamsamsamsamsamsamsamsamsamsamsa",
        fails: [&[], &[], &[]],
        hold: Hold::Nobody,
        status: ServeStatus::Ok,
        session: None,
        lines: &[
            (" join ", 43),
            (" join keyed", 1),
            (" key ", 21),
            (" gone ", 43),
        ],
    },
    // a shell's orders stand in the session, and a bad line ends its link alone
    Row {
        line: "serve --app a --method m --shell s --order s",
        links: "x",
        fails: [&[], &[], &[]],
        hold: Hold::Nobody,
        status: ServeStatus::Ok,
        session: Some("session 2 1000000 65536 134217728\n0 1 key 5 30 1\n0 1 screen 10 10\nend\n"),
        lines: &[],
    },
    // two readers run beside each other: peer 1's first step waits until peer 2's is answered
    Row {
        line: "serve --app a --method m --shell s --order aa",
        links: "aa",
        fails: [&[], &[], &[]],
        hold: Hold::UntilAnswered,
        status: ServeStatus::Ok,
        session: None,
        lines: &[(" bytes 1 ", 1), (" bytes 2 ", 1)],
    },
    // the record comes while links run: a first step waits until the join before it stands in the record
    Row {
        line: "serve --app a --method m --shell s --order a",
        links: "a",
        fails: [&[], &[], &[]],
        hold: Hold::UntilRecorded,
        status: ServeStatus::Ok,
        session: None,
        lines: &[(" bytes 1 ", 1)],
    },
    // an accept that fails: the links before it are served, and the session is written
    Row {
        line: "serve --app a --method m --shell s --order sss --entries 99 --wait 60",
        links: "sss",
        fails: [&[2], &[], &[]],
        hold: Hold::Nobody,
        status: ServeStatus::NetFault,
        session: Some("session 2 99 65536 134217728\n0 1 key 5 30 1\nend\n"),
        lines: &[],
    },
    Row {
        line: "serve --app a --method m --shell s --order aa --entries 99",
        links: "aa",
        fails: [&[2], &[], &[]],
        hold: Hold::Nobody,
        status: ServeStatus::NetFault,
        session: None,
        lines: &[(" join ", 1)],
    },
    // a start that is refused: the peer joined, and says that its link is gone and nothing else
    Row {
        line: "serve --app a --method m --shell s --order as --entries 99",
        links: "as",
        fails: [&[], &[1], &[]],
        hold: Hold::Nobody,
        status: ServeStatus::NoThread,
        session: Some("session 2 99 65536 134217728\n0 0 join app\n0 1 gone 1\nend\n"),
        lines: &[],
    },
    // the start of a second peer's reader is refused, and where the session can't be written besides, the lower of both
    // statuses is answered
    Row {
        line: "serve --app a --method m --shell s --order aa --entries 99",
        links: "aa",
        fails: [&[], &[3], &[]],
        hold: Hold::Nobody,
        status: ServeStatus::NoThread,
        session: None,
        lines: &[(" join app", 2), (" gone 2", 1)],
    },
    Row {
        line: "serve --app a --method m --shell s --order aa --entries 99",
        links: "aa",
        fails: [&[], &[3], &[1]],
        hold: Hold::Nobody,
        status: ServeStatus::WriteFault,
        session: Some(""),
        lines: &[],
    },
    // the start of a second peer's writer is refused: its reader reads its link to the end
    Row {
        line: "serve --app a --method m --shell s --order aa --entries 99",
        links: "aa",
        fails: [&[], &[4], &[]],
        hold: Hold::Nobody,
        status: ServeStatus::NoThread,
        session: None,
        lines: &[(" join app", 2), (" bytes 2 ", 1), (" gone 2", 1)],
    },
];

/// Words that are in no grammar: nothing is done.
static BAD_WORDS: [&str; 13] = [
    "serve",
    "replay",
    "serve --app a --app b --method m --shell s --order a",
    "serve --app a --method m --order a",
    "serve --app a --method m --shell s --order x",
    "serve --app a --method m --shell s --order a --entries 0",
    "serve --app a --method m --shell s --order a --entries 4000001",
    "serve --app a --method m --shell s --order a --store 01",
    "serve --app a --method m --shell s --order a --wait 0",
    "serve --app -a --method m --shell s --order a",
    "serve --app=a --method m --shell s --order a",
    "serve --app a --method m --shell s --order a --help",
    "serve --app a --method m --shell s --order a -- x",
];

// A link at the door that gives these bytes, five at once, and ends.
fn link_at(alloc: Global, door: Door, bytes: &[u8]) -> Result<MemLink, Fail> {
    let bytes = bytes.to_vec(alloc)?;
    Ok(MemLink {
        door,
        source: MemSource::new(bytes, 5, Vec::new(alloc)),
        sink: MemSink::new(alloc, 65_536, Vec::new(alloc))?,
    })
}

// A link for each letter, each door's in their order.
fn net_of(alloc: Global, letters: &str, fail: &[u64]) -> Result<MemNet, Fail> {
    let mut links = Vec::new(alloc);
    for letter in letters.as_bytes() {
        links.push(match *letter {
            b'a' => link_at(alloc, Door::App, &REGISTRY)?,
            b'm' | b'k' => link_at(alloc, Door::Method, &REGISTRY)?,
            b's' => link_at(alloc, Door::Shell, b"key 5 30 1\n")?,
            _ => link_at(alloc, Door::Shell, b"key 5 30 1\nscreen 10 10\nnonsense\n")?,
        })?;
    }
    Ok(MemNet::new(alloc, links, fail.to_vec(alloc)?)?)
}

// How many lines of the text have the word.
fn count(text: &str, word: &str) -> u64 {
    text.split('\n').filter(|line| line.contains(word)).count() as u64
}

// The session is this one, or has these lines. Where the second peer was answered first, its bytes stand first.
fn check_session<R: Abort>(rt: &R, row: &Row, session: &[u8]) {
    let text = std::str::from_utf8(session).ok().expect(rt, "text");
    if let Some(wanted) = row.session {
        equal_at(rt, &row.line, text.as_bytes(), wanted.as_bytes());
    }
    for &(word, wanted) in row.lines {
        equal_at(rt, &word, count(text, word), wanted);
    }
    if row.hold == Hold::UntilAnswered {
        let second = text.find("bytes 2 ").expect(rt, "peer 2");
        let first = text.find("bytes 1 ").expect(rt, "peer 1");
        equal(rt, second < first, true);
    }
}

fn check_row<R: Abort + Threads + Wait + Copy + Send + Sync + 'static>(
    rt: R,
    alloc: Global,
    row: &Row,
) -> Result<(), Fail> {
    let words = words(alloc, row.line)?;
    let mut net = net_of(alloc, row.links, row.fails[0])?;
    let mut output = output_of(alloc, row.hold, row.fails[2])?;
    let board = Arc::try_clone(&output.board)?;
    let status = serve_mem(
        rt,
        alloc,
        &words,
        &mut net,
        row.fails[1],
        &board,
        &mut output,
    );
    equal_at(&rt, &row.line, status, row.status);
    equal_at(&rt, &row.line, board.was_late(), false);
    check_session(&rt, row, output.sink.held());
    Ok(())
}

#[test]
fn links_in_memory_are_served(rt: HostRuntime) -> Result<(), Fail> {
    let alloc = rt.alloc();
    for row in &ROWS {
        check_row(rt, alloc, row)?;
    }
    for &line in &BAD_WORDS {
        let row = Row {
            line,
            links: "",
            fails: [&[], &[], &[]],
            hold: Hold::Nobody,
            status: ServeStatus::BadWords,
            session: Some(""),
            lines: &[],
        };
        check_row(rt, alloc, &row)?;
    }
    Ok(())
}
