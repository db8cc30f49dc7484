//! The server over Unix sockets: three doors, peers that never read, links that are shut one way, a door that goes, and
//! jobs that can't be started.
use crate::board::Hold;
use crate::client::{Act, do_all};
use crate::equal::equal_at;
use crate::server::{output_of, replay, serve_unix, words};
use serve_run::ServeStatus;
use serve_unix::UnixNet;
use std::alloc::Global;
use std::fs::{File, Files};
use std::net::{Net, Shutdown};
use std::process::Abort;
use std::sync::{Arc, Wait};
use std::test::Fail;
use std::thread;
use std::thread::Threads;
use std::time::Clock;

/// What is read: so many bytes, or bytes that end so.
#[derive(Clone, Copy, Debug)]
enum Wanted {
    Length(usize),
    Is(&'static [u8]),
    Ends(&'static [u8]),
}

/// The words, and which starts of jobs are refused; what clients do meanwhile, and what they read. The status, and texts that
/// the session has; and whether it replays to what its first peer, an application, was told, the first that was read.
struct Row {
    line: &'static str,
    starts: &'static [u64],
    acts: &'static [Act],
    read: &'static [Wanted],
    status: ServeStatus,
    parts: &'static [&'static str],
    lacks: &'static str,
    tells: bool,
}

/// A frame with one message, `get_registry`: an application is told three globals, with the frame's header 116 bytes.
const REGISTRY: [u8; 16] = [12, 0, 0, 0, 1, 0, 0, 0, 1, 0, 12, 0, 2, 0, 0, 0];

/// A frame with one message, `sync`: it is told a callback's answer and its end, 28 bytes.
const SYNC: [u8; 16] = [12, 0, 0, 0, 1, 0, 0, 0, 0, 0, 12, 0, 2, 0, 0, 0];

/// The first of these, and a part of another.
const TORN: [u8; 22] = [
    12, 0, 0, 0, 1, 0, 0, 0, 1, 0, 12, 0, 2, 0, 0, 0, 12, 0, 0, 0, 1, 0,
];

static ROWS: [Row; 7] = [
    // Three doors, each at its own path, where none is opened again: an application's, a method's and a shell's bytes go
    // over real sockets.
    Row {
        line: "serve --app three_app.sock --method three_method.sock --shell three_shell.sock --order ams",
        starts: &[],
        acts: &[
            Act::Talk("three_app.sock", &REGISTRY),
            Act::Talk("three_method.sock", &REGISTRY),
            Act::Talk("three_shell.sock", b"key 5 30 1\nscreen 10 10\n"),
        ],
        read: &[
            Wanted::Length(116),
            Wanted::Length(116),
            Wanted::Is(b"9 pass\n10\n"),
        ],
        status: ServeStatus::Ok,
        parts: &[
            "session 2 1000000 65536 134217728\n",
            " join app\n",
            " bytes 1 0100000001000c0002000000\n",
            " gone 1\n",
            " join method\n",
            " bytes 2 0100000001000c0002000000\n",
            " gone 2\n",
            " key 5 30 1\n",
            " screen 10 10\n",
            "\nend\n",
        ],
        lacks: "",
        tells: true,
    },
    // Two applications send different messages, and are told something while both go on sending: each is the peer of its
    // own link, and its link alone gains what it is told.
    Row {
        line: "serve --app own_app.sock --method own_m.sock --shell own_s.sock --order aa",
        starts: &[],
        acts: &[
            Act::Open("own_app.sock"),
            Act::Open("own_app.sock"),
            Act::Send(0, &REGISTRY),
            Act::Send(1, &SYNC),
            Act::Read(0, 116),
            Act::Read(1, 28),
            Act::Shut(0, Shutdown::Write),
            Act::Shut(1, Shutdown::Write),
            Act::ReadEnd(0),
            Act::ReadEnd(1),
        ],
        read: &[
            Wanted::Length(116),
            Wanted::Length(28),
            Wanted::Length(0),
            Wanted::Length(0),
        ],
        status: ServeStatus::Ok,
        parts: &[
            " bytes 1 0100000001000c0002000000\n",
            " bytes 2 0100000000000c0002000000\n",
        ],
        lacks: "",
        tells: true,
    },
    // A writer that can't be started hangs its link up: its reader doesn't wait for more.
    Row {
        line: "serve --app mute_app.sock --method mute_m.sock --shell mute_s.sock --order a",
        starts: &[2],
        acts: &[Act::Open("mute_app.sock"), Act::ReadEnd(0)],
        read: &[Wanted::Length(0)],
        status: ServeStatus::NoThread,
        parts: &[" join app\n", " gone 1\n", "\nend\n"],
        lacks: "",
        tells: false,
    },
    // A door that can't be opened: nothing is accepted, and the session is written.
    Row {
        line: "serve --app no_such_folder/app.sock --method no_m.sock --shell no_s.sock --order a",
        starts: &[],
        acts: &[],
        read: &[],
        status: ServeStatus::NetFault,
        parts: &["session 2 1000000 65536 134217728\nend\n"],
        lacks: "",
        tells: false,
    },
    // The wait for a second link ends with its door, what stands is served to its end, and the session is written.
    Row {
        line: "serve --app gone.sock --method gone_m.sock --shell gone_s.sock --order aa",
        starts: &[],
        acts: &[Act::Talk("gone.sock", &REGISTRY), Act::Remove("gone.sock")],
        read: &[Wanted::Length(116)],
        status: ServeStatus::NetFault,
        parts: &[" gone 1\n", "\nend\n"],
        lacks: "",
        tells: false,
    },
    // A peer that never reads is ended when its store is full, which no `gone` says, and holds up nobody.
    Row {
        line: "serve --app deaf_app.sock --method deaf_m.sock --shell deaf_shell.sock --order as --store 1000",
        starts: &[],
        acts: &[
            Act::Open("deaf_app.sock"),
            Act::Flood(0, 40),
            Act::Talk("deaf_shell.sock", b"key 5 30 1\n"),
            Act::Flood(0, 400),
        ],
        read: &[Wanted::Ends(b" pass\n")],
        status: ServeStatus::Ok,
        parts: &[" key 5 30 1\n"],
        lacks: " gone 1\n",
        tells: false,
    },
    // The second application shut its reading half: it is hung up on where a write to it fails, so that its peer ends. The
    // first shut its sending half within a frame: it is told what it asked for. Both hold up nobody.
    Row {
        line: "serve --app half_app.sock --method half_m.sock --shell half_shell.sock --order aas",
        starts: &[],
        acts: &[
            Act::Open("half_app.sock"),
            Act::Open("half_app.sock"),
            Act::Shut(1, Shutdown::Read),
            Act::Send(1, &REGISTRY),
            Act::Drip(1),
            Act::Send(0, &TORN),
            Act::Shut(0, Shutdown::Write),
            Act::ReadEnd(0),
            Act::Talk("half_shell.sock", b"key 5 30 1\n"),
        ],
        read: &[Wanted::Length(116), Wanted::Ends(b" pass\n")],
        status: ServeStatus::Ok,
        parts: &[" gone 1\n", " gone 2\n", " key 5 30 1\n", "\nend\n"],
        lacks: "",
        tells: true,
    },
];

// The clients of the row of that place.
fn do_row<R: Files + Net + Clock>(rt: &R, alloc: Global, place: usize) -> Option<Vec<Vec<u8>>> {
    let row = ROWS.get(place)?;
    do_all(rt, alloc, row.acts).ok()
}

fn is_wanted(read: &[u8], wanted: Wanted) -> bool {
    match wanted {
        Wanted::Length(length) => read.len() == length,
        Wanted::Is(bytes) => read == bytes,
        Wanted::Ends(bytes) => read.ends_with(bytes),
    }
}

fn check_read<R: Abort>(rt: &R, row: &Row, read: &[Vec<u8>]) {
    equal_at(rt, &row.line, read.len(), row.read.len());
    for (bytes, wanted) in read.iter().zip(row.read.iter()) {
        let bytes = bytes.as_slice();
        assert!(rt;
            is_wanted(bytes, *wanted),
            "{bytes:?} {wanted:?} {}",
            row.line
        );
    }
}

// The session has the texts. A replay of it tells the first peer what was read first, without the frame's header.
fn check_session<R: Abort>(
    rt: &R,
    alloc: Global,
    row: &Row,
    session: &[u8],
    read: &[Vec<u8>],
) -> Result<(), Fail> {
    let text = std::str::from_utf8(session).ok().expect(rt, "text");
    for part in row.parts {
        assert!(rt; text.contains(*part), "{part}");
    }
    assert!(rt;
        row.lacks.is_empty() || !text.contains(row.lacks),
        "{}",
        row.lacks
    );
    if row.tells {
        let mut told = String::from_str(alloc, " out 1 ")?;
        for byte in read.first().ok_or("nothing read")?.iter().skip(4) {
            told.push_str(format!(in alloc; "{byte:02x}")?.as_str())?;
        }
        told.push('\n')?;
        let transcript = replay(alloc, session)?;
        let text = std::str::from_utf8(transcript.held())
            .ok()
            .expect(rt, "text");
        assert!(rt; text.contains(told.as_str()), "{}", row.line);
    }
    Ok(())
}

// The row's clients run in a thread of their own.
#[test]
fn links_at_sockets_are_served(rt: HostRuntime) -> Result<(), Fail> {
    let alloc = rt.alloc();
    for place in 0..ROWS.len() {
        let row = &ROWS[place];
        let words = words(alloc, row.line)?;
        let mut net = UnixNet::new(rt, alloc);
        let mut output = output_of(alloc, Hold::Nobody, &[])?;
        let board = Arc::try_clone(&output.board)?;
        let clients = thread::spawn(&rt, move || do_row(&rt, alloc, place))?;
        let status = serve_unix(rt, alloc, &words, &mut net, row.starts, &board, &mut output);
        let read = clients.join(&rt).ok_or("a client failed")?;
        equal_at(&rt, &row.line, status, row.status);
        check_read(&rt, row, read.as_slice());
        check_session(&rt, alloc, row, output.sink.held(), read.as_slice())?;
    }
    Ok(())
}
