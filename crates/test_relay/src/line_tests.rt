//! Lines that are read, and what each says; and lines that are printed. Lines that are refused are cases of `test_lines`,
//! but for those of the shell alone.
use crate::equal::{equal, equal_at};
use broker_steps::{PeerStep, Stamp, Step, TokenList};
use lines_transcript::{
    print_ended, print_out, print_pass, print_placed, print_stamped, print_step, print_told,
    print_took, print_vmods,
};
use relay_model::{EndCause, Mods, Said, Told};
use session_text::Form::{self, Acts, Session, Session2, Shell};
use session_text::{BadLine, Line, read_line};
use std::process::Abort;
use std::test::Fail;
use wl_wire::{Bytes, Text};

// Each kind of line, and what it says. The numbers are those of worked sessions, and the ends of their ranges.
#[rattlefmt::skip]
const ACTS: [(&str, &str); 32] = [
    ("peer", "Act(Peer)"),
    ("gone 1", "Act(Gone { peer: 1, cause: Gone })"),
    ("surface 4294967295", "Act(Surface { peer: 4294967295 })"),
    ("field 0", "Act(Field { peer: 0 })"),
    ("method 4", "Act(Method { peer: 4 })"),
    ("popup 6 5", "Act(Popup { method: 6, surface: 5 })"),
    ("grab 2", "Act(Grab { method: 2 })"),
    ("drop 3", "Act(Drop { label: 3 })"),
    ("focus 2", "Act(Focus { surface: 2 })"),
    ("unfocus", "Act(Unfocus)"),
    ("area 2 -2 200 30 0", "Act(Area { surface: 2, rect: Rect { x: -2, y: 200, width: 30, height: 0 } })"),
    ("screen 9 0", "Act(Screen { size: Size { width: 9, height: 0 } })"),
    ("enable 3", "Act(Enable { field: 3 })"),
    ("disable 3", "Act(Disable { field: 3 })"),
    ("surround 3 c3a9 2 -1", "Act(Surround { field: 3, text: Text { bytes: [195, 169] }, cursor: 2, anchor: -1 })"),
    ("cause 3 1", "Act(Cause { field: 3, cause: 1 })"),
    ("content 3 7 9", "Act(Content { field: 3, hint: 7, purpose: 9 })"),
    ("rect 3 85 56 -2 20", "Act(Cursor { field: 3, rect: Rect { x: 85, y: 56, width: -2, height: 20 } })"),
    ("commit 3", "Act(Commit { field: 3 })"),
    ("mstring 5 61", "Act(MString { method: 5, text: Text { bytes: [97] } })"),
    ("mpreedit 5 - 0 1", "Act(MPreedit { method: 5, text: Text { bytes: [] }, begin: 0, end: 1 })"),
    ("mdelete 5 2 3", "Act(MDelete { method: 5, before: 2, after: 3 })"),
    ("mcommit 5 1", "Act(MCommit { method: 5, serial: 1 })"),
    ("key 7 31 1", "Act(Key { time: 7, key: 31, state: 1 })"),
    ("mods 1 2 3 4", "Act(Mods(Mods { depressed: 1, latched: 2, locked: 3, group: 4 }))"),
    ("keymap 1 9 4096", "Act(Keymap(Keymap { format: 1, token: 9, size: 4096 }))"),
    ("vboard 1", "Act(VBoard { peer: 1 })"),
    ("vkeymap 4 1 9 100", "Act(VKeymap { board: 4, keymap: Keymap { format: 1, token: 9, size: 100 } })"),
    ("vkey 4 5 30 1", "Act(VKey { board: 4, time: 5, key: 30, state: 1 })"),
    ("vmods 4 1 2 3 4", "Act(VMods { board: 4, mods: Mods { depressed: 1, latched: 2, locked: 3, group: 4 } })"),
    ("repeat 2147483647 -2147483648", "Act(Repeat(Repeat { rate: 2147483647, delay: -2147483648 }))"),
    ("end", "End"),
];

#[rattlefmt::skip]
const SESSION_LINES: [(&str, &str); 10] = [
    ("session 1 1000000 1048576", "Header(Limits { entries: 1000000, store: 1048576, weight: 134217728 })"),
    ("session 1 1 1", "Header(Limits { entries: 1, store: 1, weight: 134217728 })"),
    ("join app", "Session(Join(App))"),
    ("join method", "Session(Join(Method))"),
    ("bytes 1 0700", "Session(Bytes(1, Bytes { bytes: [7, 0] }))"),
    ("gone 2", "Session(Gone(2))"),
    ("take 2 1", "Session(Take(2, 1))"),
    ("take 2 4096", "Session(Take(2, 4096))"),
    ("focus 1 6", "Session(Shell(Focus { peer: 1, id: 6 }))"),
    ("end", "End"),
];

#[rattlefmt::skip]
const STAMPED_LINES: [(&str, &str); 9] = [
    ("session 2 4000000 1048576 536870912", "Header(Limits { entries: 4000000, store: 1048576, weight: 536870912 })"),
    ("session 2 1 1 1", "Header(Limits { entries: 1, store: 1, weight: 1 })"),
    ("0 0 join app", "Stamped(Stamp { moment: 0, author: 0 }, Join(App))"),
    ("5 3 bytes 1 0700", "Stamped(Stamp { moment: 5, author: 3 }, Bytes(1, Bytes { bytes: [7, 0] }))"),
    ("18446744073709551615 9999999999999999999 unfocus",
     "Stamped(Stamp { moment: 18446744073709551615, author: 9999999999999999999 }, Shell(Unfocus))"),
    ("0 0 area 1 6 -2 20 3 0",
     "Stamped(Stamp { moment: 0, author: 0 }, Shell(Area { peer: 1, id: 6, rect: Rect { x: -2, y: 20, width: 3, height: 0 } }))"),
    ("0 0 tokens 1 7 4294967295",
     "Stamped(Stamp { moment: 0, author: 0 }, Tokens(1, TokenList { tokens: [7, 4294967295] }))"),
    ("10 2 at 20", "Stamped(Stamp { moment: 10, author: 2 }, Shell(At { moment: 20 }))"),
    ("end", "End"),
];

#[rattlefmt::skip]
const SHELL_LINES: [(&str, &str); 9] = [
    ("focus 1 6", "Shell(Focus { peer: 1, id: 6 })"),
    ("unfocus", "Shell(Unfocus)"),
    ("area 1 6 -2 20 3 0", "Shell(Area { peer: 1, id: 6, rect: Rect { x: -2, y: 20, width: 3, height: 0 } })"),
    ("screen 9 8", "Shell(Screen { size: Size { width: 9, height: 8 } })"),
    ("key 7 31 1", "Shell(Key { time: 7, key: 31, state: 1 })"),
    ("mods 1 2 3 4", "Shell(Mods(Mods { depressed: 1, latched: 2, locked: 3, group: 4 }))"),
    ("keymap 1 9 4096", "Shell(Keymap(Keymap { format: 1, token: 9, size: 4096 }))"),
    ("repeat 25 -6", "Shell(Repeat(Repeat { rate: 25, delay: -6 }))"),
    ("at 5000000000", "Shell(At { moment: 5000000000 })"),
];

const TABLES: [(Form, &[(&str, &str)]); 4] = [
    (Acts, &ACTS),
    (Session, &SESSION_LINES),
    (Session2, &STAMPED_LINES),
    (Shell, &SHELL_LINES),
];

#[test]
fn reads_each_line(rt: HostRuntime) -> Result<(), Fail> {
    for (form, lines) in &TABLES {
        for (text, want) in *lines {
            let line = read_line(rt.alloc(), *form, text.as_bytes())?;
            let shown = format!(in rt.alloc(); "{line:?}")?;
            equal(&rt, shown.as_str(), *want);
        }
    }
    for text in [
        "join app",
        "session 1 1 1",
        "at 18446744073709551616",
        "tokens 1 7",
    ] {
        let read = read_line(rt.alloc(), Shell, text.as_bytes());
        assert!(rt; matches!(&read, Err(BadLine::Grammar)), "{text}");
    }
    Ok(())
}

fn prints(rt: &impl Abort, line: Text, want: &str) {
    equal(rt, line.as_str(), want);
}

// What the shell says is printed as it was read, a whole message as the bytes of its peer, and tokens without a stamp
// and with one.
#[test]
fn prints_steps(rt: HostRuntime) -> Result<(), Fail> {
    let alloc = rt.alloc();
    for (text, _) in &SHELL_LINES {
        let Line::Shell(step) = read_line(alloc, Shell, text.as_bytes())? else {
            return Err(Fail::new("no line of the shell"));
        };
        equal_at(
            &rt,
            text,
            print_step(alloc, &Step::Shell(step))?.as_str(),
            *text,
        );
    }
    let body = Bytes::new(vec![in alloc; 2, 0, 0, 0, 97, 0, 0, 0]?);
    let (id, opcode) = (5, 0);
    let step = Step::Peer(2, PeerStep::Message { id, opcode, body });
    let line = print_step(alloc, &step.copy(alloc)?)?;
    prints(&rt, line, "bytes 2 05000000000010000200000061000000");

    let tokens = TokenList::from_slice(alloc, &[7, 8])?;
    let step = Step::Peer(1, PeerStep::Tokens(tokens));
    prints(&rt, print_step(alloc, &step)?, "tokens 1 7 8");
    let (moment, author) = (5, 3);
    let line = print_stamped(alloc, Stamp { moment, author }, &step)?;
    prints(&rt, line, "5 3 tokens 1 7 8");
    Ok(())
}

#[test]
fn prints_transcript_lines(rt: HostRuntime) -> Result<(), Fail> {
    let alloc = rt.alloc();
    prints(
        &rt,
        print_ended(alloc, 12, 2, EndCause::Full)?,
        "12 ended 2 full",
    );
    prints(&rt, print_took(alloc, 18, 2, 44)?, "18 took 2 44");
    prints(
        &rt,
        print_placed(alloc, 14, 2, 8, 800, -1)?,
        "14 placed 2 8 800 -1",
    );
    prints(&rt, print_pass(alloc, 6, 7, 31, 1)?, "6 pass 7 31 1");
    let mods = Mods {
        depressed: 1,
        latched: 4,
        locked: 2,
        group: 3,
    };
    prints(&rt, print_vmods(alloc, 8, mods)?, "8 vmods 1 4 2 3");
    let line = print_out(alloc, 9, 2, &[255], &[(0, 9), (16, 4294967295)])?;
    prints(&rt, line, "9 out 2 ff 0:9 16:4294967295");
    let event = Said::Preedit {
        text: Text::of(alloc, "é")?,
        begin: -1,
        end: 2,
    };
    let line = print_told(alloc, 11, &Told { to: 3, event })?;
    prints(&rt, line, "11 3 preedit_string c3a9 -1 2");
    Ok(())
}
