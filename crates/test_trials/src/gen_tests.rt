//! Generated sessions and drawn scripts, against what a program worked out which shares nothing with this one; and where
//! scripts end.
use crate::equal::{equal, equal_at};
use program_gen::{Gen, STEPS, WriteEnd, count, write_session};
use program_run::{Ending, read_script};
use program_threads::drawn_script;
use serve_record::MemSink;
use std::alloc::Global;
use std::process::Abort;
use std::test::Fail;

// The second write fails in the second run: what was written is a front then.
#[test]
fn a_generated_session_is_written(rt: HostRuntime) -> Result<(), Fail> {
    let alloc = rt.alloc();
    equal(&rt, count(alloc, 1)?.queued, 33204);
    let mut whole = MemSink::new(alloc, 4_000_000, Vec::new(alloc))?;
    equal(&rt, write_session(alloc, 7, &mut whole), Ok(()));
    let text = whole.held();
    let front = b"session 1 1000000 65536\njoin app\nbytes 1 0100000001000c0002000000\n";
    assert!(rt; text.starts_with(front));
    assert!(rt; text.ends_with(b"\nend\n"));
    equal(
        &rt,
        text.iter().filter(|byte| **byte == b'\n').count(),
        20_035,
    );
    let mut cut = MemSink::new(alloc, 4_000_000, Vec::from_slice(alloc, &[2])?)?;
    let end = write_session(alloc, 7, &mut cut);
    equal(&rt, end, Err(WriteEnd::WriteFault));
    assert!(rt; cut.held().len() >= 16_384);
    assert!(rt; text.starts_with(cut.held()));
    Ok(())
}

// The next step prints so, where the method has so many dones.
fn next_is(
    rt: &impl Abort,
    alloc: Global,
    session: &mut Gen,
    dones: u32,
    wanted: &str,
) -> Result<(), Fail> {
    assert!(rt; session.left() > 0);
    let step = session.next_step(alloc, dones)?;
    let told = format!(in alloc; "{step:?}")?;
    equal(rt, told.as_str(), wanted);
    Ok(())
}

/// The first steps of the number 7, and those that are drawn first: the first words are 2442223337, 414063806 and
/// 2743600285.
const MADE: [&str; 2] = [
    "Join(App)",
    "Peer(1, Message { id: 1, opcode: 1, body: Bytes { bytes: [2, 0, 0, 0] } })",
];

const DRAWN: [&str; 10] = [
    "Peer(5, Message { id: 5, opcode: 0, body: Bytes { bytes: [2, 0, 0, 0, 112, 0, 0, 0] } })",
    "Peer(5, Message { id: 5, opcode: 3, body: Bytes { bytes: [0, 0, 0, 0] } })",
    "Peer(5, Message { id: 5, opcode: 3, body: Bytes { bytes: [1, 0, 0, 0] } })",
    "Peer(3, Message { id: 7, opcode: 7, body: Bytes { bytes: [] } })",
    "Peer(5, Message { id: 5, opcode: 2, body: Bytes { bytes: [2, 0, 0, 0, 0, 0, 0, 0] } })",
    "Peer(5, Message { id: 5, opcode: 3, body: Bytes { bytes: [0, 0, 0, 0] } })",
    "Peer(3, Message { id: 7, opcode: 7, body: Bytes { bytes: [] } })",
    "Shell(Focus { peer: 2, id: 6 })",
    "Peer(4, Message { id: 7, opcode: 1, body: Bytes { bytes: [] } })",
    "Peer(2, Message { id: 7, opcode: 4, body: Bytes { bytes: [0, 0, 0, 0] } })",
];

#[test]
fn makes_the_first_steps_of_a_number(rt: HostRuntime) -> Result<(), Fail> {
    let mut session = Gen::new(7);
    equal(&rt, session.left(), STEPS);
    for &row in &MADE {
        next_is(&rt, rt.alloc(), &mut session, 0, row)?;
    }
    for _ in 2..33 {
        assert!(rt; session.left() > 0);
        let _ = session.next_step(rt.alloc(), 0)?;
    }
    equal(&rt, session.left(), 20_000);
    for &row in &DRAWN {
        next_is(&rt, rt.alloc(), &mut session, 1, row)?;
    }
    Ok(())
}

/// A number, the size of its script, and the Fowler-Noll-Vo hash (FNV-1a, 64 bits) of that.
const NUMBERS: [(u64, usize, u64); 3] = [
    (7, 3638, 12008131365889890782),
    (0, 3675, 3790096638518003813),
    (18446744073709551615, 3642, 14548176754894278168),
];

fn hash_of(text: &[u8]) -> u64 {
    let mut hash: u64 = 0xcbf2_9ce4_8422_2325;
    for byte in text {
        hash = (hash ^ u64::from(*byte)).wrapping_mul(0x0000_0100_0000_01b3);
    }
    hash
}

#[test]
fn scripts_of_numbers_are_those_worked_out(rt: HostRuntime) -> Result<(), Fail> {
    let alloc = rt.alloc();
    for &(number, size, hash) in &NUMBERS {
        let text = drawn_script(alloc, number)?;
        equal_at(
            &rt,
            &number,
            (text.len(), hash_of(text.as_bytes())),
            (size, hash),
        );
        let script = read_script(alloc, text.as_bytes())?;
        equal_at(&rt, &number, (script.fields, script.first_line), (4, 29));
        equal_at(&rt, &number, script.actions.as_slice().len(), 400);
        equal_at(&rt, &number, script.ending, Ending::End);
    }
    Ok(())
}

/// A script, how many fields and actions it has, and where it ends.
static SCRIPTS: [(&str, u32, usize, Ending); 19] = [
    ("", 0, 0, Ending::Unended(1)),
    ("trial 2\n", 0, 0, Ending::BadLine(1)),
    ("trial 1\nfields 1\nuse 1\nend\nrest", 1, 1, Ending::End),
    (
        "trial 1\nsingle 40 27\nsingle 18 65\ncompose c3a9 40 18\nfields 2\nuse 1\npress 40\nshow 2",
        2,
        3,
        Ending::Unended(9),
    ),
    (
        "trial 1\nsingle 40 27\nsingle 40 65\n",
        0,
        0,
        Ending::BadLine(3),
    ),
    (
        "trial 1\ncompose 61 1 2 3\ncompose 62 1 2\n",
        0,
        0,
        Ending::BadLine(3),
    ),
    ("trial 1\ncompose 61 1\n", 0, 0, Ending::BadLine(2)),
    ("trial 1\nfields 17\n", 0, 0, Ending::BadLine(2)),
    (
        "trial 1\nfields 2\nleave\ninsert 2 -\nleft 1\nright 1\nrub 1\npause 1\nresume 1\nbatch 0 0 78 - -1 0\nuse 3\nend\n",
        2,
        8,
        Ending::BadLine(11),
    ),
    // A dictionary: words of 1 and of 16 keys, equal ones, and several keys that erase.
    (
        "trial 1\nword 7a 18\nword 7a 18\nword 61 1 2 3 4 5 6 7 8 9 10 11 12 13 14 15 16\nchoose 20 1\nchoose 21 9\nerase 22\nerase 23\nfields 1\nend\n",
        1,
        0,
        Ending::End,
    ),
    (
        "trial 1\nword 61 1 2 3 4 5 6 7 8 9 10 11 12 13 14 15 16 17\n",
        0,
        0,
        Ending::BadLine(2),
    ),
    ("trial 1\nword 61\n", 0, 0, Ending::BadLine(2)),
    ("trial 1\nword - 1\n", 0, 0, Ending::BadLine(2)),
    ("trial 1\nchoose 2 10\n", 0, 0, Ending::BadLine(2)),
    ("trial 1\nchoose 2 0\n", 0, 0, Ending::BadLine(2)),
    // A control key has one meaning and stands in no word, and a number has one key.
    ("trial 1\nchoose 2 1\nerase 2\n", 0, 0, Ending::BadLine(3)),
    (
        "trial 1\nchoose 2 1\nchoose 3 1\n",
        0,
        0,
        Ending::BadLine(3),
    ),
    ("trial 1\nerase 2\nword 61 1 2\n", 0, 0, Ending::BadLine(3)),
    (
        "trial 1\nword 61 1 2\nchoose 2 1\n",
        0,
        0,
        Ending::BadLine(3),
    ),
];

#[test]
fn scripts_end_where_they_do(rt: HostRuntime) -> Result<(), Fail> {
    for (text, fields, actions, ending) in &SCRIPTS {
        let script = read_script(rt.alloc(), text.as_bytes())?;
        equal_at(&rt, text, script.ending, *ending);
        equal_at(&rt, text, script.fields, *fields);
        equal_at(&rt, text, script.actions.as_slice().len(), *actions);
    }
    Ok(())
}
