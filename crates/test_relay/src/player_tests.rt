//! What no clause tells: that memory is found, and that players and what reads their lines answer as their callers use
//! them.
use crate::equal::equal;
use broker_steps::{FORM_1_WEIGHT, Limits, Stamp, TokenList};
use program_run::{Status, run_plain};
use relay_model::Role;
use seat_set::{PlayEnd, Player, SeatLine, SeatSet};
use session_text::SessionLine;
use std::test::Fail;
use wl_wire::{Bytes, MemSink, MemSource, Source};

const GIVEN: Stamp = Stamp {
    moment: 7,
    author: 3,
};

const FOUR: Limits = Limits {
    entries: 4,
    store: 128,
    weight: FORM_1_WEIGHT,
};

// An application joins, asks for its registry in two pieces, sends two tokens, and goes.
#[test]
fn lines_are_played(rt: HostRuntime) -> Result<(), Fail> {
    let alloc = rt.alloc();
    let mut player = Player::new(alloc, FOUR)?;
    let join = SessionLine::Join(Role::App);
    assert!(rt; player.line(&join, GIVEN).is_ok());
    let front = SessionLine::Bytes(1, Bytes::from_slice(alloc, &[1, 0, 0, 0, 1, 0])?);
    assert!(rt; player.line(&front, GIVEN).is_ok());
    equal(&rt, player.entries(), 1);
    let rest = SessionLine::Bytes(1, Bytes::from_slice(alloc, &[12, 0, 2, 0, 0, 0])?);
    assert!(rt; player.line(&rest, GIVEN).is_ok());
    equal(&rt, player.entries(), 2);
    let tokens = SessionLine::Tokens(1, TokenList::from_slice(alloc, &[7, 8])?);
    assert!(rt; player.line(&tokens, GIVEN).is_ok());
    let gone = player.line_watched(&SessionLine::Gone(1), GIVEN, &mut ());
    equal(&rt, gone, Ok(()));
    equal(&rt, (player.journal().len(), player.stamps().len()), (4, 4));
    equal(&rt, player.stamps().entry(2), Some(&GIVEN));
    Ok(())
}

const ONE: Limits = Limits {
    entries: 1,
    store: 64,
    weight: FORM_1_WEIGHT,
};

// The second join is one entry too many, and nothing is played after it.
#[test]
fn an_error_of_a_player_stays(rt: HostRuntime) -> Result<(), Fail> {
    let mut player = Player::new(rt.alloc(), ONE)?;
    let (join, gone) = (SessionLine::Join(Role::App), SessionLine::Gone(1));
    assert!(rt; player.line(&join, GIVEN).is_ok());
    let full = player.line(&join, GIVEN);
    assert!(rt; matches!(&full, Err(PlayEnd::JournalFull(_, _))));
    assert!(rt; player.line_watched(&gone, GIVEN, &mut ()).is_err());
    let full = player.line(&gone, GIVEN);
    assert!(rt; matches!(&full, Err(PlayEnd::JournalFull(_, _))));
    equal(&rt, player.entries(), 1);
    Ok(())
}

const HUNDRED: Limits = Limits {
    entries: 100,
    store: 65536,
    weight: FORM_1_WEIGHT,
};

// The peers of both seats join, that of the second goes, and then the other.
#[test]
fn each_line_stands_behind_its_seats_number(rt: HostRuntime) -> Result<(), Fail> {
    let mut set = SeatSet::new(rt.alloc(), 2, HUNDRED)?;
    let text = set.line(&SeatLine::All(SessionLine::Join(Role::App)))?;
    equal(&rt, text.as_str(), "");
    let text = set.line(&SeatLine::One(2, SessionLine::Gone(1)))?;
    equal(&rt, text.as_str(), "2 2 ended 1 gone\n");
    let text = set.line(&SeatLine::All(SessionLine::Gone(1)))?;
    equal(&rt, text.as_str(), "1 2 ended 1 gone\n");
    equal(&rt, set.entries(1), 2);
    Ok(())
}

// The first output can't be written: it stands in a line that begins after 37 bytes, and 10,000 lines follow.
#[test]
fn a_failed_write_ends_the_reading(rt: HostRuntime) -> Result<(), Fail> {
    let alloc = rt.alloc();
    let acts = b"peer\nsurface 1\nfield 1\npeer\nmethod 4\nfocus 2\nenable 3\ncommit 3\n";
    let mut bytes = acts.to_vec(alloc)?;
    for _ in 0..10000 {
        bytes.extend_from_slice(b"peer\n")?;
    }
    let length = bytes.len();
    let mut input = MemSource::new(bytes, 65536, Vec::new(alloc));
    let mut output = MemSink::new(alloc, 1000, [1].to_vec(alloc)?)?;
    let mut words = Vec::new(alloc);
    words.push(String::from_str(alloc, "replay-acts")?)?;
    let status = run_plain(alloc, &words, &mut input, &mut output);
    equal(&rt, status, Status::WriteFault);
    let mut rest = vec![in alloc; 0; 65536]?;
    let left = input.read(&mut rest)?;
    assert!(rt; length <= left.saturating_add(16421));
    Ok(())
}
