//! What no clause tells: that memory is found, and that a group is gathered as its callers gather it.
use crate::equal::equal;
use audit_fields::Event;
use broker_core::{Gathering, Live};
use relay_model::Role;
use std::process::Abort;
use std::test::Fail;

const KEYMAP: Event<'static> = Event::Keymap {
    format: 1,
    token: 42,
    size: 5,
};

const COMMIT_STRING: Event<'static> = Event::CommitString { text: Some("hi") };

// As they are told to the objects 7 and 9.
const KEYMAP_BYTES: &[u8] = &[7, 0, 0, 0, 0, 0, 16, 0, 1, 0, 0, 0, 5, 0, 0, 0];

const COMMIT_STRING_BYTES: &[u8] = &[9, 0, 0, 0, 3, 0, 16, 0, 3, 0, 0, 0, 104, 105, 0, 0];

// These alone are gathered: the front, the end, and how many bytes; and the tokens.
fn holds(
    rt: &impl Abort,
    gathering: &Gathering,
    is_over: bool,
    (front, end, length): (&[u8], &[u8], usize),
    tokens: &[(usize, u32)],
) {
    let bytes = gathering.bytes();
    equal(rt, (gathering.is_over(), bytes.len()), (is_over, length));
    assert!(rt; bytes.starts_with(front) && bytes.ends_with(end));
    equal(rt, gathering.tokens(), tokens);
}

#[test]
fn a_keymap_and_a_string_are_gathered(rt: HostRuntime) -> Result<(), Fail> {
    let mut gathering = Gathering::new(rt.alloc(), 32)?;
    gathering.put(7, &KEYMAP, Some(42));
    gathering.put(9, &COMMIT_STRING, None);
    let both = (KEYMAP_BYTES, COMMIT_STRING_BYTES, 32);
    holds(&rt, &gathering, false, both, &[(0, 42)]);
    gathering.clear();
    holds(&rt, &gathering, false, (&[], &[], 0), &[]);
    gathering.put(9, &COMMIT_STRING, None);
    gathering.put(7, &KEYMAP, Some(42));
    let both = (COMMIT_STRING_BYTES, KEYMAP_BYTES, 32);
    holds(&rt, &gathering, false, both, &[(16, 42)]);
    Ok(())
}

#[test]
fn what_follows_one_that_was_left_out_is_left_out(rt: HostRuntime) -> Result<(), Fail> {
    let mut gathering = Gathering::new(rt.alloc(), 31)?;
    gathering.put(7, &KEYMAP, Some(42));
    gathering.put(9, &COMMIT_STRING, None);
    let keymap = (KEYMAP_BYTES, KEYMAP_BYTES, 16);
    holds(&rt, &gathering, true, keymap, &[(0, 42)]);
    gathering.put(9, &Event::Activate, None);
    holds(&rt, &gathering, true, keymap, &[(0, 42)]);
    gathering.clear();
    holds(&rt, &gathering, false, (&[], &[], 0), &[]);
    gathering.put(9, &COMMIT_STRING, None);
    let string = (COMMIT_STRING_BYTES, COMMIT_STRING_BYTES, 16);
    holds(&rt, &gathering, false, string, &[]);
    Ok(())
}

#[test]
fn no_more_than_256_tokens_wait(rt: HostRuntime) -> Result<(), Fail> {
    let live = Live::new(rt.alloc(), 64, 1, 1, Role::App)?;
    let waiting = live.waiting_with(rt.alloc(), &[7; 257])?;
    equal(&rt, waiting.len(), 256);
    let two = live.waiting_with(rt.alloc(), &[7, 8])?;
    equal(&rt, two.as_slice(), [7, 8].as_slice());
    Ok(())
}
