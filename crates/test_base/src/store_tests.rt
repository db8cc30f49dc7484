//! What no clause tells: that memory is found, and that stores and batches are used as their callers use them.
use crate::equal::equal;
use edit_batch::{Edits, Pending};
use out_store::Store;
use std::test::Fail;
use wl_wire::Text;

#[test]
fn a_group_goes_in_whole_or_is_left_out(rt: HostRuntime) -> Result<(), Fail> {
    let mut store = Store::new(rt.alloc(), 4)?;
    let mut buf = [0; 8];
    assert!(rt; store.put_group(b"abc", &[]));
    assert!(rt; !store.put_group(b"de", &[]));
    equal(&rt, store.take(&mut buf, &mut [0; 256]), (3, 0));
    equal(&rt, buf, *b"abc\0\0\0\0\0");
    assert!(rt; store.put_group(b"de", &[]));
    assert!(rt; store.put_group(b"fg", &[]));
    let numbers = (store.len(), store.capacity(), store.is_empty());
    equal(&rt, numbers, (4, 4, false));
    Ok(())
}

/// The bytes and the tokens of each take in turn.
const TAKEN: [(usize, usize, [u32; 2]); 6] = [
    (17, 2, [50, 51]),
    (17, 1, [52, 0]),
    (17, 0, [0, 0]),
    (17, 0, [0, 0]),
    (17, 1, [53, 0]),
    (3, 0, [0, 0]),
];

#[test]
fn a_token_comes_out_with_the_byte_at_which_its_message_begins(
    rt: HostRuntime,
) -> Result<(), Fail> {
    let mut store = Store::new(rt.alloc(), 100)?;
    assert!(rt; store.put_group(&[7; 48], &[(0, 50), (16, 51), (32, 52)]));
    assert!(rt; store.put_group(&[8; 40], &[(20, 53)]));
    for (bytes, count, want) in &TAKEN {
        let mut tokens = [0; 256];
        equal(&rt, store.take(&mut [0; 17], &mut tokens), (*bytes, *count));
        equal(&rt, [tokens[0], tokens[1]], *want);
    }
    assert!(rt; store.is_empty());
    Ok(())
}

const INITIAL: Edits<'static> = Edits {
    before: 0,
    after: 0,
    string: "",
    preedit: "",
    begin: 0,
    end: 0,
};

const LAST: Edits<'static> = Edits {
    before: 2,
    after: 0,
    string: "é",
    preedit: "b",
    begin: -1,
    end: -1,
};

const STRING_ALONE: Edits<'static> = Edits {
    before: 0,
    after: 0,
    string: "c",
    preedit: "",
    begin: 0,
    end: 0,
};

// Each kind is asked for twice.
#[test]
fn a_batch_has_the_last_of_each_kind_until_a_reset(rt: HostRuntime) -> Result<(), Fail> {
    let alloc = rt.alloc();
    let mut pending = Pending::new(alloc)?;
    equal(&rt, pending.edits(), INITIAL);
    pending.delete(5, 1);
    pending.string(&Text::of(alloc, "longer than what comes next")?);
    pending.preedit(&Text::of(alloc, "né")?, 0, 3);
    pending.delete(2, 0);
    pending.preedit(&Text::of(alloc, "b")?, -1, -1);
    pending.string(&Text::of(alloc, "é")?);
    equal(&rt, pending.edits(), LAST);
    pending.reset();
    equal(&rt, pending.edits(), INITIAL);
    pending.string(&Text::of(alloc, "c")?);
    equal(&rt, pending.edits(), STRING_ALONE);
    Ok(())
}
