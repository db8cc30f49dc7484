//! Streams that are like what is told, and streams that aren't.
use crate::equal::equal;
use audit_fields::{Comparison, HearEnd};
use std::alloc::Global;

// The worked group: a string "a" and a done 1 of the text input 7.
const TOLD: &[u8] = b"\x07\0\0\0\x03\0\x10\0\x02\0\0\0a\0\0\0\x07\0\0\0\x05\0\x0c\0\x01\0\0\0";

// What is told, the pieces that are sent, and what the last of them comes to.
type Row = (
    &'static [u8],
    &'static [u8],
    &'static [u8],
    Result<u64, HearEnd>,
);

#[rattlefmt::skip]
static ROWS: [Row; 9] = [
    // All of it, whole and cut in mid-message.
    (TOLD, b"", TOLD, Ok(1)),
    (TOLD, b"\x07\0\0\0\x03\0\x10\0\x02\0\0\0a", b"\0\0\0\x07\0\0\0\x05\0\x0c\0\x01\0\0\0", Ok(1)),
    // Other padding.
    (TOLD, b"", b"\x07\0\0\0\x03\0\x10\0\x02\0\0\0a\0\x09\x09", Ok(0)),
    // A done with another serial, a done that comes too early, another object.
    (TOLD, b"\x07\0\0\0\x03\0\x10\0\x02\0\0\0a\0\0\0", b"\x07\0\0\0\x05\0\x0c\0\x02\0\0\0", Err(HearEnd::Unlike)),
    (TOLD, b"", b"\x07\0\0\0\x05\0\x0c\0\x01\0\0\0", Err(HearEnd::Unlike)),
    (TOLD, b"", b"\x08\0\0\0\x03\0\x10\0\x02\0\0\0a\0\0\0", Err(HearEnd::Unlike)),
    // A null string is no empty one.
    (b"\x07\0\0\0\x03\0\x10\0\x01\0\0\0\0\0\0\0", b"", b"\x07\0\0\0\x03\0\x0c\0\0\0\0\0", Err(HearEnd::Unlike)),
    // Other messages say nothing, but for a bad size.
    (TOLD, b"\x07\0\0\0\0\0\x0c\0\x06\0\0\0", TOLD, Ok(1)),
    (TOLD, b"", b"\x01\0\0\0\0\0\x07\0", Err(HearEnd::Unlike)),
];

// What the last piece comes to.
fn heard(alloc: Global, told: &[u8], first: &[u8], last: &[u8]) -> Result<u64, HearEnd> {
    let mut streams = Comparison::new(alloc);
    if streams.tell(told).is_err() {
        return Err(HearEnd::NoMemory);
    }
    streams.hear(first)?;
    streams.hear(last)
}

#[test]
fn pieces_are_heard_or_unlike(rt: HostRuntime) {
    for (told, first, last, want) in &ROWS {
        equal(&rt, heard(rt.alloc(), told, first, last), *want);
    }
}

// A sync is answered with its callback's done and the end of its id: nothing that a field says.
const SYNC: &[u8] = b"\x03\0\0\0\0\0\x0c\0\x01\0\0\0\x01\0\0\0\x01\0\x0c\0\x03\0\0\0";

// The most bytes that were kept while an application synced so often.
fn most_kept(streams: &mut Comparison, syncs: u32) -> Result<usize, HearEnd> {
    let mut most = 0;
    for _ in 0..syncs {
        if streams.tell(SYNC).is_err() {
            return Err(HearEnd::NoMemory);
        }
        most = most.max(streams.kept());
    }
    Ok(most)
}

// What is kept by one that syncs: before it is told anything else, while the worked group isn't
// sent, and once it was.
fn kept_by_syncs(alloc: Global) -> Result<[usize; 3], HearEnd> {
    let mut streams = Comparison::new(alloc);
    let first = most_kept(&mut streams, 5000)?;
    if streams.tell(TOLD).is_err() {
        return Err(HearEnd::NoMemory);
    }
    let group = streams.kept();
    most_kept(&mut streams, 10)?;
    streams.hear(TOLD)?;
    let last = most_kept(&mut streams, 5000)?;
    Ok([first, group, last])
}

#[test]
fn syncs_leave_as_they_are_told(rt: HostRuntime) {
    equal(&rt, kept_by_syncs(rt.alloc()), Ok([0, TOLD.len(), 0]));
}
