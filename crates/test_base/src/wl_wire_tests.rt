//! Texts, arguments and messages in bytes.
use crate::equal::{equal, equal_at};
use std::process::Abort;
use std::test::Fail;
use wl_wire::{ArgReader, ArgWriter, Assembler, Bytes, Fed, Malformed, Text};

static TEXTS: [(&[u8], bool); 5] = [
    (b"", true),
    (b"a", true),
    (b"\xc3\xa9", true),
    (b"a\0", false),
    (b"\xc3", false),
];

// The bytes are a text, which is copied, or come back.
#[test]
fn a_text_is_utf8_without_a_zero_byte(rt: HostRuntime) -> Result<(), Fail> {
    for (bytes, is_text) in &TEXTS {
        match Text::from_bytes(Vec::from_slice(rt.alloc(), bytes)?) {
            Ok(text) => {
                equal_at(&rt, bytes, true, *is_text);
                equal(&rt, text.as_bytes(), *bytes);
                equal(&rt, text.is_empty(), bytes.is_empty());
                equal(&rt, text.copy(rt.alloc())?.as_str(), text.as_str());
            }
            Err(back) => {
                equal_at(&rt, bytes, false, *is_text);
                let bytes_again = Bytes::new(back);
                let copy = bytes_again.copy(rt.alloc())?;
                equal(&rt, copy.as_slice(), *bytes);
            }
        }
    }
    equal(
        &rt,
        Text::of(rt.alloc(), "ab")?.into_bytes().as_slice(),
        b"ab".as_slice(),
    );
    Ok(())
}

// The piece completes a message with this id, this opcode and this many of the piece's bytes.
fn completes(rt: &impl Abort, assembler: &mut Assembler, piece: &[u8], want: (u32, u16, usize)) {
    match assembler.feed(piece) {
        Fed::Whole(used) => {
            let raw = assembler.message();
            equal(rt, (raw.id, raw.opcode, used), want);
        }
        Fed::Need => assert!(rt; false, "no message"),
        Fed::BadSize(size) => assert!(rt; false, "bad size {size}"),
    }
}

const STREAM: [u8; 28] = [
    1, 0, 0, 0, 1, 0, 12, 0, 2, 0, 0, 0, 7, 0, 0, 0, 1, 0, 8, 0, 7, 0, 0, 0, 7, 0, 8, 0,
];

// The first message comes byte by byte, and two at once.
#[test]
fn messages_come_whole_however_they_are_cut(rt: HostRuntime) -> Result<(), Fail> {
    let mut assembler = Assembler::new(rt.alloc())?;
    for byte in &STREAM[..11] {
        equal(&rt, assembler.feed(&[*byte]), Fed::Need);
    }
    completes(&rt, &mut assembler, &STREAM[11..], (1, 1, 1));
    completes(&rt, &mut assembler, &STREAM[12..], (7, 1, 8));
    completes(&rt, &mut assembler, &STREAM[20..], (7, 7, 8));
    equal(&rt, assembler.feed(&[]), Fed::Need);
    Ok(())
}

static BAD_SIZES: [(u8, u8, usize); 3] = [(4, 0, 4), (10, 0, 10), (4, 16, 4100)];

// Every later piece is answered by a bad size too.
#[test]
fn a_bad_size_stays(rt: HostRuntime) -> Result<(), Fail> {
    for (low, high, size) in &BAD_SIZES {
        let mut assembler = Assembler::new(rt.alloc())?;
        let header = [9, 0, 0, 0, 0, 0, *low, *high];
        equal(&rt, assembler.feed(&header), Fed::BadSize(*size));
        match assembler.feed(b"piece") {
            Fed::BadSize(again) => {
                equal(&rt, again, *size);
                equal(&rt, assembler.head().as_slice(), header.as_slice());
            }
            _ => assert!(rt; false, "the bad size was forgotten"),
        }
    }
    Ok(())
}

/// What a string is read as, and how many bytes are left behind it.
static STRINGS: [(&[u8], Result<Option<&str>, Malformed>, usize); 8] = [
    (b"\x02\0\0\0a\0\0\xff", Ok(Some("a")), 0),
    (b"\x01\0\0\0\0\x01\x02\x03", Ok(Some("")), 0),
    (b"\0\0\0\0\x01", Ok(None), 1),
    (b"\x02\0\0\0ab\0\0", Err(Malformed), 8),
    (b"\x03\0\0\0a\0\0\0", Err(Malformed), 8),
    (b"\x02\0\0\0\xff\0\0\0", Err(Malformed), 8),
    (b"\x01\0\0\0", Err(Malformed), 4),
    (b"\x01\0\0", Err(Malformed), 3),
];

#[test]
fn a_string_is_read_as_the_grammar_has_it(rt: HostRuntime) {
    for (body, read, left) in &STRINGS {
        let mut args = ArgReader::new(body);
        equal_at(&rt, body, args.string(), *read);
        equal(&rt, args.rest.len(), *left);
        equal(&rt, args.finish().is_ok(), *left == 0);
    }
}

const WRITTEN: &[u8; 20] = b"\x01\x02\0\0\xfe\xff\xff\xff\x02\0\0\0a\0\0\0\x09\x09\x09\x09";

#[test]
fn arguments_are_written_with_zero_padding_and_read(rt: HostRuntime) {
    let mut out = [9; 20];
    let mut args = ArgWriter::new(&mut out);
    args.uint(513);
    args.int(-2);
    args.string("a");
    equal(&rt, args.finish(), 16);
    equal(&rt, out, *WRITTEN);

    let mut args = ArgReader::new(WRITTEN);
    equal(&rt, args.uint(), Ok(513));
    equal(&rt, args.int(), Ok(-2));
}
