//! What no clause tells: frames as they stand in a file, and that sources and sinks of the kit's own kind serve.
ghost use Rattle.std.specs.Prelude.{◌<◌};

use crate::equal::{equal, equal_at};
use desc_frame::{FrameReader, FrameWriter, Got};
use std::alloc::{AllocError, Global};
use std::test::Fail;
use wio_core::{Failed, MemSink, MemSource};

/// A frame of 12 bytes with no token.
const FRAME: [u8; 16] = [12, 0, 0, 0, 1, 0, 0, 0, 1, 0, 12, 0, 2, 0, 0, 0];

/// A frame of 2 bytes with 2 tokens.
const WITH_TOKENS: [u8; 14] = [2, 0, 2, 0, 7, 0, 0, 0, 4, 3, 2, 1, 97, 98];

/// The first two answers over these bytes, given in pieces of at most `chunk`, where the numbered reads fail.
fn answers(alloc: Global, all: &[u8], chunk: usize, fail: &[u64]) -> Result<(Got, Got), AllocError>
    requires { 0 < chunk }
{
    let mut source = MemSource::new(all.to_vec(alloc)?, chunk, fail.to_vec(alloc)?);
    let mut reader = FrameReader::new();
    let mut bytes = [0; 4096];
    let mut tokens = [0; 256];
    let first = reader.next(&mut source, &mut bytes, &mut tokens);
    if let Got::ReadFault = first {
        return Ok((first, first));
    }
    Ok((first, reader.next(&mut source, &mut bytes, &mut tokens)))
}

/// What the reader answers to the first bytes of the frame, twice.
fn cut_answers(count: usize) -> (Got, Got) {
    match count {
        0 => (Got::End, Got::End),
        16 => (Got::Bytes(12, 0), Got::End),
        _ => (Got::Torn(count), Got::Torn(count)),
    }
}

/// Bytes that are no frame, and what the reader answers, twice.
const NO_FRAMES: [(&[u8], Got); 4] = [
    (&[12, 0, 0, 0, 1, 0], Got::Torn(6)),
    (&[0, 0, 0, 0], Got::BadFrame(0, 0)),
    (&[1, 16, 0, 0], Got::BadFrame(4097, 0)),
    (&[0, 16, 1, 1], Got::BadFrame(4096, 257)),
];

#[test]
fn frames_are_whole_or_torn_where_they_end(rt: HostRuntime) -> Result<(), Fail> {
    for chunk in [1, 2, 3, 5] {
        for count in 0..17 {
            let got = answers(rt.alloc(), &FRAME[..count], chunk, &[])?;
            equal_at(&rt, &count, got, cut_answers(count));
        }
        for (bytes, want) in &NO_FRAMES {
            let got = answers(rt.alloc(), bytes, chunk, &[])?;
            equal_at(&rt, bytes, got, (*want, *want));
        }
    }
    for call in 1..4 {
        let got = answers(rt.alloc(), &FRAME, 8, &[call])?;
        equal_at(&rt, &call, got, (Got::ReadFault, Got::ReadFault));
    }
    Ok(())
}

// A group with two tokens is written and read, and one that has no room is not written.
#[test]
fn a_frame_is_written_and_read(rt: HostRuntime) -> Result<(), Fail> {
    let mut sink = MemSink::new(rt.alloc(), 20, Vec::new(rt.alloc()))?;
    let put = FrameWriter::put(&mut sink, b"ab", &[7, 0x0102_0304]);
    equal(&rt, put, Ok(()));
    equal(&rt, sink.held(), WITH_TOKENS.as_slice());
    let put = FrameWriter::put(&mut sink, b"ab", &[7]);
    equal(&rt, put, Err(Failed));
    equal(&rt, sink.held(), WITH_TOKENS.as_slice());

    let mut source = MemSource::new(WITH_TOKENS.to_vec(rt.alloc())?, 3, Vec::new(rt.alloc()));
    let mut bytes = [0; 4096];
    let mut tokens = [0; 256];
    let got = FrameReader::new().next(&mut source, &mut bytes, &mut tokens);
    equal(&rt, got, Got::Bytes(2, 2));
    equal(&rt, &bytes[..2], &b"ab"[..]);
    equal(&rt, &tokens[..2], &[7, 0x0102_0304][..]);
    Ok(())
}
