//! What no clause tells: that memory is found, and what std's readers and writers move.
use crate::equal::{equal, equal_at};
use std::alloc::AllocError;
use std::collections::VecDeque;
use std::io::{self, Cursor, Write};
use std::test::Fail;
use wio_core::{Failed, MemSink, MemSource, Sink, Source, StdSink, StdSource, write_all};

/// A writer that takes so many bytes, and then none.
#[derive(Drop)]
struct Narrow {
    room: usize,
}

impl Write for Narrow {
    fn write(&mut self, piece: &[u8]) -> io::Result<usize> {
        let n = self.room.min(piece.len());
        self.room -= n;
        Ok(n)
    }

    fn flush(&mut self) -> io::Result<()> {
        Ok(())
    }
}

/// Reads to the end over failed reads, and says how many reads failed.
fn drain<S: Source>(source: &mut S, gained: &mut Vec<u8>) -> Result<u64, AllocError> {
    let mut buf = [0; 4];
    for _ in 0..20 {
        if let Ok(n) = source.read(&mut buf) {
            if n == 0 {
                break;
            }
            gained.extend_from_slice(&buf[..n])?;
        }
    }
    Ok(source.faults())
}

#[test]
fn sources_give_their_bytes_in_any_pieces(rt: HostRuntime) -> Result<(), Fail> {
    let alloc = rt.alloc();
    for chunk in [1, 2, 3, 5] {
        let bytes = b"input method".to_vec(alloc)?;
        let mut source = MemSource::new(bytes, chunk, [2, 4].to_vec(alloc)?);
        let mut gained = Vec::new(alloc);
        equal_at(&rt, &chunk, drain(&mut source, &mut gained)?, 2);
        equal_at(&rt, &chunk, gained.as_slice(), b"input method".as_slice());
    }
    let mut source = StdSource::new(Cursor::new(b"surface".as_slice()));
    let mut gained = Vec::new(alloc);
    equal(&rt, drain(&mut source, &mut gained)?, 0);
    equal(&rt, gained.as_slice(), b"surface".as_slice());
    Ok(())
}

static PIECES: [(&[u8], Result<(), Failed>); 5] = [
    (b"abc", Ok(())),
    (b"abc", Err(Failed)),
    (b"abc", Err(Failed)),
    (b"de", Ok(())),
    (b"", Ok(())),
];

// A sink in memory holds what fits, and one of std writes what is read again, or fails where nothing is taken.
#[test]
fn sinks_take_whole_pieces_or_fail(rt: HostRuntime) -> Result<(), Fail> {
    let alloc = rt.alloc();
    let mut sink = MemSink::new(alloc, 5, [2].to_vec(alloc)?)?;
    for (piece, want) in &PIECES {
        equal(&rt, write_all(&mut sink, piece), *want);
    }
    equal(&rt, sink.held(), b"abcde".as_slice());
    equal(&rt, sink.faults(), 2);

    let mut written = VecDeque::new(alloc);
    let whole = write_all(&mut StdSink::new(&mut written), b"surface");
    equal(&rt, whole, Ok(()));
    let mut gained = Vec::new(alloc);
    equal(&rt, drain(&mut StdSource::new(written), &mut gained)?, 0);
    equal(&rt, gained.as_slice(), b"surface".as_slice());

    let mut narrow = StdSink::new(Narrow { room: 5 });
    equal(&rt, write_all(&mut narrow, b"abc"), Ok(()));
    equal(&rt, write_all(&mut narrow, b"def"), Err(Failed));
    equal(&rt, narrow.faults(), 1);
    Ok(())
}
