//! The answers of a reader of lines over sources in memory.
ghost use Rattle.std.specs.Prelude.{◌≡◌, ◌≢◌, Some};

use crate::equal::equal;
use std::alloc::{AllocError, Global};
use std::test::Fail;
use wio_core::{LineReader, LineStop, MemSource, NextLine};

/// Writes each line and a bar behind it, up to the first answer that is none, and then that answer.
fn tell(
    reader: &mut LineReader,
    source: &mut MemSource,
    told: &mut Vec<u8>,
) -> Result<(), AllocError>
    requires { reader.old.settled ≢ Some LineStop.ReadFault }
{
    'lines: for _ in 0..9 {
        let why = match reader.next(source) {
            NextLine::Line(line) => {
                told.extend_from_slice(line)?;
                told.push(b'|')?;
                continue;
            }
            NextLine::End => b"end".as_slice(),
            NextLine::Long => b"long".as_slice(),
            NextLine::Limit => b"limit".as_slice(),
            NextLine::ReadFault => b"fault".as_slice(),
        };
        return told.extend_from_slice(why);
    }
    Ok(())
}

/// What a reader tells of these bytes in reads of 16 bytes, of which one may fail.
fn told_of(alloc: Global, bytes: Vec<u8>, fails: u64, limit: Option<u64>) -> Result<Vec<u8>, Fail> {
    let mut source = MemSource::new(bytes, 16, [fails].to_vec(alloc)?);
    let mut reader = match LineReader::new(alloc, limit) {
        Ok(reader) => reader,
        Err(_) => return Err(AllocError.into()),
    };
    let mut told = Vec::new(alloc);
    tell(&mut reader, &mut source, &mut told)?;
    Ok(told)
}

const TEXT: &[u8] = b"focus 2\n\nscreen 1000 800\nkey 5 30 1";

/// Which read fails, the limit, and what is told of the text.
static TOLD: [(u64, Option<u64>, &[u8]); 3] = [
    (0, None, b"focus 2||screen 1000 800|key 5 30 1|end"),
    (0, Some(30), b"focus 2||screen 1000 800|limit"),
    (3, None, b"focus 2||screen 1000 800|fault"),
];

// A line has at most 8,400 bytes.
#[test]
fn lines_come_whole_from_pieces(rt: HostRuntime) -> Result<(), Fail> {
    for (fails, limit, want) in &TOLD {
        let told = told_of(rt.alloc(), TEXT.to_vec(rt.alloc())?, *fails, *limit)?;
        equal(&rt, told.as_slice(), *want);
    }
    for (length, want) in [(8400, 8404), (8401, 4)] {
        let mut bytes = vec![in rt.alloc(); b'a'; length]?;
        bytes.push(b'\n')?;
        let told = told_of(rt.alloc(), bytes, 0, None)?;
        equal(&rt, told.len(), want);
    }
    Ok(())
}
