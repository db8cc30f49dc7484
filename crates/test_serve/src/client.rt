//! Clients of a server at Unix sockets, as lists of what they do.
use std::alloc::{AllocError, Global};
use std::fs::Files;
use std::io::{ErrorKind, Read, Write};
use std::net::{Net, Shutdown};
use std::os::unix::net::UnixStream;
use std::time::{Clock, Duration};
use std::{fs, io, thread};

/// What clients do, one thing after the other. Their links have numbers, from 0.
#[derive(Clone, Copy)]
pub(crate) enum Act {
    /// Over a link without a number at the path, these bytes and no more are sent, and all is read until the server hangs
    /// up.
    Talk(&'static str, &'static [u8]),
    /// The next link is opened at the path.
    Open(&'static str),
    Send(usize, &'static [u8]),
    /// Sends so many frames of 300 messages, each `wl_display.sync` for a new object 2, or as many as the server takes
    /// before it hangs up.
    Flood(usize, u32),
    /// Sends bytes of a frame that never gets whole, one a millisecond, until the server hangs up. That it doesn't is an
    /// error.
    Drip(usize),
    /// Nothing more is sent, or read.
    Shut(usize, Shutdown),
    /// Reads so many bytes.
    Read(usize, usize),
    /// Reads until the server hangs up.
    ReadEnd(usize),
    /// The file at the path is removed.
    Remove(&'static str),
}

/// How often a client tries to connect to a server that is coming up.
const TRIES: u64 = 1_000_000;

// Connects to a server that is there, or coming up.
fn connect<R: Net>(rt: &R, path: &str) -> io::Result<UnixStream> {
    for _ in 0..TRIES {
        if let Ok(stream) = UnixStream::connect(rt, path) {
            return Ok(stream);
        }
        thread::yield_now();
    }
    UnixStream::connect(rt, path)
}

fn flood(alloc: Global, stream: &mut UnixStream, count: u32) -> Result<(), AllocError> {
    let mut frame = Vec::new(alloc);
    frame.extend_from_slice(&[16, 14, 0, 0])?;
    for _ in 0..300 {
        frame.extend_from_slice(&[1, 0, 0, 0, 0, 0, 12, 0, 2, 0, 0, 0])?;
    }
    for _ in 0..count {
        if stream.write_all(frame.as_slice()).is_err() {
            break;
        }
    }
    Ok(())
}

// The header announces 4,095 bytes; 4,000 are sent at most.
fn drip<R: Clock>(rt: &R, stream: &mut UnixStream) -> io::Result<()> {
    if stream.write_all(&[255, 15, 0, 0]).is_err() {
        return Ok(());
    }
    for _ in 0..4_000 {
        thread::sleep(rt, Duration::from_millis(1));
        if stream.write_all(&[0]).is_err() {
            return Ok(());
        }
    }
    Err(io::Error::from(ErrorKind::TimedOut))
}

fn talk<R: Net>(rt: &R, alloc: Global, path: &str, bytes: &[u8]) -> io::Result<Vec<u8>> {
    let mut stream = connect(rt, path)?;
    stream.write_all(bytes)?;
    stream.shutdown(Shutdown::Write)?;
    let mut answer = Vec::new(alloc);
    stream.read_to_end(&mut answer)?;
    Ok(answer)
}

// Reads so many bytes.
fn read(alloc: Global, stream: &mut UnixStream, count: usize) -> io::Result<Vec<u8>> {
    let mut bytes = vec![in alloc; 0; count]?;
    stream.read_exact(&mut bytes)?;
    Ok(bytes)
}

// Does this over the link, and answers what it reads, if it reads.
fn do_at<R: Clock>(
    rt: &R,
    alloc: Global,
    stream: &mut UnixStream,
    act: Act,
) -> io::Result<Option<Vec<u8>>> {
    match act {
        Act::Send(_, bytes) => stream.write_all(bytes)?,
        Act::Flood(_, count) => flood(alloc, stream, count)?,
        Act::Drip(_) => drip(rt, stream)?,
        Act::Shut(_, how) => stream.shutdown(how)?,
        Act::Read(_, count) => return Ok(Some(read(alloc, stream, count)?)),
        _ => {
            let mut answer = Vec::new(alloc);
            stream.read_to_end(&mut answer)?;
            return Ok(Some(answer));
        }
    }
    Ok(None)
}

/// Does all this, and answers what was read each time.
pub(crate) fn do_all<R: Files + Net + Clock>(
    rt: &R,
    alloc: Global,
    acts: &[Act],
) -> io::Result<Vec<Vec<u8>>> {
    let mut links = Vec::new(alloc);
    let mut answers = Vec::new(alloc);
    for act in acts {
        let link = match *act {
            Act::Open(path) => {
                links.push(connect(rt, path)?)?;
                continue;
            }
            Act::Talk(path, bytes) => {
                answers.push(talk(rt, alloc, path, bytes)?)?;
                continue;
            }
            Act::Remove(path) => {
                fs::remove_file(rt, path)?;
                continue;
            }
            Act::Send(link, _) | Act::Flood(link, _) | Act::Drip(link) => link,
            Act::Shut(link, _) | Act::Read(link, _) | Act::ReadEnd(link) => link,
        };
        if let Some(stream) = links.get_mut(link) {
            if let Some(answer) = do_at(rt, alloc, stream, *act)? {
                answers.push(answer)?;
            }
        }
    }
    Ok(answers)
}
