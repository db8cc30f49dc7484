//! The way out of a Unix link.
ghost use Rattle.std.specs.Prelude.{◌≡◌, None, false};

use serve_net::LinkSink;
use std::io::Write;
use std::net::Shutdown;
use std::os::unix::net::UnixStream;
use wio_core::{Failed, Sink};

/// A Unix stream as a sink. Where its bytes go is trusted, and no contract tells it. A peer that
/// closed its side makes a write fail, and raises no signal.
#[derive(Drop)]
pub struct UnixSink {
    stream: UnixStream,
    faults: u64,
    number: u64,
    hung_up: bool,
}

impl UnixSink {
    /// Writes to this stream, to which no write failed yet, as the way out of the link with this
    /// number, which is open.
    pub fn new(stream: UnixStream, number: u64) -> UnixSink
        ensures held { ⟦<UnixSink as Sink>⟧.held result ≡ None }
        ensures no_fault_yet { ⟦<UnixSink as Sink>⟧.fault_count result ≡ 0 }
        ensures live { ⟦<UnixSink as LinkSink>⟧.hung_up result ≡ false }
        ensures number { ⟦<UnixSink as LinkSink>⟧.number result ≡ number }
    {
        UnixSink {
            stream,
            faults: 0,
            number,
            hung_up: false,
        }
    }
}

impl Sink for UnixSink {
    ghost held = { λ _. None };

    ghost fault_count = { λ s. s.faults };

    fn write(&mut self, piece: &[u8]) -> Result<usize, Failed> {
        self.send(piece)
    }

    fn faults(&self) -> u64 {
        self.faults
    }
}

impl LinkSink for UnixSink {
    ghost number = { λ s. s.number };

    ghost hung_up = { λ s. s.hung_up };

    fn link(&self) -> u64 {
        self.number
    }

    /// A write that takes no byte is a fault.
    fn send(&mut self, piece: &[u8]) -> Result<usize, Failed> {
        match self.stream.write(piece) {
            Ok(n) if n > 0 => Ok(n),
            _ => {
                self.faults = self.faults.saturating_add(1);
                Err(Failed)
            }
        }
    }

    /// Shuts both ways of the stream down.
    fn hang_up(&mut self) {
        let _ = self.stream.shutdown(Shutdown::Both);
        self.hung_up = true;
    }
}
