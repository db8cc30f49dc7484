//! The two ways of a link in memory, once it was accepted.
ghost use Rattle.std.specs.Prelude.{◌≡◌};

use crate::net::{LinkSink, LinkSource};
use wio_core::{Failed, MemSink, MemSource, Sink, Source};

/// A source in memory as the way in of a link.
#[derive(Drop)]
pub struct MemIn {
    /// What is read.
    pub source: MemSource,
    /// The link's number.
    pub number: u64,
}

/// A sink in memory as the way out of a link. Nobody waits at it.
#[derive(Drop)]
pub struct MemOut {
    /// What is written to.
    pub sink: MemSink,
    /// The link's number.
    pub number: u64,
    /// Whether the link was hung up.
    pub hung_up: bool,
}

impl Source for MemIn {
    ghost use Rattle.std.specs.Prelude.{Some};

    ghost given = { λ s. Some s.source.given };

    ghost left = { λ s. Some s.source.left };

    ghost fault_count = { λ s. s.source.faults };

    fn read(&mut self, buf: &mut [u8]) -> Result<usize, Failed> {
        self.source.read(buf)
    }

    fn faults(&self) -> u64 {
        self.source.faults()
    }
}

impl LinkSource for MemIn {
    ghost number = { λ s. s.number };

    fn link(&self) -> u64 {
        self.number
    }
}

impl Sink for MemOut {
    ghost use Rattle.std.specs.Prelude.{Some};

    ghost held = { λ k. Some k.sink.held };

    ghost fault_count = { λ k. k.sink.faults };

    fn write(&mut self, piece: &[u8]) -> Result<usize, Failed> {
        self.send(piece)
    }

    fn faults(&self) -> u64 {
        self.sink.faults()
    }
}

impl LinkSink for MemOut {
    ghost number = { λ k. k.number };

    ghost hung_up = { λ k. k.hung_up };

    fn link(&self) -> u64 {
        self.number
    }

    /// A link that was hung up takes bytes as before.
    fn send(&mut self, piece: &[u8]) -> Result<usize, Failed> {
        self.sink.write(piece)
    }

    fn hang_up(&mut self) {
        self.hung_up = true;
    }
}
