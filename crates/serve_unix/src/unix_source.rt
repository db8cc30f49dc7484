//! The way in of a Unix link.
ghost use Rattle.std.specs.Prelude.{◌≡◌, None, IfOk};

use serve_net::LinkSource;
use std::alloc::Global;
use std::io;
use std::io::BufReader;
use std::os::unix::net::UnixStream;
use std::sync::Arc;
use std::sync::atomic::{AtomicBool, Ordering};
use wio_core::{Failed, Source, StdSource};

/// A Unix stream as a source. It is read ahead, so that many small frames cost one call of the
/// system. Once its net is over it gives nothing more, also of what was read ahead.
#[derive(Drop)]
pub struct UnixSource {
    source: StdSource<BufReader<UnixStream>>,
    number: u64,
    is_over: Arc<AtomicBool, Global>,
}

impl UnixSource {
    /// Reads this stream, of which no read failed yet, as the way in of the link with this number,
    /// until this says that its net is over.
    pub fn new(
        alloc: Global,
        stream: UnixStream,
        number: u64,
        is_over: Arc<AtomicBool, Global>,
    ) -> io::Result<UnixSource>
        ensures given { IfOk result (λ s. ⟦<UnixSource as Source>⟧.given s ≡ None) }
        ensures no_fault_yet { IfOk result (λ s. ⟦<UnixSource as Source>⟧.fault_count s ≡ 0) }
        ensures number { IfOk result (λ s. ⟦<UnixSource as LinkSource>⟧.number s ≡ number) }
    {
        Ok(UnixSource {
            source: StdSource::new(BufReader::new(alloc, stream)?),
            number,
            is_over,
        })
    }
}

impl Source for UnixSource {
    ghost given = { λ _. None };

    ghost left = { λ _. None };

    ghost fault_count = { λ s. ⟦<StdSource<BufReader<UnixStream>> as Source>⟧.fault_count s.source };

    fn read(&mut self, buf: &mut [u8]) -> Result<usize, Failed> {
        if self.is_over.load(Ordering::SeqCst) {
            return Ok(0);
        }
        self.source.read(buf)
    }

    fn faults(&self) -> u64 {
        self.source.faults()
    }
}

impl LinkSource for UnixSource {
    ghost number = { λ s. s.number };

    fn link(&self) -> u64 {
        self.number
    }
}
