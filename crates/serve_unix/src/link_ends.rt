//! What ends all links of a net at once.
use std::alloc::Global;
use std::io;
use std::net::Shutdown;
use std::os::unix::net::UnixStream;
use std::sync::Arc;
use std::sync::atomic::{AtomicBool, Ordering};

/// The streams of the links that came in, and what tells their sources that they are over.
#[derive(Drop)]
pub(crate) struct LinkEnds {
    streams: Vec<UnixStream>,
    // Made with the first link.
    is_over: Option<Arc<AtomicBool, Global>>,
}

impl LinkEnds {
    /// No link came in.
    pub(crate) fn new(alloc: Global) -> LinkEnds {
        LinkEnds {
            streams: Vec::new(alloc),
            is_over: None,
        }
    }

    /// Keeps a link's stream, and gives what its source has to look at before it reads.
    pub(crate) fn keep(
        &mut self,
        alloc: Global,
        stream: UnixStream,
    ) -> io::Result<Arc<AtomicBool, Global>> {
        let is_over = match &self.is_over {
            Some(is_over) => Arc::try_clone(is_over)?,
            None => {
                let made = Arc::new(alloc, AtomicBool::new(false))?;
                let shared = Arc::try_clone(&made)?;
                self.is_over = Some(made);
                shared
            }
        };
        self.streams.push(stream)?;
        Ok(is_over)
    }

    /// Tells the sources, and shuts both ways of each stream down: whoever waits there wakes.
    pub(crate) fn hang_up(&self) {
        if let Some(is_over) = &self.is_over {
            is_over.store(true, Ordering::SeqCst);
        }
        for stream in &self.streams {
            let _ = stream.shutdown(Shutdown::Both);
        }
    }
}
