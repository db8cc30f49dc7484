//! A case, and how it is played.
use program_run::run_plain;
use std::alloc::{AllocError, Global};
use wio_core::{MemSink, MemSource, NoMemory};

// Inputs are read in pieces of so many bytes.
const PIECE: usize = 16;

// The most that an output holds.
const ROOM: usize = 4_000_000;

/// What is run, what it is given, and what has to come of it.
#[derive(Drop)]
pub struct Case {
    pub name: String,
    /// The words of each run: the first reads the input, and each other one what the one before it wrote.
    pub runs: Vec<Vec<String>>,
    pub input: String,
    /// The whole output; or its front, where its end is told too and what stands between them isn't.
    pub output: String,
    pub end: Option<String>,
    pub status: u8,
    /// The numbers of the reads and of the writes that fail.
    pub failed_reads: Vec<u64>,
    pub failed_writes: Vec<u64>,
}

/// What came of a case.
#[derive(Drop)]
pub struct Came {
    pub output: Vec<u8>,
    pub status: u8,
}

impl Case {
    /// A case that nothing is said of yet.
    pub fn new(alloc: Global) -> Case {
        Case {
            name: String::new(alloc),
            runs: Vec::new(alloc),
            input: String::new(alloc),
            output: String::new(alloc),
            end: None,
            status: 0,
            failed_reads: Vec::new(alloc),
            failed_writes: Vec::new(alloc),
        }
    }

    /// The case of this name that begins as this one.
    pub fn named(&self, alloc: Global, name: &str) -> Result<Case, AllocError> {
        Ok(Case {
            name: String::from_str(alloc, name)?,
            runs: self.runs.clone()?,
            input: self.input.clone()?,
            output: self.output.clone()?,
            end: self.end.clone()?,
            status: self.status,
            failed_reads: self.failed_reads.clone()?,
            failed_writes: self.failed_writes.clone()?,
        })
    }

    /// Adds a text with its end to the input.
    pub fn put_input(&mut self, text: &str, end: &str) -> Result<(), AllocError> {
        self.input.push_str(text)?;
        self.input.push_str(end)
    }

    /// Adds a text with its end to what has to be written.
    pub fn put_output(&mut self, text: &str, end: &str) -> Result<(), AllocError> {
        let output = match &mut self.end {
            Some(output) => output,
            None => &mut self.output,
        };
        output.push_str(text)?;
        output.push_str(end)
    }

    /// What comes of its runs.
    pub fn play(&self, alloc: Global) -> Result<Came, AllocError> {
        let mut came = Came {
            output: self.input.as_bytes().to_vec(alloc)?,
            status: 0,
        };
        for words in &self.runs {
            let reads = self.failed_reads.clone()?;
            let writes = self.failed_writes.clone()?;
            let mut source = MemSource::new(came.output, PIECE, reads);
            let Ok(mut sink) = MemSink::new(alloc, ROOM, writes) else {
                return Err(AllocError);
            };
            let status = run_plain(alloc, words, &mut source, &mut sink).number();
            came = Came {
                output: sink.held().to_vec(alloc)?,
                status,
            };
        }
        Ok(came)
    }

    /// Whether this is what has to come of it.
    pub fn awaits(&self, came: &Came) -> bool {
        let output = came.output.as_slice();
        let is_like = match &self.end {
            Some(end) => {
                output.starts_with(self.output.as_bytes()) && output.ends_with(end.as_bytes())
            }
            None => output == self.output.as_bytes(),
        };
        is_like && came.status == self.status
    }
}
