//! Frames: bytes of a link with the tokens of the descriptors that travel with them.
#![tactic(auto)]

mod parts;
mod reader;
mod writer;

pub use reader::{FrameReader, bytes_have_one_answer};
pub use writer::FrameWriter;

/// The most bytes of a frame.
pub const MAX_BYTES: usize = 4096;

/// The most tokens of a frame.
pub const MAX_TOKENS: usize = 256;

/// What a reader of frames answers.
#[derive(Clone, Copy, Debug, PartialEq, Eq)]
pub enum Got {
    /// A frame of so many bytes and so many tokens, which stand at the front of the buffers.
    Bytes(usize, usize),
    /// The source ended where a frame would begin.
    End,
    /// The source ended after so many bytes of a frame, fewer than all.
    Torn(usize),
    /// A header past its limits, with the numbers of bytes and of tokens that it gives.
    BadFrame(u16, u16),
    /// A read of the source failed, and its count of faults rose.
    ReadFault,
}

impl Got {
    ghost use Rattle.std.specs.Prelude.{◌≡◌};
    ghost use Rattle.desc_frame.specs.Answers.{settled};

    /// What is answered from then on, if anything is settled.
    fn settled(self) -> Option<Got>
        ensures { result ≡ settled self }
    {
        match self {
            Got::Bytes(_, _) => None,
            got => Some(got),
        }
    }
}
