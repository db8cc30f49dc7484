//! The wire: messages from bytes, their arguments, and the texts and bytes that everything above speaks of.
#![tactic(auto)]

mod arg_reader;
mod arg_writer;
mod assembler;
mod bytes;
mod front;
mod laws;
mod raw;
mod text;
mod valid;

pub use arg_reader::{ArgReader, Malformed};
pub use arg_writer::ArgWriter;
pub use assembler::{Assembler, Fed};
pub use bytes::Bytes;
pub use front::{Front, front_of};
pub use laws::messages_are_longest;
pub use raw::Raw;
pub use text::Text;
pub use wio_core::{Failed, MemSink, MemSource, NoMemory, Sink, Source};

/// The bytes of a message's header: the object's id, the opcode, and the size of the whole message.
pub const HEADER_SIZE: usize = 8;

/// The most bytes of a message, its header included.
pub const MESSAGE_LIMIT: usize = 4096;

/// The most bytes of a text that stands alone in its message: beside the header, the text's length and its zero byte
/// take 5.
pub const TEXT_LIMIT: usize = 4083;

/// The most bytes of a text beside which two numbers stand in its message, which take 8 more.
pub const CURSOR_TEXT_LIMIT: usize = 4075;
