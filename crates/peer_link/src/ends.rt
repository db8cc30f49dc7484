//! How the loops of a link end.
use broker_core::Kept;
use relay_model::EndCause;
use thiserror::Error;

/// How the reading of a peer's link ended.
#[derive(Clone, Copy, Debug, PartialEq, Eq, Error)]
pub enum ReadEnd {
    /// The source ended where a frame would begin.
    #[error("the source ended between two frames")]
    Closed,
    /// It ended after so many bytes of a frame, fewer than all.
    #[error("the source ended after {0} bytes of a frame")]
    Torn(usize),
    /// A frame's header is past its limits: so many bytes and tokens it announces.
    #[error("a frame announces {0} bytes and {1} tokens")]
    BadFrame(u16, u16),
    /// A read failed, and the source's count of faults rose.
    #[error("a read failed")]
    ReadFault,
    /// The peer had ended, for this cause.
    #[error("the peer ended: {0:?}")]
    Ended(EndCause),
    /// The journal was full for the link's next step. So much it held.
    #[error("the journal is full with {} entries", .0.entries)]
    JournalFull(Kept),
    /// There was no memory.
    #[error("there was no memory")]
    NoMemory,
}

/// How the writing to a peer's link ended.
#[derive(Clone, Copy, Debug, PartialEq, Eq, Error)]
pub enum WriteEnd {
    /// The peer has ended, and all that was stored for it was taken and written.
    #[error("all that was stored is written")]
    Closed,
    /// A write failed, and the sink's count of faults rose. Nothing was taken after it.
    #[error("a write failed")]
    WriteFault,
    /// The journal was full for a take. So much it held.
    #[error("the journal is full with {} entries", .0.entries)]
    JournalFull(Kept),
    /// There was no memory.
    #[error("there was no memory")]
    NoMemory,
}

/// How a shell's link ended.
#[derive(Clone, Copy, Debug, PartialEq, Eq, Error)]
pub enum ShellEnd {
    /// The source ended after its last line.
    #[error("the source ended after its last line")]
    Closed,
    /// The line of that number, from 1, is outside of its grammar.
    #[error("line {0} is outside of the grammar")]
    BadLine(u64),
    /// A read failed, and the source's count of faults rose.
    #[error("a read failed")]
    ReadFault,
    /// A write failed, and the sink's count of faults rose.
    #[error("a write failed")]
    WriteFault,
    /// The journal was full for the next line's order. So much it held.
    #[error("the journal is full with {} entries", .0.entries)]
    JournalFull(Kept),
    /// There was no memory.
    #[error("there was no memory")]
    NoMemory,
}
