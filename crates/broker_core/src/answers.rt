//! What the calls of the shared state answer.
use broker_model::Kept;
use relay_core::Route;
use relay_model::EndCause;
use thiserror::Error;

/// Why no peer joined.
#[derive(Clone, Copy, Debug, PartialEq, Eq, Error)]
pub enum JoinRefusal {
    /// `MOST_PEERS` are alive, the number that it says.
    #[error("{0} peers are alive")]
    TooManyPeers(u32),
    /// The journal is full for a join: so much it holds.
    #[error("the journal is full with {} entries", .0.entries)]
    JournalFull(Kept),
    /// There was no memory.
    #[error("there was no memory")]
    NoMemory,
}

/// Why a step of a peer or of the shell wasn't taken.
#[derive(Clone, Copy, Debug, PartialEq, Eq, Error)]
pub enum Refused {
    /// No peer has the number.
    #[error("no peer has the number")]
    NoPeer,
    /// The peer ended, for this cause.
    #[error("the peer ended: {0:?}")]
    Ended(EndCause),
    /// The journal is full for the step: so much it holds.
    #[error("the journal is full with {} entries", .0.entries)]
    JournalFull(Kept),
    /// There was no memory.
    #[error("there was no memory")]
    NoMemory,
}

/// What became of a step.
#[derive(Clone, Copy, Debug, PartialEq, Eq)]
pub struct Applied {
    /// The number of its entry in the journal, from 1.
    pub entry: u32,
    /// Where a key of the shell went; none for any other step.
    pub route: Option<Route>,
}

/// What was taken of what is stored for a peer.
#[derive(Clone, Copy, Debug, PartialEq, Eq)]
pub enum Took {
    /// So many bytes, and so many tokens with them.
    Bytes(usize, usize),
    /// Nothing: no peer has the number.
    NoPeer,
    /// Nothing: nothing is stored, and the peer ended.
    Closed,
    /// Nothing: nothing is stored yet.
    Empty,
    /// Nothing: the journal is full for a take. So much it holds.
    JournalFull(Kept),
    /// Nothing: there was no memory.
    NoMemory,
}
