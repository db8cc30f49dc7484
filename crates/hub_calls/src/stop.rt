//! Why a call of a pass made no step.
use broker_core::Kept;
use thiserror::Error;

/// Why a call of a pass made no step.
#[derive(Clone, Copy, Debug, PartialEq, Eq, Error)]
pub enum PassStop {
    /// The journal is full for the step: so much it holds.
    #[error("the journal is full with {} entries", .0.entries)]
    JournalFull(Kept),
    /// There was no memory.
    #[error("there was no memory")]
    NoMemory,
}
