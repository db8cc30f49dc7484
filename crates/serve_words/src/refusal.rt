//! Why words ask for nothing.

use thiserror::Error;

/// Why words ask for nothing.
#[derive(Clone, Copy, Debug, PartialEq, Eq, Error)]
pub enum WordsRefusal {
    /// They are in no grammar.
    #[error("the words are in no grammar")]
    BadWords,
    /// There was no memory.
    #[error("there was no memory")]
    NoMemory,
}
