//! Why an object isn't made.
ghost use Rattle.std.specs.Prelude.{◌≡◌};

use thiserror::Error;

/// Why `Table::make` made nothing. After each of them the table is as before.
#[derive(Clone, Copy, Debug, PartialEq, Eq, Error)]
pub enum MakeRefusal {
    /// The id is 0 or above `LAST_ID`, so no client may choose it.
    #[error("no client may choose the id")]
    IdRange,
    /// An object is live under the id.
    #[error("an object is live under the id")]
    IdTaken,
    /// `MOST_LIVE` objects are live besides the display.
    #[error("too many objects are live")]
    TooMany,
    /// There was no memory.
    #[error("there was no memory")]
    NoMemory,
}
