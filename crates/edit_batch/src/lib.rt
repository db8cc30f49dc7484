//! The edits that an input method has pending, until its commit makes them one batch.
#![tactic(auto)]

mod pending;

pub use pending::{Edits, PREEDIT_LIMIT, Pending, STRING_LIMIT};
