//! A text field as a trial has it: its user edits it, and batches of an input method edit it.
#![tactic(auto)]

mod batch_view;
mod edits;
mod field;
mod laws;
mod places;

pub use batch_view::{BatchView, MAX_PREEDIT, MAX_STRING};
pub use edits::Edit;
pub use field::{MAX_TEXT, TrialField};
pub use laws::{character_laws, leave_law};
