//! What an id names: the table of one peer's objects. A peer chooses an id for each object that it
//! asks for, uses it until the object is gone, and may then use it anew (the Wayland wire format's
//! object ids).
#![tactic(auto)]

mod refusal;
mod table;

pub use refusal::MakeRefusal;
pub use table::{DISPLAY_ID, LAST_ID, Label, MOST_LIVE, Table};
