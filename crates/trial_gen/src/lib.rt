//! Trial scripts made from a number, so that anybody can run the same one again.
#![tactic(auto)]

mod actions;
mod laws;
mod letters;
mod script;
mod words;

pub use laws::reads_as_drawn;
pub use script::drawn_script;
