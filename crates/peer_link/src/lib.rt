//! The loops of a link over the hub: a peer's bytes come in by one and go out by another, and a
//! shell's lines are ordered and answered by a third. Each promises which steps its pass made of
//! what came, or what its sink gained of what the pass took, and how far it read.
#![tactic(auto)]

mod answer;
mod ends;
mod frames;
mod messages;
mod order;
mod reader;
mod shell;
mod step;
mod writer;

pub use ends::{ReadEnd, ShellEnd, WriteEnd};
pub use reader::read_peer;
pub use shell::read_shell;
pub use writer::write_peer;
