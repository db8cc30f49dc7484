//! The bytes of a peer, cut into its steps: each whole message, and a header with a bad size.
#![tactic(auto)]

mod cutter;

pub use cutter::{Cut, Cutter};
