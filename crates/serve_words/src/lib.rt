//! The words of `serve`: pairs of an option and a value.
#![tactic(auto)]

mod numbers;
mod options;
mod pairs;
mod refusal;
mod serving;

pub use refusal::WordsRefusal;
pub use serving::{Serving, door_of, serve_of};
