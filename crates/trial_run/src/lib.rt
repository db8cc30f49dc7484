//! Trials: what a script types, with fields that edit themselves and a method that composes or
//! has a dictionary, as peers of one shared state.
#![tactic(auto)]

mod clients;
mod joining;
mod lines;
mod rounds;
mod run;
mod showing;
mod steps;
mod stop;
mod trial;
mod typist;
mod whose;

pub use client_side::TrialField;
pub use run::{TrialEnd, run_trial};
pub use typist::TrialTypist;
pub use whose::Whose;
