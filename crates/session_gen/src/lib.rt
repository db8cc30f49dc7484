//! A long session made from a number, so that anybody can make the same one again.
#![tactic(auto)]

mod generator;
mod letters;
mod rows;
mod sending;
mod setup;

pub use generator::{Gen, STEPS};
