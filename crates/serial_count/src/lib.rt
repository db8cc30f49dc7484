//! The serials of `zwp_input_method_v2.commit`, which count a method's dones modulo 2^32, and whether a serial names a
//! done of the present activation. This crate stands on nothing.
#![tactic(auto)]

mod counting;
mod freshness;

pub use counting::{Count32, Since};
pub use freshness::fresh;
