//! What a batch that a method commits comes to: relayed to a field, or the reason why not.
#![tactic(auto)]

mod fate;
mod laws;
mod seat;

pub use fate::{BatchFate, Reason, batch_fate};
pub use laws::{activation_law, batch_law};
pub use seat::{Seat, seat_now};
