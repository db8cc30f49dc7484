//! All peers of a seat for a program that has their bytes: it gives what each sent, however cut, and
//! takes what each is to be sent. It keeps no journal of what happened.
#![tactic(auto)]

mod ears;
mod laws;
mod open;
mod receive;
mod seat;
mod steps;

pub use broker_core::{JoinRefusal, Kept, Refused, Standing, Took};
pub use ears::{Heard, Sender, ShellEvent};
pub use laws::byte_law;
pub use relay_core::Route;
pub use seat::ByteSeat;
