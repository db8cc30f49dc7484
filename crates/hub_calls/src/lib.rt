//! The calls of passes at a hub, one at a time, for users that have no link: a writer takes what is
//! next, a reader submits messages, a shell orders. Contracts say what each pass made of all that it
//! was to make, and what its takes took.
#![tactic(auto)]

mod laws;
mod order;
mod stop;
mod submit;
mod take;

pub use broker_core::Kept;
pub use laws::{only_root_joins, seen_stays, steps_are_of_passes, steps_stay};
pub use order::order_step;
pub use stop::PassStop;
pub use submit::{Sent, submit_messages};
pub use take::{Piece, take_piece};
