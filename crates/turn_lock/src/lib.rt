//! A lock for any value whose calls stand in a history. Each user of the lock has a seat with a
//! number of its own. A turn plays one call at the history of that moment, which begins with all
//! that the seat had seen before; and the first seat, once it has taken all others in, knows the
//! whole history.
#![tactic(auto)]

mod crossing;
mod seat;
mod sleepers;
mod story;
mod turn;
mod view;

pub use crossing::{may_be_shared, may_cross};
pub use seat::Seat;
pub use story::Story;
pub use turn::Turn;
