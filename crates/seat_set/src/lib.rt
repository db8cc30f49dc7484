//! Several seats side by side, each with its own peers, journal and stores: what happens on one
//! never shows on another.
//!
//! A session that is played line by line through the state that all its peers share.
#![tactic(auto)]

mod bytes;
mod ending;
mod laws;
mod player;
mod seat_player;
mod seat_set;
mod session;
mod short_journal;
mod unread;

pub use broker_core::{Journal, Kept, Watch};
pub use laws::{printed_steps, session_law};
pub use lines_transcript::print_step;
pub use player::{PlayEnd, Player};
pub use seat_set::SeatSet;
pub use session::Stop;
pub use session_text::SeatLine;
pub use short_journal::keep_short;
