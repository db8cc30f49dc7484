//! Generated sessions, run: their counts, and their text.
#![tactic(auto)]

mod counts;
mod events;
mod laws;
mod playing;
mod running;
mod summary_line;
mod tally;
mod text;

pub use counts::Counts;
pub use laws::lines_replay;
pub use running::count;
pub use session_gen::{Gen, STEPS};
pub use summary_line::summary;
pub use text::{WriteEnd, write_session};
