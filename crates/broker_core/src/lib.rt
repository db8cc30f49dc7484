//! The shared state of all peers of a seat: one journal, and for each peer what is stored for it.
#![tactic(auto)]

mod answers;
mod laws;
mod letting_go;
mod limits;
mod readers;
mod shared;
mod state;
mod steps;
mod takes;
mod taking;
mod watch;

pub use answers::{Applied, JoinRefusal, Refused, Took};
pub use broker_audience::{Gathering, Live};
pub use broker_model::{Entry, Journal, Kept, StampList};
pub use laws::call_law;
pub use letting_go::LetGo;
pub use relay_core::{Relay, Route, board_law};
pub use shared::{MOST_PEERS, Shared};
pub use taking::Standing;
pub use watch::Watch;
