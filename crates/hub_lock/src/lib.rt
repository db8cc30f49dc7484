//! The hub: one shared state behind a turn lock, and a pass for each of its users. A call of a pass
//! is played at the history of that moment, which begins with all that the pass had seen; whatever
//! stands behind the lock is the shared state that this history makes.
//!
//! Bells for the peers of a seat, by which threads that wait to take are woken: which of them a step
//! rings is proved, that a rung bell wakes is tested.
#![tactic(auto)]

mod bells;
mod call;
mod calls;
mod crossing;
mod event;
mod gate;
mod given;
mod hub;
mod laws;
mod noted_state;
mod pass;
mod record_bell;
mod recorder;
mod rings;
mod room;
mod root_calls;
mod session;
mod state;
mod step;

pub use bells::Bells;
pub use crossing::{may_be_shared, may_cross, root_may_cross};
pub use gate::Gate;
pub use hub::Hub;
pub use laws::takers_are_rung;
pub use pass::{HubPass, Pass, ReaderPass, RecorderPass, ShellPass, WriterPass};
pub use record_bell::RecordBell;
pub use relay_core::Route;
pub use rings::{BELLS, Rings};
pub use room::Room;
pub use session::{NoSession, Session};
pub use turn_lock::{Seat, Story, Turn};
