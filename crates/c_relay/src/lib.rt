//! A relay with what it told and nobody has asked for yet, for a program that pulls events: a compositor, whose calls
//! are acts and whose clients get the events.
//!
//! How many peers of a seat are alive, and how many objects of each: whether an act would make one too many.
//! A seat whose objects have numbers of the embedder's, for a program that finds its own objects by them.
#![tactic(auto)]

mod census;
mod event;
mod laws;
mod numbered;
mod popups;
mod queue;
mod seat;

pub use census::{Census, Living, OBJECT_LIMIT, PEER_LIMIT, SeatLimits};
pub use event::{Event, kind};
pub use laws::served_law;
pub use numbered::NumberedSeat;
pub use popups::KeptPopup;
pub use queue::TooShort;
pub use relay_reasons::{BatchFate, Reason};
pub use seat::{Refusal, RelaySeat};
