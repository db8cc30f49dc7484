//! Two streams of one application, compared by the messages of its fields: what it's told, and what
//! another broker sent it.
//!
//! What each application of a journal is told, gathered beside what another broker sent it.
#![tactic(auto)]

mod backlog;
mod compare;
mod comparison;
mod field_event;
mod gained;
mod gatherer;
mod side;

pub use comparison::{Comparison, HearEnd};
pub use gatherer::Gatherer;
pub use wl_proto::Event;
