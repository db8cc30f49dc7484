//! A line for people of each thing that happened on a seat: what it was, and what came of it.
//!
//! Each entry of a journal explained for people, by who watches it.
#![tactic(auto)]

mod changes;
mod deed;
mod explainer;
mod key_laws;
mod key_way;
mod lack;
mod laws;
mod open;
mod outcome;
mod phrase;
mod reason_laws;

pub use changes::{Course, add_changes, course_of};
pub use deed::{Source, begin_line};
pub use explainer::{Explainer, Lines};
pub use key_laws::{argument_law, key_law, lack_law};
pub use key_way::{KeySent, KeyWay, way_of};
pub use lack::Lack;
pub use laws::course_law;
pub use outcome::{Outcome, WhyNobody, add_outcome, outcome_of};
pub use reason_laws::reasons_law;
