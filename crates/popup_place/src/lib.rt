//! Where an input method's popup stands beside the cursor of a text field: rectangles, sizes, and the one rule that
//! places a popup. This crate stands on nothing.
#![tactic(auto)]

mod geometry;
mod popup;

pub use geometry::{Rect, Size};
pub use popup::{Placed, place};
