//! All to whom acts tell things: the live peers of a seat, what is gathered and stored for each, and
//! whose each object is.
#![tactic(auto)]

mod audience;
mod changes;
mod directory;
mod gathering;
mod listeners;
mod live;
mod marks;
mod place;
mod roster;

pub use audience::Audience;
pub use directory::{Directory, Named};
pub use gathering::Gathering;
pub use listeners::Listeners;
pub use live::Live;
pub use out_store::Past;
