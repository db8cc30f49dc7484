//! The slow evaluator of the relay's rules: it looks back over the list of all acts, as the definitions do.
//!
//! What holds after a list of acts, by looking back over the list as the definitions do: slow, and
//! each function the code of one definition. Lists have their newest act first.
#![tactic(auto)]

pub mod activation;
mod batch;
pub mod boards;
mod copying;
pub mod current;
pub mod focus;
pub mod hold;
mod idle;
pub mod keys;
pub mod objects;
mod own;
mod plain;
mod popups;
pub mod seat;
mod telling;
mod told;

pub use copying::copy_of_act;
pub use plain::plain_told;
pub use relay_model::{Act, Mods, Said, Told};
