//! What a message of a peer comes to on the seat, and what is told as an event of the wire.
#![tactic(auto)]

mod acts;
mod events;
mod meaning;
mod requests;
mod tokens;

pub use acts::shell_act;
pub use events::{event_of, named, token_of};
pub use meaning::{Meaning, Sender, meaning_of};
pub use relay_core::Post;
pub use requests::Argument;
