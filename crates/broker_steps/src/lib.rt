//! The steps of a seat's session, and what a session allows.
#![tactic(auto)]

mod limits;
mod stamp;
mod step;
mod tokens;

pub use limits::{
    ENTRY_LIMIT, FORM_1_ENTRY_LIMIT, FORM_1_WEIGHT, Limits, STORE_LIMIT, WEIGHT_LIMIT,
};
pub use relay_model::{EndCause, Role};
pub use stamp::Stamp;
pub use step::{PeerStep, ShellStep, Step};
pub use tokens::{TOKEN_LIMIT, TokenList};
pub use wl_wire::{Bytes, NoMemory};
