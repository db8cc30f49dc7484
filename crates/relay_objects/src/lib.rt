//! The live objects of a seat, with what each field keeps, and what they are told.
#![tactic(auto)]

mod asking;
mod change;
mod entered;
mod listed;
mod object;
mod objects;
mod place;
mod post;
mod shelf;
mod spare;
mod told;

pub use listed::{LiveField, LivePopup};
pub use object::{Kind, NO_AREA, Object, is_number};
pub use objects::Objects;
pub use post::{
    Group, Post, Preedit, tell_activate, tell_deactivate, tell_deleted, tell_enter, tell_enters,
    tell_group, tell_leaves, tell_unavailable, tell_update,
};
pub use spare::Spare;
pub use told::{tell_board_mods, tell_grab, tell_key, tell_keyboard, tell_place};
