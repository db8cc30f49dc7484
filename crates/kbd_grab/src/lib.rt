//! Where a keyboard's keys go: to the grab that stands (`zwp_input_method_keyboard_grab_v2`) or
//! past it to the shell, and to whom a key that is down still belongs. This crate stands on
//! `wio_core` for its answer for want of memory alone.
#![tactic(auto)]

mod down;
mod grab;
mod held;
mod keyboard;

pub use grab::Grab;
pub use held::HeldKeys;
pub use keyboard::{Keymap, Label, Mods, Repeat, Route};
pub use wio_core::NoMemory;
