//! The boards of `virtual-keyboard-unstable-v1` (`zwp_virtual_keyboard_v1`): where their keys and modifiers go. Each
//! board's keys are counted by themselves, by `kbd_grab`'s list of held keys.
#![tactic(auto)]

mod board;
mod boards;

pub use boards::VKeys;
