//! The acts of a seat, what they tell, and the definitions of both by looking back over a list of acts.
#![tactic(auto)]

mod act;
mod fault;
mod laws;
mod role;
mod rows;
mod said;

pub use act::{Act, EndCause, Label, Word};
pub use fault::Fault;
pub use kbd_grab::{Keymap, Mods, Repeat};
pub use laws::boards_relay_nothing;
pub use popup_place::{Placed, Rect, Size, place};
pub use role::Role;
pub use rows::{board_rows, hold_rows, session_rows, worked_rows};
pub use said::{Said, Told};
pub use wl_proto::{Interface, Text};
