//! The relay: it keeps what the acts so far come to, and tells what each act tells.
#![tactic(auto)]

mod boards;
mod bounds;
mod holding;
mod keyboard;
mod laws;
mod machine;
mod methods;
mod peers;
mod popups;
mod readers;
mod relay;
mod reserve;
mod turning;

pub use kbd_grab::Route;
pub use laws::{board_law, keyboard_law};
pub use relay::Relay;
pub use relay_objects::Post;
