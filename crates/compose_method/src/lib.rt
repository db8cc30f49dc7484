//! An input method that composes characters from keys, by a table of its own.
#![tactic(auto)]

mod entries;
mod keys;
mod laws;
mod method;
mod singles;
mod table;
mod typing;
mod typist;

pub use keys::Keys;
pub use laws::presses_go_on;
pub use method::Method;
pub use table::{ComposeTable, MAX_ENTRIES, MAX_KEY_TEXT, MAX_KEYS, MAX_SINGLES, TableRefusal};
pub use typing::MAX_TYPED;
pub use typist::{MAX_PREEDIT, MAX_STRING, Typist};
pub use wl_proto::Event;
pub use wl_wire::Text;
