//! An input method with a dictionary: keys narrow the words that they may spell, and one is chosen.
#![tactic(auto)]

mod control;
mod dict;
mod method;
mod texts;
mod word;

pub use control::Control;
pub use dict::{Dict, MAX_WORD_KEYS, MAX_WORDS};
pub use method::{DictMethod, MAX_CODE_TEXT};
