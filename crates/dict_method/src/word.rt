//! A word of a dictionary.
use compose_method::Keys;
use wl_wire::Text;

/// The keys that spell a word, and its text.
#[derive(Debug, Drop)]
pub struct Word {
    pub keys: Keys,
    pub text: Text,
}
