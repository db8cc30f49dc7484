//! The keys of a sequence.
ghost use Rattle.std.specs.Prelude.{◌≡◌, ◌++◌, ◌∷◌, [], map, OnOk};
ghost use Rattle.session_text.specs.Reading.{Reads};
ghost use Rattle.trial_script.specs.Words.{keys_of};

use session_text::BadLine;
use session_text::words::number;
use std::alloc::{AllocError, Global};
use std::marker::Model;

/// Keys in the order in which they are pressed, which contracts see as a list.
#[derive(Debug, Drop)]
pub struct KeyList {
    keys: Vec<u32>,
}

impl Model for KeyList {
    ghost use Rattle.std.specs.Prelude.{List, ℕ};

    ghost Value = { List ℕ };

    ghost view = { λ k. k.keys.items };
}

impl KeyList {
    /// The keys, the one that is pressed first at the front.
    pub fn as_slice(&self) -> &[u32]
        ensures { result.now ≡ self.now }
    {
        &self.keys
    }
}

fn push_key(keys: &mut Vec<u32>, key: u32) -> Result<(), AllocError>
    ensures { OnOk result (keys.new.items ≡ keys.old.items ++ key ∷ []) }
{
    keys.push(key)?;
    Ok(())
}

// The keys that are written so.
pub(crate) fn read_keys(alloc: Global, words: &[&[u8]]) -> Result<KeyList, BadLine>
    ensures { Reads result (keys_of (map (λ w. w.now) words.now)) }
{
    let mut keys = Vec::new(alloc);
    for word in words {
        match number(word) {
            Ok(key) => push_key(&mut keys, key)?,
            Err(bad) => return Err(bad),
        }
    }
    Ok(KeyList { keys })
}
