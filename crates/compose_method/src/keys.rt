//! The keys of an entry, which contracts see as a list.
ghost use Rattle.std.specs.Prelude.{◌≡◌, IfOk, nat_eq};
ghost use Rattle.std.specs.List.{starts_with};
ghost use Rattle.compose_method.specs.Order.{up_to};

use std::alloc::Global;
use std::marker::Model;
use wio_core::NoMemory;

/// Keys in the order in which they are pressed.
#[derive(Debug, Drop)]
pub struct Keys {
    keys: Vec<u32>,
}

impl Model for Keys {
    ghost use Rattle.std.specs.Prelude.{List, ℕ};

    ghost Value = { List ℕ };

    ghost view = { λ k. k.keys.items };
}

impl Keys {
    /// A copy of the keys.
    pub fn of(alloc: Global, keys: &[u32]) -> Result<Keys, NoMemory>
        ensures { IfOk result (λ copy. copy ≡ keys.now) }
    {
        let keys = Vec::from_slice(alloc, keys)?;
        Ok(Keys { keys })
    }

    /// The keys, the one that is pressed first at the front.
    pub fn as_slice(&self) -> &[u32]
        ensures { result.now ≡ self.now }
    {
        &self.keys
    }

    /// Whether the other keys begin with these.
    pub fn begin(&self, others: &[u32]) -> bool
        ensures { result ≡ starts_with nat_eq others.now self.now }
    {
        others.starts_with(&self.keys)
    }

    /// Whether these keys begin with the others.
    pub fn begin_with(&self, others: &[u32]) -> bool
        ensures { result ≡ starts_with nat_eq self.now others.now }
    {
        self.keys.starts_with(others)
    }

    /// Whether these keys stand before the others, or are the same, in the order of a dictionary.
    pub fn are_up_to(&self, others: &[u32]) -> bool
        ensures { result ≡ up_to self.now others.now }
    {
        self.keys.as_slice().cmp(others).is_le()
    }
}
