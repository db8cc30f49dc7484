//! Bytes that contracts see as a list of numbers.
use smallvec::SmallVec;
use std::alloc::Global;
use std::marker::Model;
use wio_core::NoMemory;

/// Bytes that a value owns, as the body of a message or what is stored for a peer. Up to 16 lie
/// within the value, more in memory of their own. Contracts see the list of the bytes.
#[derive(Debug, Drop)]
pub struct Bytes {
    bytes: SmallVec<u8, 16>,
}

impl Model for Bytes {
    ghost use Rattle.std.specs.Prelude.{List, ℕ};

    ghost Value = { List ℕ };

    ghost view = { λ b. b.bytes.items };
}

impl Bytes {
    ghost use Rattle.std.specs.Prelude.{◌≡◌, ◌≤◌, ◌==◌, length, IsOk, IfOk};

    /// The bytes of a `Vec`, which it keeps. Takes no memory.
    pub fn new(bytes: Vec<u8>) -> Bytes
        ensures value { result ≡ bytes.items }
    {
        Bytes {
            bytes: SmallVec::from_vec(bytes),
        }
    }

    /// A copy of the bytes. Up to 16 take no memory.
    pub fn from_slice(alloc: Global, bytes: &[u8]) -> Result<Bytes, NoMemory>
        ensures value { IfOk result (λ b. b ≡ bytes.now) }
        ensures short { length bytes.now ≤ 16 → IsOk result }
    {
        Ok(Bytes {
            bytes: SmallVec::from_slice(alloc, bytes)?,
        })
    }

    /// The bytes.
    pub fn as_slice(&self) -> &[u8]
        ensures value { result.now ≡ self.now }
    {
        self.bytes.as_slice()
    }

    /// How many bytes there are.
    pub fn len(&self) -> usize
        ensures value { result ≡ length self.now }
    {
        self.bytes.len()
    }

    /// Whether there is no byte.
    pub fn is_empty(&self) -> bool
        ensures value { result ≡ (length self.now == 0) }
    {
        self.bytes.is_empty()
    }

    /// The same bytes in another value. Up to 16 take no memory.
    pub fn copy(&self, alloc: Global) -> Result<Bytes, NoMemory>
        ensures value { IfOk result (λ b. b ≡ self.now) }
        ensures short { length self.now ≤ 16 → IsOk result }
    {
        Bytes::from_slice(alloc, self.bytes.as_slice())
    }
}

impl PartialEq for Bytes {
    ghost use Rattle.std.specs.Prelude.{◌==◌};
    ghost use Rattle.std.specs.Cmp.Rules.{comparing};
    ghost use Rattle.std.specs.Cmp.Lexicographic.{pointwise};
    ghost use Rattle.std.proofs.Common.{rules};

    ghost eq = { pointwise ◌==◌ };

    ghost laws = { Prim.search (comparing, rules) };

    fn eq(&self, other: &Bytes) -> bool {
        self.bytes.as_slice() == other.bytes.as_slice()
    }
}

impl Eq for Bytes {
    ghost use Rattle.std.specs.Cmp.Rules.{comparing};
    ghost use Rattle.std.proofs.Common.{rules};

    ghost laws = { Prim.search (comparing, rules) };
}
