//! A text, which contracts see as its bytes.
use crate::valid::text_of;
use std::alloc::Global;
use std::marker::Model;
use wio_core::NoMemory;

/// UTF-8 without a zero byte, as the strings of the wire are. Contracts see the list of its bytes.
#[derive(Debug, Drop)]
pub struct Text {
    bytes: Vec<u8>,
}

impl Model for Text {
    ghost use Rattle.std.specs.Prelude.{List, ℕ};
    ghost use Rattle.wl_wire.specs.Texts.{IsText};

    ghost Value = { List ℕ };

    ghost view = { λ t. t.bytes.items };

    ghost invariant = { λ t. IsText t.bytes.items };
}

impl Text {
    ghost use Rattle.std.specs.Prelude.{◌≡◌, ◌==◌, [], length, IfOk, IsTrue, IsUtf8, MatchResult};
    ghost use Rattle.std.specs.Prelude.{false};
    ghost use Rattle.wl_wire.specs.Texts.{IsText, has_no_zero};
    ghost use Rattle.wl_wire.specs.Texts as texts;

    /// The empty text. Takes no memory.
    pub fn empty(alloc: Global) -> Text
        ensures value { result ≡ [] }
        ensures text { IsText result }
    {
        Text {
            bytes: Vec::new(alloc),
        }
    }

    /// The text that the bytes are. Gives the bytes back exactly where they are no UTF-8 or have a
    /// zero byte. Takes no memory.
    pub fn from_bytes(bytes: Vec<u8>) -> Result<Text, Vec<u8>>
        ensures cases { MatchResult result (λ t. (t ≡ bytes.items) × IsText t)
            (λ v. (v.items ≡ bytes.items) × (texts.is_text v.items ≡ false)) }
    {
        if text_of(&bytes).is_none() {
            return Err(bytes);
        }
        Ok(Text { bytes })
    }

    /// A copy of a text that has no zero byte.
    pub fn of(alloc: Global, text: &str) -> Result<Text, NoMemory>
        requires { IsTrue (has_no_zero text.now) }
        ensures value { IfOk result (λ t. (t ≡ text.now) × IsText t) }
    {
        let bytes = Vec::from_slice(alloc, text.as_bytes())?;
        Ok(Text { bytes })
    }

    /// The bytes of the text.
    pub fn as_bytes(&self) -> &[u8]
        ensures value { result.now ≡ self.now }
        ensures text { IsText self.now }
    {
        &self.bytes
    }

    /// The text as Rust has texts.
    pub fn as_str(&self) -> &str
        ensures value { result.now ≡ self.now }
        ensures text { IsText self.now }
    {
        let bytes = self.bytes.as_slice();
        // The invariant holds, so that no test is made again.
        unsafe { std::str::from_utf8_unchecked(bytes) }
    }

    /// How many bytes the text has.
    pub fn len(&self) -> usize
        ensures value { result ≡ length self.now }
        ensures text { IsText self.now }
    {
        self.bytes.len()
    }

    /// Whether the text has no byte.
    pub fn is_empty(&self) -> bool
        ensures value { result ≡ (length self.now == 0) }
        ensures text { IsText self.now }
    {
        self.bytes.is_empty()
    }

    /// The `Vec` that holds the bytes.
    pub fn into_bytes(self) -> Vec<u8>
        ensures value { result.items ≡ self }
        ensures text { IsText self }
    {
        self.bytes
    }

    /// The same text in memory of its own.
    pub fn copy(&self, alloc: Global) -> Result<Text, NoMemory>
        ensures value { IfOk result (λ t. t ≡ self.now) }
        ensures text { IsText self.now }
    {
        let bytes = Vec::from_slice(alloc, &self.bytes)?;
        Ok(Text { bytes })
    }
}

impl PartialEq for Text {
    ghost use Rattle.std.specs.Prelude.{◌==◌};
    ghost use Rattle.std.specs.Cmp.Rules.{comparing};
    ghost use Rattle.std.specs.Cmp.Lexicographic.{pointwise};
    ghost use Rattle.std.proofs.Common.{rules};

    ghost eq = { pointwise ◌==◌ };

    ghost laws = { Prim.search (comparing, rules) };

    fn eq(&self, other: &Text) -> bool {
        self.bytes.as_slice() == other.bytes.as_slice()
    }
}

impl Eq for Text {
    ghost use Rattle.std.specs.Cmp.Rules.{comparing};
    ghost use Rattle.std.proofs.Common.{rules};

    ghost laws = { Prim.search (comparing, rules) };
}
