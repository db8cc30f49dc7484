//! The arguments of a message are written from the left.
ghost use Rattle.std.specs.Prelude.{◌≡◌, ◌+◌, ◌-◌, ◌%◌, ◌<◌, ◌≤◌, ◌^◌, List, length, [], ◌++◌};
ghost use Rattle.std.specs.Prelude.{drop};

/// Writes arguments into a buffer, one after the other.
#[derive(Debug, Drop)]
pub struct ArgWriter<'a> {
    /// The buffer.
    pub out: &'a mut [u8],
    /// How many of its bytes are written.
    pub at: usize,
    ghost in_range: { at ≤ length out.now },
}

impl<'a> ArgWriter<'a> {
    ghost use Rattle.wl_wire.specs.Writing.{written, room};
    ghost use Rattle.wl_wire.specs.Spelling.{word_bytes, int_bytes, text_bytes, text_len};

    /// Begins at the front of a buffer.
    #[tactic(auto, unfolding(crate::specs::Writing::written, crate::specs::Writing::room))]
    pub fn new(out: &'a mut [u8]) -> ArgWriter<'a>
        ensures same_reference { result.out.ghost_name ≡ out.entry.ghost_name }
        ensures at { result.at ≡ 0 }
        ensures written { written result ≡ [] }
        ensures room { room result ≡ out.old }
    {
        ArgWriter { out, at: 0 }
    }

    #[tactic(auto, unfolding(crate::specs::Writing::written, crate::specs::Writing::room))]
    fn put(&mut self, bytes: &[u8])
        requires { length bytes.now ≤ length (room self.old) }
        ensures same_reference { self.new.out.ghost_name ≡ self.old.out.ghost_name }
        ensures at { self.new.at ≡ self.old.at + length bytes.now }
        ensures written { written self.new ≡ written self.old ++ bytes.now }
        ensures room { room self.new ≡ drop (length bytes.now) (room self.old) }
        ensures left { length (room self.new) + length bytes.now ≡ length (room self.old) }
    {
        let end = self.at + bytes.len();
        self.out[self.at..end].copy_from_slice(bytes);
        self.at = end;
    }

    /// Writes a `uint`, an `object` or a `new_id`. The buffer has room for its 4 bytes.
    pub fn uint(&mut self, n: u32)
        requires { 4 ≤ length (room self.old) }
        ensures same_reference { self.new.out.ghost_name ≡ self.old.out.ghost_name }
        ensures at { self.new.at ≡ self.old.at + 4 }
        ensures written { written self.new ≡ written self.old ++ word_bytes n }
        ensures room { room self.new ≡ drop 4 (room self.old) }
        ensures left { length (room self.new) + 4 ≡ length (room self.old) }
    {
        self.put(&n.to_le_bytes());
    }

    /// Writes an `int`. The buffer has room for its 4 bytes.
    pub fn int(&mut self, n: i32)
        requires { 4 ≤ length (room self.old) }
        ensures same_reference { self.new.out.ghost_name ≡ self.old.out.ghost_name }
        ensures at { self.new.at ≡ self.old.at + 4 }
        ensures written { written self.new ≡ written self.old ++ int_bytes n }
        ensures room { room self.new ≡ drop 4 (room self.old) }
        ensures left { length (room self.new) + 4 ≡ length (room self.old) }
    {
        self.put(&n.to_le_bytes());
    }

    /// Writes a `string` with its zero byte and zero padding. The buffer has room for `text_len` of its bytes, and
    /// its length with the zero byte fits one word.
    #[tactic(auto, unfolding(crate::specs::Spelling::text_bytes))]
    pub fn string(&mut self, text: &str)
        requires short { length text.now + 1 < 2 ^ 32 }
        requires room { text_len (length text.now) ≤ length (room self.old) }
        ensures same_reference { self.new.out.ghost_name ≡ self.old.out.ghost_name }
        ensures at { self.new.at ≡ self.old.at + text_len (length text.now) }
        ensures written { written self.new ≡ written self.old ++ text_bytes text.now }
        ensures room { room self.new ≡ drop (text_len (length text.now)) (room self.old) }
        ensures left { length (room self.new) + text_len (length text.now) ≡ length (room
            self.old) }
    {
        let len = text.len();
        self.uint(len as u32 + 1);
        self.put(text.as_bytes());
        self.put(&[0, 0, 0, 0][..4 - len % 4]);
    }

    /// Ends the writing, and says how many bytes were written. The buffer then holds them, and behind them what it
    /// held before.
    #[tactic(auto, unfolding(crate::specs::Writing::written, crate::specs::Writing::room))]
    pub fn finish(self) -> usize
        ensures len { result ≡ self.entry.at }
        ensures whole { self.exit.0.now ≡ written self.entry ++ room self.entry }
    {
        let ArgWriter { out: _, at } = self;
        at
    }
}
