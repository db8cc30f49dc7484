//! Where takes put what they take.
use std::alloc::Global;
use std::marker::Model;

/// How many bytes a take takes at most.
pub const MOST_BYTES: usize = 4096;

/// How many tokens come with them at most.
pub const MOST_TOKENS: usize = 256;

/// Memory for what a take takes, or none.
#[derive(Drop)]
pub struct Places {
    pub bytes: Vec<u8>,
    pub tokens: Vec<u32>,
}

impl Places {
    ghost use Rattle.std.specs.Prelude.{◌≡◌, length, true};

    /// There is no memory.
    pub fn none(alloc: Global) -> Places {
        Places {
            bytes: Vec::new(alloc),
            tokens: Vec::new(alloc),
        }
    }

    /// Whether there is memory.
    pub fn has_memory(&self) -> bool
        ensures { result ≡ true →
            (length self.now.bytes.items ≡ 4096) × (length self.now.tokens.items ≡ 256) }
    {
        self.bytes.len() == MOST_BYTES && self.tokens.len() == MOST_TOKENS
    }

    /// These, or new ones where they have no memory, unless it lacks.
    pub fn with_memory(self, alloc: Global) -> Places {
        if self.has_memory() {
            return self;
        }
        let Ok(bytes) = vec![in alloc; 0; MOST_BYTES] else {
            return self;
        };
        let Ok(tokens) = vec![in alloc; 0; MOST_TOKENS] else {
            return self;
        };
        Places { bytes, tokens }
    }
}

/// Where takes put what they take: up to 4,096 bytes, and up to 256 tokens that come with them. Its
/// memory is made once, at the first take. Contracts see what the last take took. `Hub::room` makes
/// one.
#[derive(Drop)]
pub struct Room {
    places: Places,
    byte_count: usize,
    token_count: usize,
}

impl Model for Room {
    ghost use Rattle.std.specs.Prelude.{◌≤◌, length, take};
    ghost use Rattle.hub_lock.specs.Rooms.{Taken};

    ghost Value = { Taken };

    ghost view = { λ r. record {
      bytes = take r.byte_count r.places.bytes.items;
      tokens = take r.token_count r.places.tokens.items;
    } };

    ghost invariant = { λ r. (r.byte_count ≤ length r.places.bytes.items)
        × (r.token_count ≤ length r.places.tokens.items) };
}

impl Room {
    ghost use Rattle.std.specs.Prelude.{◌≡◌, ◌≤◌, length};
    ghost use Rattle.hub_lock.specs.Rooms.{nothing_taken, room_of};

    // Nothing was taken yet, and no memory is made.
    pub(crate) fn new(alloc: Global) -> Room
        ensures { result ≡ nothing_taken }
    {
        Room {
            places: Places::none(alloc),
            byte_count: 0,
            token_count: 0,
        }
    }

    // In these places a take took so many bytes and tokens.
    pub(crate) fn of(places: Places, byte_count: usize, token_count: usize) -> Room
        requires bytes { byte_count ≤ length places.bytes.items }
        requires tokens { token_count ≤ length places.tokens.items }
        ensures { result ≡ room_of places (byte_count, token_count) }
    {
        Room {
            places,
            byte_count,
            token_count,
        }
    }

    // Its places.
    pub(crate) fn into_places(self) -> Places {
        self.places
    }

    /// The bytes that the last take took, 0 to 4,096. (no memory)
    pub fn bytes(&self) -> &[u8]
        ensures { result.now ≡ self.now.bytes }
    {
        &self.places.bytes[..self.byte_count]
    }

    /// The tokens that came with them, 0 to 256. (no memory)
    pub fn tokens(&self) -> &[u32]
        ensures { result.now ≡ self.now.tokens }
    {
        &self.places.tokens[..self.token_count]
    }
}
