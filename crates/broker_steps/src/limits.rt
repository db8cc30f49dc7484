//! What a session's header sets.

/// The most entries that a session may allow its journal.
pub const ENTRY_LIMIT: u32 = 4_000_000;

/// The most bytes that a session may allow a peer's store.
pub const STORE_LIMIT: u32 = 1_048_576;

/// The most that a session may allow its journal to weigh.
pub const WEIGHT_LIMIT: u64 = 536_870_912;

/// The most entries that a session of form 1 may allow its journal.
pub const FORM_1_ENTRY_LIMIT: u32 = 1_000_000;

/// What the journal of a session of form 1 may weigh, whose header doesn't say it.
pub const FORM_1_WEIGHT: u64 = 134_217_728;

/// The limits of a session.
#[derive(Clone, Copy, Debug, PartialEq, Eq)]
pub struct Limits {
    /// The most journal entries that aren't ends of peers: 1 to 4,000,000.
    pub entries: u32,
    /// The most bytes that are stored for a peer: 1 to 1,048,576.
    pub store: u32,
    /// The most that all entries weigh: 1 to 536,870,912. Each weighs 16, a message the bytes of its
    /// body besides, tokens 4 each besides; an end weighs nothing.
    pub weight: u64,
}
