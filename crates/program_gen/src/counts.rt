//! What is counted of a generated session.

/// The counts of a generated session, whose peers 1 to 4 are applications with a text input 7 each,
/// and whose peer 5 has the input method 5.
#[derive(Clone, Copy, Debug, PartialEq, Eq)]
pub struct Counts {
    /// The journal's entries, ends of peers among them.
    pub entries: u32,
    /// The done events that were put for text inputs (`zwp_text_input_v3.done`).
    pub dones: u64,
    /// The activate events that were put for the input method (`zwp_input_method_v2.activate`).
    pub activates: u64,
    /// The peers that ended.
    pub ends: u32,
    /// The bytes that were put for all peers.
    pub queued: u64,
}
