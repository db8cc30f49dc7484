//! Where a live peer stands.
use relay_model::Label;

/// What a live peer is found by, and its key in the slab.
#[derive(Clone, Copy, Drop)]
pub(crate) struct Place {
    /// The number of the peer.
    pub number: u32,
    /// Its label.
    pub label: Label,
    /// Its key in the slab.
    pub key: usize,
}
