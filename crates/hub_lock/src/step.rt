//! The steps of a hub's history. They are for contracts: no value of this type is made.
use broker_model::Entry;

/// An outer step: an entry of the journal that no settling appended.
pub struct OuterStep {
    pub entry: Entry,
    /// Of a join, the number of the pass of the peer's reader.
    pub reader: Option<u64>,
}
