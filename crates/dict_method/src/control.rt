//! Keys that choose a candidate or erase, and spell nothing.

/// What a control key does.
#[derive(Clone, Copy, Debug, PartialEq, Eq)]
pub enum Control {
    /// Chooses the candidate with this number, from 1.
    Choose(u8),
    /// Takes back the last key of the code.
    Erase,
}

/// A key, and what it does.
#[derive(Clone, Copy, Debug, Drop)]
pub struct ControlKey {
    pub key: u32,
    pub what: Control,
}
