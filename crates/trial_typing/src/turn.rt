//! What a job found when it took and answered once.

/// What a job found when it took and answered once.
#[derive(Clone, Copy, Debug, PartialEq, Eq)]
pub enum Turn {
    /// Something was taken, and answered.
    More,
    /// Nothing was stored.
    Quiet,
    /// The peer has ended: it submits and takes no more.
    Ended,
}
