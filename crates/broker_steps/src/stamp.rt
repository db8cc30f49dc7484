//! When a step came, and through which link.

/// When a step came, and through which link. It stands beside a step and changes nothing of what the
/// step does.
#[derive(Clone, Copy, Debug, PartialEq, Eq)]
pub struct Stamp {
    /// The moment at which the step came. Its unit is the recorder's; moments never fall.
    pub moment: u64,
    /// The number of the link or job that gave the step. 0 stands for none.
    pub author: u64,
}
