//! Where tests hold a reader.

/// Is told of each step of a reader before it takes the lock, and after it was answered. The real
/// one does nothing; a test's may wait.
pub trait Gate {
    /// The reader of the peer is about to submit its step of that number, from 1.
    fn before(&self, peer: u32, step: u64);

    /// The step was answered.
    fn after(&self, peer: u32, step: u64);
}
