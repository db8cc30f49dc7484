//! A link in memory.
ghost use Rattle.std.specs.Prelude.{◌≡◌, []};

use crate::door::Door;
use wio_core::{MemSink, MemSource};

/// A link in memory that waits at a door. Its source gave nothing and its sink holds nothing, and
/// neither failed.
#[derive(Drop)]
pub struct MemLink {
    /// The door at which it waits.
    pub door: Door,
    /// What is read of it.
    pub source: MemSource,
    /// What is written to it.
    pub sink: MemSink,
    pub ghost gave: { source.given ≡ [] },
    pub ghost holds: { sink.held ≡ [] },
    pub ghost source_faults: { source.faults ≡ 0 },
    pub ghost sink_faults: { sink.faults ≡ 0 },
}
