//! The time since the start of a bench.
use std::time::{Clock, Instant};

/// Nanoseconds since then, or 0 where the clock can't be read.
pub fn since<R: Clock>(rt: &R, start: &Instant) -> u64 {
    match start.elapsed(rt) {
        Ok(gone) => gone
            .as_secs()
            .saturating_mul(1_000_000_000)
            .saturating_add(gone.subsec_nanos() as u64),
        Err(_) => 0,
    }
}
