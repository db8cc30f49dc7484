//! A gate that holds nobody.
use serve_run::Gate;

/// Holds nobody.
#[derive(Drop)]
pub struct OpenGate;

impl Gate for OpenGate {
    fn before(&self, _peer: u32, _step: u64) {}

    fn after(&self, _peer: u32, _step: u64) {}
}
