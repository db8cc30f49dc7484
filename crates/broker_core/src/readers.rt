//! The relay behind the shared state.
use crate::shared::Shared;
use relay_core::Relay;

impl Shared {
    ghost use Rattle.relay_core.specs.Stands.{StandsFor};
    ghost use Rattle.broker_model.specs.Resolve.{resolve};

    /// The relay of the seat, as it stands after the acts of the journal.
    pub fn relay(&self) -> &Relay
        ensures stands { StandsFor result.now (resolve self.now.journal) }
    {
        &self.state.relay
    }
}
