//! What holds of what batches come to, by the definitions alone. The bodies do nothing: the laws
//! are the contracts.
ghost use Rattle.relay_reasons.specs.Laws.{ActivationLaw, BatchesRelayed, ReasonsHold, RelayedFresh};

/// A reason is given exactly where its condition holds; none is given exactly where the batch is
/// fresh, and then the field that holds the seat is told it, with its count; and what is relayed to
/// each field is more by that one group exactly where its batch is said to be relayed to it.
#[tactic(auto, using(crate::proofs::FateLaws::reasons_hold, crate::proofs::FateLaws::relayed_fresh, crate::proofs::FateLaws::batches_relayed))]
pub fn batch_law()
    ensures reasons { ReasonsHold }
    ensures fresh { RelayedFresh }
    ensures relayed { BatchesRelayed }
{}

/// While a method serves, an activation stands exactly while a field holds the seat.
#[tactic(auto, using(crate::proofs::ActivationHeld::activation_law))]
pub fn activation_law()
    ensures { ActivationLaw }
{}
