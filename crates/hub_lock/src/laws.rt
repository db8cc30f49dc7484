//! What holds of all calls of a hub. The body does nothing: the law is the contract.
ghost use Rattle.hub_lock.specs.BellLaw.{TakersAreRung};

/// Where the answer to a take turns from `Empty` into another, the call by which it does rings the
/// bell of that peer.
pub fn takers_are_rung()
    ensures law { TakersAreRung }
{}
