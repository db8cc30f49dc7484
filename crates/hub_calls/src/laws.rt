//! Which passes made the steps of a hub's history. The bodies are empty: the laws are the contracts.
ghost use Rattle.hub_calls.specs.Counted.{StepsAreOfPasses, StepsStay, SeenStays, OnlyRootJoins};

/// Where all passes that were made are back, and as many steps as the history has are those of the
/// root and of these passes, each step is the root's or one of theirs.
#[tactic(auto, using(crate::proofs::PassesCounted::steps_are_of_passes))]
pub fn steps_are_of_passes()
    ensures { StepsAreOfPasses }
{}

/// What a pass made by the time that it came back is all that it made, in whatever follows.
#[tactic(auto, using(crate::proofs::PassesCounted::steps_stay))]
pub fn steps_stay()
    ensures { StepsStay }
{}

/// What was seen of a history that was seen was seen.
#[tactic(auto, using(crate::proofs::PassesCounted::seen_stays))]
pub fn seen_stays()
    ensures { SeenStays }
{}

/// Where no pass but the root joined a peer, each join is the root's.
#[tactic(auto, using(crate::proofs::PassesCounted::only_root_joins))]
pub fn only_root_joins()
    ensures { OnlyRootJoins }
{}
