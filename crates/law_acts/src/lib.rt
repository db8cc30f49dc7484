//! What holds of lists of acts alone, by the definitions. The bodies do nothing: the laws are the
//! contracts.
#![tactic(auto)]

ghost use Rattle.law_acts.specs.FewKeys.{BoardsHaveFewKeys, JournalsHaveFewKeys};
ghost use Rattle.law_acts.specs.Meant.{ActivationsKeepTheirField, BatchesAreMeant};

/// An activation keeps its field: whoever holds the seat while it stands held it ever since it
/// began. So a batch that is relayed is told to the field that held the seat when its method was
/// told the done that the batch's serial names, and to no field that took the seat since.
pub fn batches_are_meant()
    ensures fields { ActivationsKeepTheirField }
    ensures batches { BatchesAreMeant }
{}

/// At most 64 keys are down on each virtual keyboard, after any acts and so after any journal: a
/// press of another is idle.
#[tactic(auto, using(crate::proofs::FewKeys::boards_have_few_keys, crate::proofs::FewKeys::journals_have_few_keys))]
pub fn boards_have_few_keys()
    ensures acts { BoardsHaveFewKeys }
    ensures journals { JournalsHaveFewKeys }
{}
