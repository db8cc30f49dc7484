//! What holds of what is said of batches, by the definitions alone. The body does nothing: the laws
//! are the contract.
ghost use Rattle.lines_explained.specs.ReasonLaws.{ReasonsGiven, QueuedRelayed, NoRoomGiven};
ghost use Rattle.lines_explained.specs.ReasonLaws.{PutIsOwn, SaidIsQueued};

/// Of each entry that commits a batch: a reason is given exactly where its condition holds, and none
/// exactly where the batch was relayed and its group was put; where it was relayed and no group was
/// put, want of room is the reason. The group that was put is that of the batch's own field, so what
/// is queued for each field grows exactly by the batches that are said to be queued for it.
pub fn reasons_law()
    ensures reasons { ReasonsGiven }
    ensures relayed { QueuedRelayed }
    ensures no_room { NoRoomGiven }
    ensures own { PutIsOwn }
    ensures queued { SaidIsQueued }
{}
