//! What follows of an audit that says yes, over the definitions alone. The bodies do nothing: the
//! laws are the contracts.
#![tactic(auto)]

ghost use Rattle.law_audit.specs.OwedGroups.{GroupsAreQueued, GroupsAreWhole, OwedAreGroups};
ghost use Rattle.law_audit.specs.SeenOwed.{SeenIsOwed};
ghost use Rattle.law_audit.specs.Yes.{YesIsOwed};

/// What a journal of entries that a program can hold owes an application: its whole field messages
/// are the groups that were put for its fields, one behind the other. Each group is whole, its one
/// done at its end, and those of one field are what was queued for it, in order and once each.
pub fn owed_are_groups()
    ensures owed { OwedAreGroups }
    ensures whole { GroupsAreWhole }
    ensures queued { GroupsAreQueued }
{}

/// Where each line of an audit is as it should be, what was sent to an application since it joined
/// is a front of those groups: each done ends a whole group that was queued for a field, and the
/// groups seen of each field are the first that were queued for it.
pub fn seen_is_owed()
    ensures { SeenIsOwed }
{}

/// So it is of each input for which `audit` says yes, whatever its bytes are: its lines are as they
/// should be, and the count that is written is that of their dones.
pub fn yes_is_owed()
    ensures { YesIsOwed }
{}
