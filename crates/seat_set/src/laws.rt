//! Laws of what lines play, over the definitions alone.
ghost use Rattle.seat_set.specs.Laws.{SessionLaw, PrintedSteps};

/// The session law: for every list of lines, the journal that they lead to is the history of its
/// outer steps. So the relay law speaks of it.
pub fn session_law()
    ensures law { SessionLaw }
{}

/// The line of a printed step plays that step alone: the line of a join where fewer than 64 peers
/// are alive, that of a live peer's step where it has no unread bytes, and that of a take where as
/// many bytes are stored. Each line of the shell does.
pub fn printed_steps()
    ensures law { PrintedSteps }
{}
