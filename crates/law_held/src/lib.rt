//! What a session plays can be held, over the definitions alone. The bodies do nothing: the laws
//! are the contracts.
#![tactic(auto)]

ghost use Rattle.law_held.specs.Held.{LinesAreHeld, SessionsAreHeld, SessionsAreRead};

/// The journal that lines in their grammar play is one that a program can hold, of fewer than 2^32
/// entries.
pub fn lines_are_held()
    ensures law { LinesAreHeld }
{}

/// So is the journal of which `replay` writes the transcript, whatever session it reads: what holds
/// of each such journal, as that all it tells can be written and is read, holds of it.
pub fn sessions_are_held()
    ensures law { SessionsAreHeld }
{}

/// And what that journal puts for any peer is read in turn, message for message, as what it tells the
/// peer, by what ids mean to the client when the bytes come.
pub fn sessions_are_read()
    ensures law { SessionsAreRead }
{}
