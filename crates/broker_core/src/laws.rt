//! What the calls of the shared state lead to, over the definitions alone.
ghost use Rattle.broker_core.specs.Calls.{CallLaw};

/// After any calls that were answered with success, also those that let entries go, the journal is
/// the history of their steps, and its stamps are those that the definitions have for the stamps
/// that the calls gave. Each call's own clause says that it leads to `with_step` of the state
/// before, or to `letting_go`.
pub fn call_law()
    ensures law { CallLaw }
{}
