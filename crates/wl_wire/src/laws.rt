//! A law of the definitions, proved where its function stands.
ghost use Rattle.std.specs.Prelude.{ℕ, List};
ghost use Rattle.wl_wire.specs.Messages.{messages, IsLongest};

/// `messages` finds the longest list of whole messages with good sizes that bytes begin with. The body is empty: the
/// law is the contract.
pub fn messages_are_longest()
    ensures { (bytes : List ℕ) → IsLongest bytes (messages bytes) }
{}
