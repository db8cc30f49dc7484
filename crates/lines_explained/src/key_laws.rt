//! What holds of what is said of keys, and of acts without effect, by the definitions alone. The
//! bodies do nothing: the laws are the contracts.
ghost use Rattle.lines_explained.specs.KeyLaws.{KeysRouted, BoardKeysRouted, PastHasNoPress};
ghost use Rattle.lines_explained.specs.KeyLaws.{NowhereHasFallen, LacksHold, ArgumentsNamed};

/// A key that isn't refused is said to go where its route leads, to a grab only where the group that
/// tells it was put. It passes by a grab that stands only where that did not get its press, and goes
/// nowhere by its route only where the grab that got it stands no more.
pub fn key_law()
    ensures keys { KeysRouted }
    ensures boards { BoardKeysRouted }
    ensures past { PastHasNoPress }
    ensures nowhere { NowhereHasFallen }
{}

/// The reason that is given of an act without effect holds.
#[tactic(auto, using(crate::proofs::LacksHold::lacks_hold))]
pub fn lack_law()
    ensures { LacksHold }
{}

/// The one object argument of a request is a surface where the request's opcode is 4, else a seat.
#[tactic(auto, using(crate::proofs::ArgumentsNamed::arguments_named))]
pub fn argument_law()
    ensures { ArgumentsNamed }
{}
