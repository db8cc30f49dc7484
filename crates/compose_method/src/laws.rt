//! What presses type together. The body is empty: the law is the contract.
ghost use Rattle.compose_method.specs.Presses.{PressesGoOn};

/// Any list of presses of an active method, behind those since its activation, goes on to what all
/// of them type: the strings of its batches, one behind the other, are what they add, what waits is
/// what waits of all, and after one press or more the preedit is the own texts of the keys that
/// wait, whatever it was before. Behind an activation nothing waits, so a list then types what its
/// keys type.
pub fn presses_go_on()
    ensures { PressesGoOn }
{}
