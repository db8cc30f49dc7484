//! What holds of several seats, over the definitions alone: what a seat is told is what a session of
//! its lines alone is told. The bodies are empty: the laws are the contracts.
#![tactic(auto)]

ghost use Rattle.law_seats.specs.SeatsLaws.{SeatsAreToldAlone, SeatsAreIsolated};
ghost use Rattle.law_seats.specs.SeatsFronts.{SeatsAreToldFronts};

/// What `replay-seats` tells a seat is what `replay` writes of the session of that seat: of the lines
/// that are for it and of those for all, in their order. Where the input ends before its line `end`,
/// or is cut off, or a line is bad, it is a front of that.
pub fn seats_are_told_alone()
    ensures { SeatsAreToldAlone }
{}

/// No seat shows on another: of two inputs with the same limits that give a seat the same lines,
/// where the one is played to its `end` the other tells that seat the same, and a front of it where
/// it isn't played to its own, whatever they give the other seats.
pub fn seats_are_isolated()
    ensures { SeatsAreIsolated }
{}

/// Where only a front of the output is written, as a read or a write failed or there was no memory,
/// what its whole lines tell a seat is a front of what `replay` writes of the session of that seat.
pub fn seats_are_told_fronts()
    ensures { SeatsAreToldFronts }
{}
