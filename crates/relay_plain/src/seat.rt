//! Who has the seat: the field that holds it and the method that serves. Both are found together, so that one look back
//! is enough.
ghost use Rattle.std.specs.Prelude.{◌≡◌, ◌<◌, ◌^◌, length};
ghost use Rattle.relay_model.specs.Activation.{serving};
ghost use Rattle.relay_plain.specs.Newest.{at_newest};
ghost use Rattle.relay_plain.specs.Seat.{seat_of, seat_before};

use crate::focus::where_alive;
use crate::hold::holder_after;
use crate::objects::next;
use relay_model::{Act, Label};

/// The field that holds, and the method that serves.
#[derive(Clone, Copy)]
pub struct Seat {
    /// The field that holds the seat, if one does.
    pub holder: Option<Label>,
    /// The method that serves, if one does.
    pub serving: Option<Label>,
}

// The seat before any act.
pub(crate) const EMPTY_SEAT: Seat = Seat {
    holder: None,
    serving: None,
};

// The method that serves after the newest act, where this one served before.
pub(crate) fn serving_after(log: &[Act], before: Option<Label>) -> Option<Label>
    requires short { length log.now < 2 ^ 32 }
    requires before { before ≡ at_newest (λ act older. serving older) before log.now }
    ensures { result ≡ serving log.now }
{
    match log {
        [] => None,
        [act, older @ ..] => match act {
            Act::Method { .. } if before.is_none() => Some(next(older) as u32),
            Act::Method { .. } => before,
            _ => where_alive(log, before),
        },
    }
}

/// The method that serves: a live one that was made while no method served.
pub fn serving(log: &[Act]) -> Option<Label>
    requires { length log.now < 2 ^ 32 }
    ensures { result ≡ serving log.now }
{
    match log {
        [] => None,
        [_, older @ ..] => serving_after(log, serving(older)),
    }
}

/// The seat after the newest act, where it was this before.
pub fn seat_after(log: &[Act], before: Seat) -> Seat
    requires short { length log.now < 2 ^ 32 }
    requires before { before ≡ seat_before log.now before }
    ensures { result ≡ seat_of log.now }
{
    match log {
        [] => EMPTY_SEAT,
        [_, ..] => Seat {
            holder: holder_after(log, before.holder),
            serving: serving_after(log, before.serving),
        },
    }
}

/// The seat after the acts of a history.
pub fn seat_at(log: &[Act]) -> Seat
    requires { length log.now < 2 ^ 32 }
    ensures { result ≡ seat_of log.now }
{
    match log {
        [] => EMPTY_SEAT,
        [_, older @ ..] => seat_after(log, seat_at(older)),
    }
}
