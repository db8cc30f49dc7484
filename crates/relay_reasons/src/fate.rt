//! What a batch comes to.
ghost use Rattle.std.specs.Prelude.{◌≡◌, List};
ghost use Rattle.relay_model.specs.declared.act.Act.{Act};
ghost use Rattle.relay_model.specs.Idle.{history};
ghost use Rattle.relay_core.specs.Stands.{StandsFor};
ghost use Rattle.relay_reasons.specs.Fate.{fate};
ghost use Rattle.relay_reasons.specs.Counted.{dones_ago, reason_by, fate_on};

use crate::seat::{Seat, seat_now};
use relay_core::Relay;
use relay_model::Label;

/// Why a batch that a method commits (`zwp_input_method_v2.commit`) is relayed to no field.
#[derive(Clone, Copy, Debug, PartialEq, Eq)]
pub enum Reason {
    /// The method doesn't serve the seat.
    NotServing,
    /// It serves, but no activation stands: no field holds the seat.
    NoActivation,
    /// The serial names no done that the method was told.
    NamesNoDone,
    /// The serial names a done of an earlier activation.
    EarlierActivation,
}

/// What a batch that a method commits comes to.
#[derive(Clone, Copy, Debug, PartialEq, Eq)]
pub enum BatchFate {
    /// It is relayed to the field that holds the seat, with the count of that field's commits,
    /// modulo 2^32 (`zwp_text_input_v3.done`).
    Relayed { field: Label, count: u32 },
    /// It is relayed to no field.
    Unrelayed(Reason),
}

// Why a batch with the serial isn't relayed in an activation that stands, if so.
fn reason_by(dones: u32, since: u64, serial: u32) -> Option<Reason>
    ensures { result ≡ reason_by dones since (dones_ago dones serial) }
{
    let dones_ago = dones.wrapping_sub(serial);
    if dones_ago >= dones {
        Some(Reason::NamesNoDone)
    } else if (dones_ago as u64) < since {
        None
    } else {
        Some(Reason::EarlierActivation)
    }
}

// What a batch of the method with the serial comes to on such a seat.
fn fate_on(seat: Seat, method: Label, serial: u32) -> BatchFate
    ensures { result ≡ fate_on seat method serial }
{
    if seat.serving != Some(method) {
        return BatchFate::Unrelayed(Reason::NotServing);
    }
    let (Some(field), Some(count)) = (seat.holder, seat.commits) else {
        return BatchFate::Unrelayed(Reason::NoActivation);
    };
    match reason_by(seat.dones, seat.since, serial) {
        Some(reason) => BatchFate::Unrelayed(reason),
        None => BatchFate::Relayed { field, count },
    }
}

/// What the batch comes to that the method commits next, with this serial: asked before the relay
/// takes that act. Of a label that names no live method it says `NotServing`.
pub fn batch_fate(relay: &Relay, method: Label, serial: u32) -> BatchFate
    ensures { (log : List Act) → StandsFor relay.now log →
        result ≡ fate (history log) method serial }
{
    // No more dones were told than acts were taken, so their count says how many there were.
    let _acts = relay.acts();
    fate_on(seat_now(relay), method, serial)
}
