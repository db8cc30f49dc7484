//! What a relay says of the seat.
ghost use Rattle.std.specs.Prelude.{◌≡◌, List};
ghost use Rattle.relay_model.specs.declared.act.Act.{Act};
ghost use Rattle.relay_model.specs.Idle.{history};
ghost use Rattle.relay_core.specs.Stands.{StandsFor};
ghost use Rattle.relay_reasons.specs.Seat.{seat};

use relay_core::Relay;
use relay_model::Label;

/// Who holds and who serves the seat at a moment, with the counts by which a serial is judged.
#[derive(Clone, Copy, Debug, PartialEq, Eq)]
pub struct Seat {
    /// The field that holds the seat.
    pub holder: Option<Label>,
    /// How often that field committed, modulo 2^32 (`zwp_text_input_v3.done`).
    pub commits: Option<u32>,
    /// The method that serves the seat.
    pub serving: Option<Label>,
    /// How many dones that method was told, modulo 2^32; 0 where none serves.
    pub dones: u32,
    /// How many of them in the present activation, at most 2^32; 0 where none stands.
    pub since: u64,
}

/// The seat as the acts so far left it.
pub fn seat_now(relay: &Relay) -> Seat
    ensures { (log : List Act) → StandsFor relay.now log → result ≡ seat (history log) }
{
    Seat {
        holder: relay.holder(),
        commits: relay.holder_commits(),
        serving: relay.serving(),
        dones: relay.dones(),
        since: relay.dones_since(),
    }
}
