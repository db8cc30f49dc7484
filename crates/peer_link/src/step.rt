//! One step of a peer's link.
ghost use Rattle.std.specs.Prelude.{◌≡◌, ◌∷◌, [], Err, OnOk, IfErr};
ghost use Rattle.broker_steps.specs.declared.step.Step.TheVariants as steps;
ghost use Rattle.broker_core.specs.Broker.{peer_entry};
ghost use Rattle.broker_steps.specs.Ranges.{IsPeerStep};
ghost use Rattle.hub_lock.specs.Passes.{IsOf};
ghost use Rattle.hub_lock.specs.Calls.{LegalStep, pass_having_seen};
ghost use Rattle.peer_link.specs.Made.{SawMore};
ghost use Rattle.peer_link.specs.Submits.{Submits, EndedIfBad, IsRefusal};

use crate::ends::ReadEnd;
use broker_core::{Applied, Refused};
use broker_steps::PeerStep;
use hub_lock::{Gate, Hub, ReaderPass};
use std::sync::Wait;

// Submits a step, and tells the gate before and after.
fn submit_gated<R: Wait, G: Gate>(
    rt: &R,
    hub: &Hub,
    pass: &mut ReaderPass,
    gate: &G,
    step: PeerStep,
) -> Result<Applied, Refused>
    requires own { IsOf hub.now pass.old.seat }
    requires step { IsPeerStep step }
    ensures pass { pass.new ≡ pass_having_seen pass.old pass.new.seat.seen }
    ensures legal { LegalStep hub.now.limits pass.old.seat pass.new.seat.seen
        (steps.Peer pass.old.peer step) result }
    ensures joined { ¬ (result ≡ Err Refused.NoPeer) }
{
    let peer = pass.peer();
    let number = pass.steps().saturating_add(1);
    gate.before(peer, number);
    let answer = hub.submit_own(rt, pass, step);
    gate.after(peer, number);
    answer
}

/// Submits a step, and says how the link ends where it wasn't taken.
pub(crate) fn submit_step<R: Wait, G: Gate>(
    rt: &R,
    hub: &Hub,
    pass: &mut ReaderPass,
    gate: &G,
    step: PeerStep,
) -> Result<(), ReadEnd>
    requires own { IsOf hub.now pass.old.seat }
    requires step { IsPeerStep step }
    ensures pass { pass.new ≡ pass_having_seen pass.old pass.new.seat.seen }
    ensures saw { SawMore hub.now.limits pass.old.seat.seen pass.new.seat.seen }
    ensures made { Submits hub.now.limits pass.old pass.new
        (peer_entry pass.old.peer step ∷ []) result }
    ensures ended { OnOk result (EndedIfBad hub.now.limits pass.new step) }
    ensures refusal { IfErr result (IsRefusal step) }
{
    match submit_gated(rt, hub, pass, gate, step) {
        Ok(_) => Ok(()),
        Err(Refused::Ended(cause)) => Err(ReadEnd::Ended(cause)),
        Err(Refused::JournalFull(kept)) => Err(ReadEnd::JournalFull(kept)),
        Err(Refused::NoMemory) => Err(ReadEnd::NoMemory),
        Err(Refused::NoPeer) => unreachable!(),
    }
}
