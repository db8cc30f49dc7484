//! The messages of a peer, submitted one after the other.
ghost use Rattle.std.specs.Prelude.{◌≡◌, ◌∷◌, []};
ghost use Rattle.relay_model.specs.declared.act.EndCause.{EndCause};
ghost use Rattle.broker_steps.specs.Ranges.{IsBody, IsPeerStep};
ghost use Rattle.broker_model.specs.declared.journal.Entry.TheVariants as entries;
ghost use Rattle.broker_core.specs.Broker.{peer_entry};
ghost use Rattle.hub_lock.specs.Passes.{IsOf};
ghost use Rattle.hub_lock.specs.Calls.{pass_having_seen};
ghost use Rattle.hub_calls.specs.Made.{SawMore, HasEnded, entries_by};
ghost use Rattle.hub_calls.specs.Submitted.{Submits, entries_in};

use crate::stop::PassStop;
use broker_core::Refused;
use broker_steps::PeerStep;
use hub_lock::{Hub, ReaderPass};
use relay_model::EndCause;
use std::alloc::Global;
use std::sync::Wait;
use wl_wire::{Bytes, Front, Raw, front_of};

/// What became of messages that were submitted.
#[derive(Clone, Copy, Debug, PartialEq, Eq)]
pub enum Sent {
    /// Each was taken.
    All,
    /// The peer had ended before one of them, for this cause.
    Ended(EndCause),
}

// Submits a step.
fn submit_step<R: Wait>(
    rt: &R,
    hub: &Hub,
    pass: &mut ReaderPass,
    step: &PeerStep,
) -> Result<Sent, PassStop>
    requires own { IsOf hub.now pass.old.seat }
    requires step { IsPeerStep step.now }
    ensures pass { pass.new ≡ pass_having_seen pass.old pass.new.seat.seen }
    ensures saw { SawMore hub.now.limits pass.old.seat.seen pass.new.seat.seen }
    ensures made { Submits hub.now.limits pass.old pass.new
        (peer_entry pass.old.peer step.now ∷ []) result }
    ensures ended { (cause : EndCause) → HasEnded hub.now.limits pass.old cause →
        result ≡ Ok Sent.All → ⊥ }
{
    match hub.submit(rt, pass, step) {
        Ok(_) => Ok(Sent::All),
        Err(Refused::Ended(cause)) => Ok(Sent::Ended(cause)),
        Err(Refused::JournalFull(kept)) => Err(PassStop::JournalFull(kept)),
        Err(Refused::NoMemory) => Err(PassStop::NoMemory),
        Err(Refused::NoPeer) => unreachable!(),
    }
}

// Submits a whole message, whose body is copied into the step.
fn submit_message<R: Wait>(
    rt: &R,
    alloc: Global,
    hub: &Hub,
    pass: &mut ReaderPass,
    message: &Raw<'_>,
) -> Result<Sent, PassStop>
    requires own { IsOf hub.now pass.old.seat }
    requires body { IsBody message.now.body.now }
    ensures pass { pass.new ≡ pass_having_seen pass.old pass.new.seat.seen }
    ensures saw { SawMore hub.now.limits pass.old.seat.seen pass.new.seat.seen }
    ensures made { Submits hub.now.limits pass.old pass.new
        (entries.Message pass.old.peer message.now.id message.now.opcode message.now.body.now
        ∷ []) result }
    ensures ended { (cause : EndCause) → HasEnded hub.now.limits pass.old cause →
        result ≡ Ok Sent.All → ⊥ }
{
    let Ok(body) = Bytes::from_slice(alloc, message.body) else {
        return Err(PassStop::NoMemory);
    };
    let step = PeerStep::Message {
        id: message.id,
        opcode: message.opcode,
        body,
    };
    submit_step(rt, hub, pass, &step)
}

/// Submits each whole message that the bytes begin with, one a step, as long as the peer hasn't
/// ended: where the pass has seen its end, none is taken. Bytes of a message that isn't whole are left out.
///
/// `JournalFull` comes where the journal is full for a message, `NoMemory` may come at each.
/// (Wait: it promises what it does if it returns.)
pub fn submit_messages<R: Wait>(
    rt: &R,
    alloc: Global,
    hub: &Hub,
    pass: &mut ReaderPass,
    bytes: &[u8],
) -> Result<Sent, PassStop>
    requires own { IsOf hub.now pass.old.seat }
    ensures pass { pass.new ≡ pass_having_seen pass.old pass.new.seat.seen }
    ensures saw { SawMore hub.now.limits pass.old.seat.seen pass.new.seat.seen }
    ensures made { Submits hub.now.limits pass.old pass.new
        (entries_in pass.old.peer bytes.now) result }
    ensures ended { (cause : EndCause) → HasEnded hub.now.limits pass.old cause →
        entries_by pass.new.seat ≡ entries_by pass.old.seat }
{
    let mut rest = bytes;
    'messages: while let Front::Whole(message, used) = front_of(rest) {
        let (_, more) = rest.split_at(used);
        let sent = submit_message(rt, alloc, hub, pass, &message)?;
        if let Sent::Ended(_) = sent {
            return Ok(sent);
        }
        rest = more;
    }
    Ok(Sent::All)
}
