//! The messages that the bytes of a link complete.
ghost use Rattle.std.specs.Prelude.{◌≡◌, ◌++◌, ◌∷◌, [], None, IfOk, OnOk};
ghost use Rattle.wl_wire.specs.Messages.{bad_size_at, IsBad};
ghost use Rattle.wl_wire.specs.Streams.{begun};
ghost use Rattle.broker_steps.specs.Ranges.{IsBody};
ghost use Rattle.broker_model.specs.declared.journal.Entry.TheVariants as entries;
ghost use Rattle.broker_cutter.specs.Steps.{steps_in};
ghost use Rattle.hub_lock.specs.Passes.{IsOf};
ghost use Rattle.hub_lock.specs.Calls.{pass_having_seen};
ghost use Rattle.peer_link.specs.Made.{SawMore};
ghost use Rattle.peer_link.specs.Submits.{Submits, LeavesOff, HasEndedBad};

use crate::ends::ReadEnd;
use crate::step::submit_step;
use broker_cutter::{Cut, Cutter};
use broker_steps::PeerStep;
use hub_lock::{Gate, Hub, ReaderPass};
use std::alloc::Global;
use std::sync::Wait;
use wl_wire::{Bytes, Raw};

/// Whether a peer's next bytes may give steps.
#[derive(Clone, Copy, Debug, PartialEq, Eq)]
pub(crate) enum Ahead {
    /// Those that wait go on with them.
    More,
    /// A bad size has ended the peer.
    Nothing,
}

// A whole message. Its body is copied once, into the step, which the hub takes over.
fn submit_message<R: Wait, G: Gate>(
    rt: &R,
    alloc: Global,
    hub: &Hub,
    pass: &mut ReaderPass,
    gate: &G,
    message: &Raw<'_>,
) -> Result<(), ReadEnd>
    requires own { IsOf hub.now pass.old.seat }
    requires body { IsBody message.now.body.now }
    ensures pass { pass.new ≡ pass_having_seen pass.old pass.new.seat.seen }
    ensures saw { SawMore hub.now.limits pass.old.seat.seen pass.new.seat.seen }
    ensures made { Submits hub.now.limits pass.old pass.new
        (entries.Message pass.old.peer message.now.id message.now.opcode message.now.body.now
        ∷ []) result }
{
    let Ok(body) = Bytes::from_slice(alloc, message.body) else {
        return Err(ReadEnd::NoMemory);
    };
    let step = PeerStep::Message {
        id: message.id,
        opcode: message.opcode,
        body,
    };
    submit_step(rt, hub, pass, gate, step)
}

// The header of a bad size, which ends the peer.
fn submit_bad_size<R: Wait, G: Gate>(
    rt: &R,
    hub: &Hub,
    pass: &mut ReaderPass,
    gate: &G,
    head: [u8; 8],
) -> Result<(), ReadEnd>
    requires own { IsOf hub.now pass.old.seat }
    requires bad { IsBad head }
    ensures pass { pass.new ≡ pass_having_seen pass.old pass.new.seat.seen }
    ensures saw { SawMore hub.now.limits pass.old.seat.seen pass.new.seat.seen }
    ensures made { Submits hub.now.limits pass.old pass.new
        (entries.BadSize pass.old.peer head ∷ []) result }
    ensures ended { OnOk result (HasEndedBad hub.now.limits pass.new) }
{
    submit_step(rt, hub, pass, gate, PeerStep::BadSize { head })
}

/// Submits each message, and the bad size, that the piece completes behind the bytes that wait for
/// more.
pub(crate) fn submit_messages<R: Wait, G: Gate>(
    rt: &R,
    alloc: Global,
    hub: &Hub,
    pass: &mut ReaderPass,
    gate: &G,
    cutter: &mut Cutter,
    piece: &[u8],
) -> Result<Ahead, ReadEnd>
    requires own { IsOf hub.now pass.old.seat }
    ensures pass { pass.new ≡ pass_having_seen pass.old pass.new.seat.seen }
    ensures saw { SawMore hub.now.limits pass.old.seat.seen pass.new.seat.seen }
    ensures made { Submits hub.now.limits pass.old pass.new
        (steps_in pass.old.peer (begun cutter.old ++ piece.now)) result }
    ensures ahead { IfOk result (LeavesOff hub.now.limits pass.new
        (begun cutter.old ++ piece.now) (begun cutter.new)) }
{
    let mut rest = piece;
    'messages: loop {
        match cutter.next(rest) {
            Cut::Message(message, used) => {
                submit_message(rt, alloc, hub, pass, gate, &message)?;
                let (_, more) = rest.split_at(used);
                rest = more;
            }
            Cut::Held(used) => {
                submit_message(rt, alloc, hub, pass, gate, &cutter.held())?;
                let (_, more) = rest.split_at(used);
                rest = more;
            }
            Cut::Nothing => return Ok(Ahead::More),
            Cut::BadSize(head) => {
                submit_bad_size(rt, hub, pass, gate, head)?;
                return Ok(Ahead::Nothing);
            }
        }
    }
}
