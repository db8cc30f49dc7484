//! A frame of a peer's link: its tokens, and then what its bytes complete.
ghost use Rattle.std.specs.Prelude.{◌≡◌, ◌++◌, ◌≤◌, None, Err, length, IfOk};
ghost use Rattle.desc_frame.specs.Frames.{frame};
ghost use Rattle.wl_wire.specs.Messages.{bad_size_at};
ghost use Rattle.wl_wire.specs.Streams.{begun};
ghost use Rattle.hub_lock.specs.Passes.{IsOf};
ghost use Rattle.hub_lock.specs.Calls.{pass_having_seen};
ghost use Rattle.peer_link.specs.Made.{SawMore};
ghost use Rattle.peer_link.specs.LinkSteps.{token_steps, frame_steps};
ghost use Rattle.peer_link.specs.Submits.{Submits, LeavesOff};
ghost use Rattle.peer_link.specs.ReadsFrame.{MakesFrame};

use crate::ends::ReadEnd;
use crate::messages::{Ahead, submit_messages};
use crate::step::submit_step;
use broker_cutter::Cutter;
use broker_steps::{PeerStep, TokenList};
use hub_lock::{Gate, Hub, ReaderPass};
use relay_model::EndCause;
use std::alloc::Global;
use std::sync::Wait;

// The tokens of a frame, where it has any.
fn submit_tokens<R: Wait, G: Gate>(
    rt: &R,
    alloc: Global,
    hub: &Hub,
    pass: &mut ReaderPass,
    gate: &G,
    tokens: &[u32],
) -> Result<(), ReadEnd>
    requires own { IsOf hub.now pass.old.seat }
    requires few { length tokens.now ≤ 256 }
    ensures pass { pass.new ≡ pass_having_seen pass.old pass.new.seat.seen }
    ensures saw { SawMore hub.now.limits pass.old.seat.seen pass.new.seat.seen }
    ensures made { Submits hub.now.limits pass.old pass.new
        (token_steps pass.old.peer tokens.now) result }
{
    if tokens.is_empty() {
        return Ok(());
    }
    let Ok(list) = TokenList::from_slice(alloc, tokens) else {
        return Err(ReadEnd::NoMemory);
    };
    submit_step(rt, hub, pass, gate, PeerStep::Tokens(list))
}

// Submits the steps of a frame: its tokens, where it has any, and then each message, and the bad
// size, that its bytes complete.
fn submit_frame<R: Wait, G: Gate>(
    rt: &R,
    alloc: Global,
    hub: &Hub,
    pass: &mut ReaderPass,
    gate: &G,
    cutter: &mut Cutter,
    bytes: &[u8],
    tokens: &[u32],
) -> Result<Ahead, ReadEnd>
    requires own { IsOf hub.now pass.old.seat }
    requires few { length tokens.now ≤ 256 }
    requires good { bad_size_at (begun cutter.old) ≡ None }
    ensures pass { pass.new ≡ pass_having_seen pass.old pass.new.seat.seen }
    ensures saw { SawMore hub.now.limits pass.old.seat.seen pass.new.seat.seen }
    ensures made { Submits hub.now.limits pass.old pass.new
        (frame_steps pass.old.peer (begun cutter.old) (frame bytes.now tokens.now)) result }
    ensures ahead { IfOk result (LeavesOff hub.now.limits pass.new
        (begun cutter.old ++ bytes.now) (begun cutter.new)) }
{
    submit_tokens(rt, alloc, hub, pass, gate, tokens)?;
    submit_messages(rt, alloc, hub, pass, gate, cutter, bytes)
}

/// Submits the steps of a frame, and says how the link ends where it ends with it.
pub(crate) fn play_frame<R: Wait, G: Gate>(
    rt: &R,
    alloc: Global,
    hub: &Hub,
    pass: &mut ReaderPass,
    gate: &G,
    cutter: &mut Cutter,
    bytes: &[u8],
    tokens: &[u32],
) -> Result<(), ReadEnd>
    requires own { IsOf hub.now pass.old.seat }
    requires few { length tokens.now ≤ 256 }
    requires good { bad_size_at (begun cutter.old) ≡ None }
    ensures pass { pass.new ≡ pass_having_seen pass.old pass.new.seat.seen }
    ensures saw { SawMore hub.now.limits pass.old.seat.seen pass.new.seat.seen }
    ensures makes { MakesFrame hub.now.limits pass.old pass.new (begun cutter.old)
        (begun cutter.new) (frame bytes.now tokens.now) result }
    ensures unread { ¬ (result ≡ Err ReadEnd.ReadFault) }
{
    match submit_frame(rt, alloc, hub, pass, gate, cutter, bytes, tokens) {
        Ok(Ahead::More) => Ok(()),
        Ok(Ahead::Nothing) => Err(ReadEnd::Ended(EndCause::Bad)),
        Err(end) => Err(end),
    }
}
