//! The writing to a peer's link.
ghost use Rattle.std.specs.Prelude.{◌≡◌, ◌≤◌, ℕ, true, false, List, Option, Some};
ghost use Rattle.wio_core.specs.Io.{Rose, StaysQuiet};
ghost use Rattle.turn_lock.specs.Pairs.{NoneOf};
ghost use Rattle.hub_lock.specs.Histories.{writer_of};
ghost use Rattle.hub_lock.specs.Passes.{IsOf};
ghost use Rattle.hub_lock.specs.Calls.{pass_having_seen};
ghost use Rattle.peer_link.specs.Made.{SawMore};
ghost use Rattle.peer_link.specs.WritesPeer.{is_cut, WritesPeer};
ghost use Rattle.peer_link.specs.Written.{Writing, WritesOn, has_failed};

use crate::ends::WriteEnd;
use broker_core::Took;
use desc_frame::FrameWriter;
use hub_lock::{Hub, Room, WriterPass};
use std::sync::Wait;
use wio_core::{Failed, Sink};

// Takes once, and writes it as a frame.
fn write_next<R: Wait, K: Sink>(
    rt: &R,
    hub: &Hub,
    pass: &mut WriterPass,
    sink: &mut K,
    room: &mut Room,
) -> Result<(), WriteEnd>
    requires own { IsOf hub.now pass.old.seat }
    requires writes { writer_of pass.old.seat.seen pass.old.peer ≡ Some pass.old.seat.number }
    ensures pass { pass.new ≡ pass_having_seen pass.old pass.new.seat.seen }
    ensures saw { SawMore hub.now.limits pass.old.seat.seen pass.new.seat.seen }
    ensures writes_on { (held : Option (List ℕ))
        → Writing hub.now.limits pass.old held (K.held sink.old)
        → WritesOn hub.now.limits pass.new held (K.held sink.new) result }
    ensures quiet { StaysQuiet (K.held sink.old) (K.held sink.new) }
    ensures never_falls { K.fault_count sink.old ≤ K.fault_count sink.new }
    ensures cause { has_failed result ≡ true
        → Rose (K.fault_count sink.old) (K.fault_count sink.new) }
    ensures no_fault { has_failed result ≡ false
        → K.fault_count sink.new ≡ K.fault_count sink.old }
{
    match hub.wait_take_into(rt, pass, room) {
        Took::Bytes(_, _) => match FrameWriter::put(sink, room.bytes(), room.tokens()) {
            Ok(()) => Ok(()),
            Err(Failed) => Err(WriteEnd::WriteFault),
        },
        Took::Closed => Err(WriteEnd::Closed),
        Took::JournalFull(kept) => Err(WriteEnd::JournalFull(kept)),
        Took::NoMemory => Err(WriteEnd::NoMemory),
        Took::NoPeer | Took::Empty => unreachable!(),
    }
}

/// Takes what is stored for the pass's peer, as it comes, and writes what each take gave as one
/// frame, up to the first write that fails: after that it takes nothing.
///
/// `Closed` comes where the peer has ended and all was taken, `WriteFault` where a write failed,
/// `JournalFull` where the journal was full for a take; `NoMemory` may come at any take.
///
/// After another end than `Closed` nobody takes what is stored for the peer any more: whoever can't
/// write to a link has to see to it that the peer ends, as by a sink that hangs up where a write
/// fails, so that the link's reader comes to its end and says that the link is gone.
/// (Wait: it promises what it does if it returns.)
pub fn write_peer<R: Wait, K: Sink>(
    rt: &R,
    hub: &Hub,
    pass: &mut WriterPass,
    sink: &mut K,
) -> WriteEnd
    requires own { IsOf hub.now pass.old.seat }
    requires fresh { NoneOf pass.old.seat.number pass.old.seat.seen }
    ensures pass { pass.new ≡ pass_having_seen pass.old pass.new.seat.seen }
    ensures saw { SawMore hub.now.limits pass.old.seat.seen pass.new.seat.seen }
    ensures law { WritesPeer hub.now.limits pass.new
        (K.held sink.old) (K.held sink.new) result }
    ensures quiet { StaysQuiet (K.held sink.old) (K.held sink.new) }
    ensures never_falls { K.fault_count sink.old ≤ K.fault_count sink.new }
    ensures cause { is_cut result ≡ true
        → Rose (K.fault_count sink.old) (K.fault_count sink.new) }
    ensures no_fault { is_cut result ≡ false
        → K.fault_count sink.new ≡ K.fault_count sink.old }
{
    // Whose writer the pass is, its contract tells with the number.
    let _ = pass.peer();
    let mut room = hub.room();
    for _ in rt.forever() {
        if let Err(end) = write_next(rt, hub, pass, sink, &mut room) {
            return end;
        }
    }
    unreachable!()
}
