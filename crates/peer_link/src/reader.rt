//! The reading of a peer's link.
ghost use Rattle.std.specs.Prelude.{◌≡◌, ◌≢◌, ◌≤◌, ◌-◌, ℕ, List, Option, None, Err};
ghost use Rattle.wio_core.specs.Io.{Rose, StaysQuiet};
ghost use Rattle.wio_core.specs.Lines.{TookFrom};
ghost use Rattle.wl_wire.specs.Messages.{bad_size_at};
ghost use Rattle.wl_wire.specs.Streams.{begun};
ghost use Rattle.turn_lock.specs.Pairs.{NoneOf};
ghost use Rattle.hub_lock.specs.Passes.{IsOf};
ghost use Rattle.hub_lock.specs.Calls.{pass_having_seen};
ghost use Rattle.peer_link.specs.Made.{SawMore};
ghost use Rattle.peer_link.specs.ReadsPeer.{ReadsPeer, TellsNoFault};
ghost use Rattle.peer_link.specs.ReadsFrame.{ReadsFrame, ReadsLink};

use crate::ends::ReadEnd;
use crate::frames::play_frame;
use crate::step::submit_step;
use broker_cutter::Cutter;
use broker_steps::PeerStep;
use desc_frame::{FrameReader, Got};
use hub_lock::{Gate, Hub, ReaderPass};
use std::alloc::Global;
use std::sync::Wait;
use wio_core::{NoMemory, Source};

// Reads the next frame, and submits its steps.
fn read_frame<R: Wait, S: Source, G: Gate>(
    rt: &R,
    alloc: Global,
    hub: &Hub,
    pass: &mut ReaderPass,
    source: &mut S,
    gate: &G,
    cutter: &mut Cutter,
    bytes: &mut [u8; 4096],
    tokens: &mut [u32; 256],
) -> Result<(), ReadEnd>
    requires own { IsOf hub.now pass.old.seat }
    requires good { bad_size_at (begun cutter.old) ≡ None }
    ensures pass { pass.new ≡ pass_having_seen pass.old pass.new.seat.seen }
    ensures saw { SawMore hub.now.limits pass.old.seat.seen pass.new.seat.seen }
    ensures reads { (taken : List ℕ)
        × TookFrom (S.given source.old) (S.given source.new)
        (S.left source.old) (S.left source.new) taken
        × ReadsFrame hub.now.limits pass.old pass.new (begun cutter.old)
        (begun cutter.new) taken (S.left source.new) result }
    ensures given_quiet { StaysQuiet (S.given source.old) (S.given source.new) }
    ensures left_quiet { StaysQuiet (S.left source.old) (S.left source.new) }
    ensures never_falls { S.fault_count source.old ≤ S.fault_count source.new }
    ensures cause { result ≡ Err ReadEnd.ReadFault
        → Rose (S.fault_count source.old) (S.fault_count source.new) }
    ensures no_fault { result ≢ Err ReadEnd.ReadFault
        → S.fault_count source.new ≡ S.fault_count source.old }
{
    let mut reader = FrameReader::new();
    match reader.next(source, bytes, tokens) {
        Got::Bytes(n, t) => {
            let (bytes, tokens) = (&bytes[..n], &tokens[..t]);
            play_frame(rt, alloc, hub, pass, gate, cutter, bytes, tokens)
        }
        Got::End => Err(ReadEnd::Closed),
        Got::Torn(n) => Err(ReadEnd::Torn(n)),
        Got::BadFrame(n, t) => Err(ReadEnd::BadFrame(n, t)),
        Got::ReadFault => Err(ReadEnd::ReadFault),
    }
}

// Reads all frames, and says how the link ended, which its peer isn't told yet.
fn read_frames<R: Wait, S: Source, G: Gate>(
    rt: &R,
    alloc: Global,
    hub: &Hub,
    pass: &mut ReaderPass,
    source: &mut S,
    gate: &G,
) -> ReadEnd
    requires own { IsOf hub.now pass.old.seat }
    requires fresh { NoneOf pass.old.seat.number pass.old.seat.seen }
    ensures pass { pass.new ≡ pass_having_seen pass.old pass.new.seat.seen }
    ensures saw { SawMore hub.now.limits pass.old.seat.seen pass.new.seat.seen }
    ensures reads { (read : List ℕ)
        × TookFrom (S.given source.old) (S.given source.new)
        (S.left source.old) (S.left source.new) read
        × ReadsLink hub.now.limits pass.new read (S.left source.new)
        (S.fault_count source.new - S.fault_count source.old) result }
    ensures given_quiet { StaysQuiet (S.given source.old) (S.given source.new) }
    ensures left_quiet { StaysQuiet (S.left source.old) (S.left source.new) }
    ensures never_falls { S.fault_count source.old ≤ S.fault_count source.new }
    ensures cause { result ≡ ReadEnd.ReadFault
        → Rose (S.fault_count source.old) (S.fault_count source.new) }
    ensures no_fault { result ≢ ReadEnd.ReadFault
        → S.fault_count source.new ≡ S.fault_count source.old }
{
    let mut cutter = match Cutter::new(alloc) {
        Ok(cutter) => cutter,
        Err(NoMemory) => return ReadEnd::NoMemory,
    };
    let mut bytes = [0; 4096];
    let mut tokens = [0; 256];
    for _ in rt.forever() {
        if let Err(end) = read_frame(
            rt,
            alloc,
            hub,
            pass,
            source,
            gate,
            &mut cutter,
            &mut bytes,
            &mut tokens,
        ) {
            return end;
        }
    }
    unreachable!()
}

// Submits that the link is gone, unless the peer has ended.
fn say_gone<R: Wait, G: Gate>(
    rt: &R,
    hub: &Hub,
    pass: &mut ReaderPass,
    gate: &G,
    end: ReadEnd,
) -> ReadEnd
    requires own { IsOf hub.now pass.old.seat }
    ensures pass { pass.new ≡ pass_having_seen pass.old pass.new.seat.seen }
    ensures saw { SawMore hub.now.limits pass.old.seat.seen pass.new.seat.seen }
    ensures reads { (read : List ℕ) (left : Option (List ℕ)) (faults : ℕ)
        → ReadsLink hub.now.limits pass.old read left faults end
        → ReadsPeer hub.now.limits pass.new read left faults result }
    ensures cause { result ≡ ReadEnd.ReadFault → end ≡ ReadEnd.ReadFault }
    ensures no_fault { TellsNoFault result → end ≢ ReadEnd.ReadFault }
{
    if let ReadEnd::Ended(_) = end {
        return end;
    }
    match submit_step(rt, hub, pass, gate, PeerStep::Gone) {
        Ok(()) => end,
        Err(other) => other,
    }
}

/// Reads the frames of a peer's link and submits the steps that they give: for each frame its
/// tokens, where it has any, and then each message, and the bad size, that its bytes complete. A
/// message that the source's end cuts is dropped. Unless the peer had ended, it submits at last
/// that the link is gone.
///
/// `Closed`, `Torn`, `BadFrame` and `ReadFault` come of the frames, where all their steps were made.
/// `Ended` comes where the peer has ended, for that cause; a read may have failed before it, but
/// only where all steps were made. `JournalFull` comes where the journal was full for the next
/// step; `NoMemory` may come at any step. Where a step but the last was refused, no byte past its
/// frame was read. (Wait: it promises what it does if it returns.)
pub fn read_peer<R: Wait, S: Source, G: Gate>(
    rt: &R,
    alloc: Global,
    hub: &Hub,
    pass: &mut ReaderPass,
    source: &mut S,
    gate: &G,
) -> ReadEnd
    requires own { IsOf hub.now pass.old.seat }
    requires fresh { NoneOf pass.old.seat.number pass.old.seat.seen }
    ensures pass { pass.new ≡ pass_having_seen pass.old pass.new.seat.seen }
    ensures saw { SawMore hub.now.limits pass.old.seat.seen pass.new.seat.seen }
    ensures law { (read : List ℕ)
        × TookFrom (S.given source.old) (S.given source.new)
        (S.left source.old) (S.left source.new) read
        × ReadsPeer hub.now.limits pass.new read (S.left source.new)
        (S.fault_count source.new - S.fault_count source.old) result }
    ensures given_quiet { StaysQuiet (S.given source.old) (S.given source.new) }
    ensures left_quiet { StaysQuiet (S.left source.old) (S.left source.new) }
    ensures never_falls { S.fault_count source.old ≤ S.fault_count source.new }
    ensures cause { result ≡ ReadEnd.ReadFault
        → Rose (S.fault_count source.old) (S.fault_count source.new) }
    ensures no_fault { TellsNoFault result
        → S.fault_count source.new ≡ S.fault_count source.old }
{
    let end = read_frames(rt, alloc, hub, pass, source, gate);
    say_gone(rt, hub, pass, gate, end)
}
