//! The entries that a hub hands out go out as they come.
ghost use Rattle.std.specs.Prelude.{◌≡◌, ◌≢◌, ◌≤◌, length, Err, IfOk, OnOk, OnErr};
ghost use Rattle.wio_core.specs.Io.{Rose};
ghost use Rattle.turn_lock.specs.Pairs.{HasSeen};
ghost use Rattle.hub_lock.specs.Seats.{having_seen};
ghost use Rattle.hub_lock.specs.Histories.{broker_of};
ghost use Rattle.hub_lock.specs.Passes.{IsOf};
ghost use Rattle.serve_record.specs.Handed.{WritesHanded, MadeNoStep, HandsOut};
ghost use Rattle.serve_record.specs.Lines.{Gains};

use crate::record::RecordStop;
use crate::record_text::RecordText;
use broker_core::LetGo;
use hub_lock::{Hub, RecorderPass};
use std::alloc::Global;
use std::sync::Wait;
use wio_core::Sink;

// Hands out the next entry once it is there, or says that the record is over. Where there is none
// yet, what waits goes out first.
fn next_entry<R: Wait, K: Sink>(
    rt: &R,
    hub: &Hub,
    pass: &mut RecorderPass,
    text: &mut RecordText,
    output: &mut K,
) -> Result<Option<LetGo>, RecordStop>
    requires own { IsOf hub.now pass.old.seat }
    ensures none_made { MadeNoStep pass.old.seat pass.new.seat }
    ensures next { IfOk result (HandsOut hub.now.limits pass.old pass.new) }
    ensures same { OnErr result (pass.new.handed ≡ pass.old.handed) }
    ensures gains { Gains K.held K.fault_count output.old output.new text.new text.old
        RecordStop.WriteFault result }
{
    if let Some(next) = hub.hand_out(rt, pass) {
        return Ok(Some(next));
    }
    text.write(output)?;
    Ok(hub.wait_hand_out(rt, pass))
}

/// Writes the entries that are handed out to the pass, each as it comes, until the record ends. What
/// waits goes out before it sleeps. After `RecordStop` a front of their text was written. (Wait: it
/// promises what it does if it returns.)
pub fn record_handed<R: Wait, K: Sink>(
    rt: &R,
    alloc: Global,
    hub: &Hub,
    pass: &mut RecorderPass,
    text: &mut RecordText,
    output: &mut K,
) -> Result<(), RecordStop>
    requires own { IsOf hub.now pass.old.seat }
    ensures seat { pass.new.seat ≡ having_seen pass.old.seat pass.new.seat.seen }
    ensures seen { HasSeen pass.new.seat.seen pass.old.seat.number pass.old.seat.seen }
    ensures all { OnOk result (length (broker_of hub.now.limits pass.new.seat.seen).journal
        ≤ length pass.new.handed) }
    ensures written { WritesHanded hub.now.limits (K.held output.old) (K.held output.new) text.old
        text.new pass.old.handed pass.new.handed result }
    ensures never_falls { K.fault_count output.old ≤ K.fault_count output.new }
    ensures cause { result ≡ Err RecordStop.WriteFault →
        Rose (K.fault_count output.old) (K.fault_count output.new) }
    ensures no_fault { result ≢ Err RecordStop.WriteFault →
        K.fault_count output.new ≡ K.fault_count output.old }
{
    for _ in rt.forever() {
        match next_entry(rt, hub, pass, text, output)? {
            Some(next) => text.put(alloc, next.stamp, &next.entry, output)?,
            None => return Ok(()),
        }
    }
    unreachable!()
}
