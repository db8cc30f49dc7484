//! The recorded session is written as its entries come.
ghost use Rattle.std.specs.Prelude.{◌≡◌, ◌≢◌, ◌≤◌, ◌∷◌, ℕ, List, [], length, Option, Err, OnOk};
ghost use Rattle.wio_core.specs.Io.{Rose};
ghost use Rattle.turn_lock.specs.Pairs.{NoneOf, HasSeen, IsIn, total};
ghost use Rattle.hub_lock.specs.Lawful.{IsLawful};
ghost use Rattle.hub_lock.specs.Passes.{IsOf};
ghost use Rattle.serve_record.specs.Handed.{WritesHanded, MadeNoStep};
ghost use Rattle.serve_run.specs.Started.{IsRootOf};
ghost use Rattle.serve_run.specs.Written.{HoldsHanded, EndsHanded, IsRecorded, AreAllHanded, FailsOnce};

use broker_steps::Limits;
use hub_lock::{Hub, HubPass, Pass, RecorderPass};
use serve_record::{RecordStop, RecordText, record_handed};
use std::alloc::Global;
use std::sync::Wait;
use wio_core::Sink;

/// Writes the header, and the entries as they are handed out, until the record ends.
pub(crate) fn record_first<R: Wait, K: Sink>(
    rt: &R,
    alloc: Global,
    limits: &Limits,
    hub: &Hub,
    pass: &mut RecorderPass,
    output: &mut K,
) -> Result<RecordText, RecordStop>
    requires own { IsOf hub.now pass.old.seat }
    requires limits { hub.now.limits ≡ limits.now }
    requires none { pass.old.handed ≡ [] }
    ensures none_made { MadeNoStep pass.old.seat pass.new.seat }
    ensures written { HoldsHanded hub.now.limits (K.held output.old) (K.held output.new)
        pass.new.handed result }
    ensures never_falls { K.fault_count output.old ≤ K.fault_count output.new }
    ensures cause { result ≡ Err RecordStop.WriteFault →
        Rose (K.fault_count output.old) (K.fault_count output.new) }
    ensures no_fault { result ≢ Err RecordStop.WriteFault →
        K.fault_count output.new ≡ K.fault_count output.old }
{
    let mut text = RecordText::new(alloc, limits)?;
    record_handed(rt, alloc, hub, pass, &mut text, output)?;
    Ok(text)
}

// Writes what is left of all that the root has seen. (Once round is enough where the record ended.)
fn record_rest<R: Wait, K: Sink>(
    rt: &R,
    alloc: Global,
    hub: &Hub,
    root: &HubPass,
    pass: &mut RecorderPass,
    text: &mut RecordText,
    output: &mut K,
) -> Result<(), RecordStop>
    requires own { IsOf hub.now pass.old.seat }
    requires root { IsOf hub.now root.now }
    ensures none_made { MadeNoStep pass.old.seat pass.new.seat }
    ensures all { OnOk result (AreAllHanded hub.now.limits pass.new.seat.seen root.now.seen
        pass.new.handed) }
    ensures written { WritesHanded hub.now.limits (K.held output.old) (K.held output.new) text.old
        text.new pass.old.handed pass.new.handed result }
    ensures never_falls { K.fault_count output.old ≤ K.fault_count output.new }
    ensures cause { result ≡ Err RecordStop.WriteFault →
        Rose (K.fault_count output.old) (K.fault_count output.new) }
    ensures no_fault { result ≢ Err RecordStop.WriteFault →
        K.fault_count output.new ≡ K.fault_count output.old }
{
    for _ in rt.forever() {
        record_handed(rt, alloc, hub, pass, text, output)?;
        let count = pass.count();
        let seen = root.seen();
        if seen <= count {
            return Ok(());
        }
    }
    unreachable!()
}

// Writes what is left of the recorded session, and its end.
fn record_end<R: Wait, K: Sink>(
    rt: &R,
    alloc: Global,
    hub: &Hub,
    root: &HubPass,
    pass: &mut RecorderPass,
    first: Result<RecordText, RecordStop>,
    output: &mut K,
) -> Result<(), RecordStop>
    requires own { IsOf hub.now pass.old.seat }
    requires root { IsOf hub.now root.now }
    ensures none_made { MadeNoStep pass.old.seat pass.new.seat }
    ensures written { (held : Option (List ℕ)) →
        HoldsHanded hub.now.limits held (K.held output.old) pass.old.handed first →
        EndsHanded hub.now.limits held (K.held output.new) pass.new.seat.seen root.now.seen
        pass.new.handed result }
    ensures never_falls { K.fault_count output.old ≤ K.fault_count output.new }
    ensures cause { result ≡ Err RecordStop.WriteFault →
        FailsOnce first (K.fault_count output.old) (K.fault_count output.new) }
    ensures no_fault { result ≢ Err RecordStop.WriteFault → (first ≢ Err RecordStop.WriteFault)
        × (K.fault_count output.new ≡ K.fault_count output.old) }
{
    let mut text = first?;
    record_rest(rt, alloc, hub, root, pass, &mut text, output)?;
    text.end(output)
}

/// Writes what is left of the recorded session, and its end, once all other passes are back, and
/// takes the pass of who records back. After `RecordStop` a front of the session was written.
pub(crate) fn record_last<R: Wait, K: Sink>(
    rt: &R,
    alloc: Global,
    hub: &Hub,
    root: &mut HubPass,
    mut pass: RecorderPass,
    first: Result<RecordText, RecordStop>,
    output: &mut K,
) -> Result<(), RecordStop>
    requires root { IsRootOf hub.now root.old }
    requires own { IsOf hub.now pass.seat }
    requires apart { NoneOf pass.seat.number pass.seat.seen }
    requires out { root.old.out ≡ 1 }
    ensures mine { HasSeen root.new.seen 0 root.old.seen }
    ensures settled { (n : ℕ) → IsIn n root.old.taken → HasSeen root.new.seen n root.old.seen }
    ensures lawful { IsLawful hub.now.limits root.new.seen }
    ensures owned { total (0 ∷ root.old.taken) root.new.seen ≡ length root.new.seen }
    ensures written { (held : Option (List ℕ)) →
        HoldsHanded hub.now.limits held (K.held output.old) pass.handed first →
        IsRecorded hub.now.limits held (K.held output.new) root.new.seen result }
    ensures never_falls { K.fault_count output.old ≤ K.fault_count output.new }
    ensures cause { result ≡ Err RecordStop.WriteFault →
        FailsOnce first (K.fault_count output.old) (K.fault_count output.new) }
    ensures no_fault { result ≢ Err RecordStop.WriteFault → (first ≢ Err RecordStop.WriteFault)
        × (K.fault_count output.new ≡ K.fault_count output.old) }
{
    let written = record_end(rt, alloc, hub, root, &mut pass, first, output);
    let _count = pass.count();
    hub.finish(root, Pass::Recorder(pass));
    let _entries = root.seen();
    written
}
