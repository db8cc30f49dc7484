//! A way out that ends its link where a write fails.
ghost use Rattle.std.specs.Prelude.{◌≡◌, ◌<◌, ◌≤◌, true, length, take, IfOk, OnOk, OnErr};
ghost use Rattle.std.specs.Io.KnownBytes.{Appends, Keeps};
ghost use Rattle.wio_core.specs.Io.{Rose, StaysQuiet};

use crate::net::LinkSink;
use wio_core::{Failed, Sink};

/// Writes to the sink, and hangs up where a write fails, at once: so whoever reads the link comes to
/// its end, also where nobody would write to it again. It holds what the sink holds, and counts its
/// faults.
#[derive(Drop)]
pub struct HangsUp<K: LinkSink> {
    /// The link's way out.
    pub sink: K,
}

impl<K: LinkSink> Sink for HangsUp<K> {
    ghost held = { λ s. K.held s.sink };

    ghost fault_count = { λ s. K.fault_count s.sink };

    fn write(&mut self, piece: &[u8]) -> Result<usize, Failed>
        requires { 0 < length piece.now }
        ensures some { IfOk result (λ n. 0 < n) }
        ensures within { IfOk result (λ n. n ≤ length piece.now) }
        ensures gained { IfOk result (λ n. Appends (K.held self.old.sink) (K.held self.new.sink)
            (take n piece.now)) }
        ensures stays { OnErr result (Keeps (K.held self.old.sink) (K.held self.new.sink)) }
        ensures quiet { StaysQuiet (K.held self.old.sink) (K.held self.new.sink) }
        ensures never_falls { K.fault_count self.old.sink ≤ K.fault_count self.new.sink }
        ensures cause { OnErr result
            (Rose (K.fault_count self.old.sink) (K.fault_count self.new.sink)) }
        ensures no_fault { OnOk result
            (K.fault_count self.new.sink ≡ K.fault_count self.old.sink) }
        ensures link { OnOk result (K.hung_up self.new.sink ≡ K.hung_up self.old.sink) }
        ensures ends { OnErr result (K.hung_up self.new.sink ≡ true) }
    {
        match self.sink.send(piece) {
            Ok(count) => Ok(count),
            Err(Failed) => {
                self.sink.hang_up();
                Err(Failed)
            }
        }
    }

    fn faults(&self) -> u64 {
        self.sink.faults()
    }
}
