//! Doors, and the links that come through them.
ghost use Rattle.std.specs.Prelude.{◌≡◌, ◌⊎◌, ◌≤◌, ◌++◌, ◌∷◌, [], ℕ, List, Option, Bool, true, false};
ghost use Rattle.std.specs.Prelude.{◌<◌, IfOk, OnOk, OnErr, length, take};
ghost use Rattle.std.specs.Io.KnownBytes.{Appends, Keeps};
ghost use Rattle.wio_core.specs.Io.{Rose, StaysQuiet};
ghost use Rattle.serve_net.specs.NewLinks.{IsNewSource, IsNewSink};
ghost use Rattle.serve_net.specs.declared.door.Door.{Door};

use crate::door::Door;
use wio_core::{Failed, Sink, Source};

/// The way in of a link, which tells what link it is of.
pub trait LinkSource: Source + Drop {
    /// The number of its link.
    ghost number: { Self → ℕ };

    /// The number of its link: a net numbers the links that it gives from 1 on, in their order.
    fn link(&self) -> u64
        ensures { result ≡ number self.now };
}

/// The way out of a link, which tells what link it is of, and can end the whole link.
pub trait LinkSink: Sink + Drop {
    /// The number of its link.
    ghost number: { Self → ℕ };

    /// Whether it ended the link. Neither `send` nor `hang_up` takes that back.
    ghost hung_up: { Self → Bool };

    /// The number of its link: a net numbers the links that it gives from 1 on, in their order.
    fn link(&self) -> u64
        ensures { result ≡ number self.now };

    /// Writes as `write` does, and leaves open what is open, also where it fails.
    fn send(&mut self, piece: &[u8]) -> Result<usize, Failed>
        requires { 0 < length piece.now }
        ensures some { IfOk result (λ n. 0 < n) }
        ensures within { IfOk result (λ n. n ≤ length piece.now) }
        ensures gained { IfOk result (λ n. Appends (Self.held self.old) (Self.held self.new)
            (take n piece.now)) }
        ensures stays { OnErr result (Keeps (Self.held self.old) (Self.held self.new)) }
        ensures quiet { StaysQuiet (Self.held self.old) (Self.held self.new) }
        ensures never_falls { Self.fault_count self.old ≤ Self.fault_count self.new }
        ensures cause { OnErr result
            (Rose (Self.fault_count self.old) (Self.fault_count self.new)) }
        ensures no_fault { OnOk result
            (Self.fault_count self.new ≡ Self.fault_count self.old) }
        ensures link { hung_up self.new ≡ hung_up self.old }
        ensures same { number self.new ≡ number self.old };

    /// Ends the link: whoever reads or writes at it, on either side, waits no longer. What it holds
    /// and its count of faults stay. Nothing says that the other side hears of it.
    fn hang_up(&mut self)
        ensures ends { hung_up self.new ≡ true }
        ensures held { Self.held self.new ≡ Self.held self.old }
        ensures faults { Self.fault_count self.new ≡ Self.fault_count self.old }
        ensures same { number self.new ≡ number self.old };
}

/// Where links come in. It has five meanings for contracts: for each door whether it is open, the
/// doors that it opened, the doors of the links that it gave, in order, how many of these it hung up,
/// and how often a call failed.
pub trait Net {
    /// A link's way in.
    type In: LinkSource;

    /// A link's way out.
    type Out: LinkSink;

    ghost opened: { Self → Door → Bool };

    /// The newest first, each with how many links it had given when it opened the door.
    ghost listens: { Self → List (Door × ℕ) };

    ghost links: { Self → List Door };

    /// From the first link on.
    ghost hung_up: { Self → ℕ };

    ghost fault_count: { Self → ℕ };

    /// Opens the door at the path. No call closes a door.
    fn listen(&mut self, door: Door, path: &str) -> Result<(), Failed>
        ensures opens { OnOk result (opened self.new door ≡ true) }
        ensures stays { (d : Door) → opened self.old d ≡ true → opened self.new d ≡ true }
        ensures only { (d : Door) → opened self.new d ≡ true →
            (opened self.old d ≡ true) ⊎ (d ≡ door) }
        ensures shut { OnErr result ((d : Door) → opened self.new d ≡ opened self.old d) }
        ensures listens { OnOk result (listens self.new
            ≡ (door, length (links self.old)) ∷ listens self.old) }
        ensures none { OnErr result (listens self.new ≡ listens self.old) }
        ensures links { links self.new ≡ links self.old }
        ensures hung_up { hung_up self.new ≡ hung_up self.old }
        ensures never_falls { fault_count self.old ≤ fault_count self.new }
        ensures cause { OnErr result (Rose (fault_count self.old) (fault_count self.new)) }
        ensures no_fault { OnOk result (fault_count self.new ≡ fault_count self.old) };

    /// Waits for a link at the door, so many seconds at most, and gives its two ways, which have the
    /// link's number. Nothing came and went on it so far, nothing failed, and nobody hung up. That
    /// nobody came in that time is a failure too.
    fn accept(&mut self, door: Door, wait: u32) -> Result<(Self::In, Self::Out), Failed>
        requires { opened self.old door ≡ true }
        ensures doors { (d : Door) → opened self.new d ≡ opened self.old d }
        ensures listens { listens self.new ≡ listens self.old }
        ensures link { OnOk result (links self.new ≡ links self.old ++ door ∷ []) }
        ensures none { OnErr result (links self.new ≡ links self.old) }
        ensures hung_up { hung_up self.new ≡ hung_up self.old }
        ensures source { IfOk result (λ link.
            IsNewSource (Self.In.given link.0) (Self.In.fault_count link.0)) }
        ensures sink { IfOk result (λ link.
            IsNewSink (Self.Out.held link.1) (Self.Out.fault_count link.1)) }
        ensures live { IfOk result (λ link. Self.Out.hung_up link.1 ≡ false) }
        ensures number_in { IfOk result (λ link.
            Self.In.number link.0 ≡ length (links self.new)) }
        ensures number_out { IfOk result (λ link.
            Self.Out.number link.1 ≡ length (links self.new)) }
        ensures never_falls { fault_count self.old ≤ fault_count self.new }
        ensures cause { OnErr result (Rose (fault_count self.old) (fault_count self.new)) }
        ensures no_fault { OnOk result (fault_count self.new ≡ fault_count self.old) };

    /// Hangs all links up that it gave: whoever reads or writes at one, on either side, waits no
    /// longer. Nothing says that the other sides hear of it, or that no byte comes any more.
    fn hang_up(&mut self)
        ensures all { hung_up self.new ≡ length (links self.new) }
        ensures doors { (d : Door) → opened self.new d ≡ opened self.old d }
        ensures listens { listens self.new ≡ listens self.old }
        ensures links { links self.new ≡ links self.old }
        ensures faults { fault_count self.new ≡ fault_count self.old };

    /// How many calls failed so far, up to the greatest `u64`, where the count stands still.
    fn faults(&self) -> u64
        ensures { result ≡ fault_count self.now };
}
