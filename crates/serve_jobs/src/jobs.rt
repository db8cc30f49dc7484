//! The jobs of a link.
ghost use Rattle.std.specs.Prelude.{◌≡◌};
ghost use Rattle.std.specs.Arc.{arc_value};
ghost use Rattle.std.proofs.Props.{props};
ghost use Rattle.hub_lock.specs.Passes.{IsOf, steps_of};
ghost use Rattle.serve_net.specs.NewLinks.{IsNewSource, IsNewSink};

use hub_lock::{Gate, Hub, ReaderPass, ShellPass, WriterPass};
use serve_net::{LinkSink, LinkSource};
use std::alloc::Global;
use std::sync::Arc;

/// The reading of a peer's link. Its pass is this hub's and made no step, and its link is new.
#[derive(Drop)]
pub struct ReaderJob<S: LinkSource, G: Gate + Drop> {
    /// Where memory comes from.
    pub alloc: Global,
    /// The hub for whose peer it reads.
    pub hub: Arc<Hub, Global>,
    /// The peer's pass to make steps.
    pub pass: ReaderPass,
    /// What is read.
    pub source: S,
    /// Is told of each of its steps.
    pub gate: Arc<G, Global>,
    pub ghost own: { IsOf (arc_value hub) pass.seat },
    pub ghost fresh: { steps_of pass.seat ≡ 0 },
    pub ghost link: { IsNewSource (S.Source.given source) (S.Source.fault_count source) } by { Prim.hlevel props },
}

/// The writing to a peer's link. Its pass is this hub's and took nothing, and its link is new.
#[derive(Drop)]
pub struct WriterJob<K: LinkSink> {
    /// The hub for whose peer it writes.
    pub hub: Arc<Hub, Global>,
    /// The peer's pass to take what is stored for it.
    pub pass: WriterPass,
    /// What is written to.
    pub sink: K,
    pub ghost own: { IsOf (arc_value hub) pass.seat },
    pub ghost fresh: { steps_of pass.seat ≡ 0 },
    pub ghost link: { IsNewSink (K.Sink.held sink) (K.Sink.fault_count sink) } by { Prim.hlevel props },
}

/// The serving of a shell's link. Its pass is this hub's and gave no order, and its link is new and
/// one.
#[derive(Drop)]
pub struct ShellJob<S: LinkSource, K: LinkSink> {
    /// Where memory comes from.
    pub alloc: Global,
    /// The hub that the shell gives orders to.
    pub hub: Arc<Hub, Global>,
    /// The shell's pass to make steps.
    pub pass: ShellPass,
    /// What its lines are read from.
    pub source: S,
    /// What the answers are written to.
    pub sink: K,
    pub ghost own: { IsOf (arc_value hub) pass },
    pub ghost fresh: { steps_of pass ≡ 0 },
    pub ghost link_in: { IsNewSource (S.Source.given source) (S.Source.fault_count source) } by { Prim.hlevel props },
    pub ghost link_out: { IsNewSink (K.Sink.held sink) (K.Sink.fault_count sink) } by { Prim.hlevel props },
    pub ghost one: { S.number source ≡ K.number sink },
}
