//! A link that came in.
ghost use Rattle.std.specs.Prelude.{◌≡◌, false};
ghost use Rattle.std.proofs.Props.{props};
ghost use Rattle.serve_net.specs.NewLinks.{IsNewSource, IsNewSink};

use serve_net::{LinkSink, LinkSource};

/// The two ways of a link: both are new, and have its number, and nobody hung up.
#[derive(Drop)]
pub(crate) struct NewLink<S: LinkSource, K: LinkSink> {
    pub source: S,
    pub sink: K,
    pub ghost link_in: { IsNewSource (S.Source.given source) (S.Source.fault_count source) } by { Prim.hlevel props },
    pub ghost link_out: { IsNewSink (K.Sink.held sink) (K.Sink.fault_count sink) } by { Prim.hlevel props },
    pub ghost live: { K.hung_up sink ≡ false },
    pub ghost one: { S.number source ≡ K.number sink },
}
