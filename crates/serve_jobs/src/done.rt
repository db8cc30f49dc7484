//! What the jobs of a link give back.
ghost use Rattle.std.specs.Prelude.{◌≡◌, ◌≢◌, true, false};
ghost use Rattle.peer_link.specs.declared.ends.ReadEnd.TheVariants as read_ends;
ghost use Rattle.peer_link.specs.declared.ends.ShellEnd.TheVariants as shell_ends;
ghost use Rattle.peer_link.specs.ReadsPeer.{TellsNoFault};
ghost use Rattle.peer_link.specs.WritesPeer.{is_cut};
ghost use Rattle.serve_jobs.specs.LoopLaws.{HasRead, HasWritten, HasOrdered};

use hub_lock::{ReaderPass, ShellPass, WriterPass};
use peer_link::{ReadEnd, ShellEnd, WriteEnd};
use serve_net::LinkSink;
use wio_core::Source;

/// A reading that ended: the law of readers holds of it, and a fault was counted, once; an end that
/// can't come of a fault came without one. Where the peer had ended, the law says when one may have
/// come.
#[derive(Drop)]
pub struct ReaderDone<S: Source + Drop> {
    /// The reader's pass, given back.
    pub pass: ReaderPass,
    /// What was read.
    pub source: S,
    /// How the reading ended.
    pub end: ReadEnd,
    /// The number of the link that was read.
    pub link: u64,
    pub ghost law: { ∥ HasRead pass (S.given source) (S.left source)
        (S.fault_count source) end ∥₁ },
    pub ghost cause: { end ≡ read_ends.ReadFault → S.fault_count source ≡ 1 },
    pub ghost no_fault: { TellsNoFault end → S.fault_count source ≡ 0 },
}

/// A writing that ended: the law of writers holds of it, a fault was counted, once, any other end came
/// without one, and the link was hung up.
#[derive(Drop)]
pub struct WriterDone<K: LinkSink> {
    /// The writer's pass, given back.
    pub pass: WriterPass,
    /// What was written to.
    pub sink: K,
    /// How the writing ended.
    pub end: WriteEnd,
    /// The number of the link that was written to.
    pub link: u64,
    pub ghost law: { ∥ HasWritten pass (K.held sink) end ∥₁ },
    pub ghost cause: { is_cut end ≡ true → K.fault_count sink ≡ 1 },
    pub ghost no_fault: { is_cut end ≡ false → K.fault_count sink ≡ 0 },
    pub ghost hung_up: { K.hung_up sink ≡ true },
}

/// A shell's link that ended: the law of shells holds of it, each fault was counted, once, any other
/// end came without one, and it was hung up.
#[derive(Drop)]
pub struct ShellDone<S: Source + Drop, K: LinkSink> {
    /// The shell's pass, given back.
    pub pass: ShellPass,
    /// What its lines were read from.
    pub source: S,
    /// What the answers were written to.
    pub sink: K,
    /// How the link ended.
    pub end: ShellEnd,
    /// The number of the link.
    pub link: u64,
    pub ghost law: { ∥ HasOrdered pass (S.given source) (S.left source) (K.held sink) end ∥₁ },
    pub ghost read_fault: { end ≡ shell_ends.ReadFault → S.fault_count source ≡ 1 },
    pub ghost write_fault: { end ≡ shell_ends.WriteFault → K.fault_count sink ≡ 1 },
    pub ghost no_read_fault: { end ≢ shell_ends.ReadFault → S.fault_count source ≡ 0 },
    pub ghost no_write_fault: { end ≢ shell_ends.WriteFault → K.fault_count sink ≡ 0 },
    pub ghost hung_up: { K.hung_up sink ≡ true },
}
