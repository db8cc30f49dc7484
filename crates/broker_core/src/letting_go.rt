//! The oldest entries of the journal are let go, with their stamps.
use crate::shared::Shared;
use broker_model::Entry;
use broker_steps::Stamp;

/// An entry that was let go, as it was handed out.
#[derive(Drop)]
pub struct LetGo {
    /// Its number in the journal, from 1.
    pub number: u32,
    pub entry: Entry,
    /// When it came, and through which link.
    pub stamp: Stamp,
}

impl Shared {
    ghost use Rattle.std.specs.Prelude.{◌≡◌, ◌+◌, ◌<◌, ◌↔◌, length, Some, IsSome, IfSome};
    ghost use Rattle.broker_model.specs.Recorded.{entry_at};
    ghost use Rattle.broker_core.specs.Broker.{letting_go};

    /// Lets the entries up to a number go, with their stamps, all where it is the journal's `len` or
    /// more: they leave memory, and `journal` and `stamps` answer them no more. Those that went
    /// before stay gone. Nothing else changes: no other call reads an entry.
    pub fn let_go(&mut self, number: u32)
        ensures gone { self.new ≡ letting_go number self.old }
    {
        self.state.let_go(number);
    }

    /// Lets the oldest kept entry go, with its stamp, and hands both out; none where none is kept.
    /// Nothing else changes.
    pub fn pop_oldest(&mut self) -> Option<LetGo>
        ensures some { IsSome result ↔ (self.old.kept_from < length self.old.journal) }
        ensures number { IfSome result (λ it. it.number ≡ self.old.kept_from + 1) }
        ensures entry { IfSome result (λ it.
            entry_at self.old.journal it.number ≡ Some it.entry) }
        ensures stamp { IfSome result (λ it.
            entry_at self.old.stamps it.number ≡ Some it.stamp) }
        ensures gone { self.new ≡ letting_go (self.old.kept_from + 1) self.old }
    {
        self.state.pop_oldest()
    }
}
