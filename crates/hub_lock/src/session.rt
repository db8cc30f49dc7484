//! What a hub's users did, as it can be written down.
ghost use Rattle.std.specs.Prelude.{◌≡◌, length};
ghost use Rattle.hub_lock.specs.Steps.{HaveLines};

use broker_model::{Journal, StampList};
use broker_steps::Limits;
use thiserror::Error;

/// Why there is no session.
#[derive(Clone, Copy, Debug, PartialEq, Eq, Error)]
pub enum NoSession {
    /// Entries were handed out, so that no copy of those that are kept is whole.
    #[error("entries were handed out")]
    HandedOut,
    /// There was no memory.
    #[error("there was no memory")]
    NoMemory,
}

/// A copy of a hub's limits, of its whole journal and of the stamps of the journal's entries: none of
/// them was let go, and each entry is one that its line can give. The author of a step's stamp is the
/// number of the pass whose call made the step.
#[derive(Drop)]
pub struct Session {
    /// The limits that the hub was made with.
    pub limits: Limits,
    /// The journal: each outer step that was made, in order.
    pub journal: Journal,
    /// A stamp for each of its entries.
    pub stamps: StampList,
    pub ghost whole: { journal.kept_from ≡ 0 },
    pub ghost all_stamps: { stamps.kept_from ≡ 0 },
    pub ghost each: { length stamps.stamps ≡ length journal.entries },
    pub ghost lines: { ∥ HaveLines journal.entries ∥₁ },
}
