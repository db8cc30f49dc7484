//! What the method's user commits, in order.
ghost use Rattle.std.specs.Prelude.{◌≡◌, ◌++◌, ◌∷◌, [], All, OnOk, OnErr};
ghost use Rattle.trial_script.specs.Grammar.{AreEdits};

use broker_steps::NoMemory;
use std::alloc::Global;
use std::marker::Model;
use trial_script::Edits;

/// The edits that the method's user commits, each as a line of a script can give them. Contracts see
/// a list of them.
#[derive(Debug, Drop)]
pub struct BatchList {
    items: Vec<Edits>,
}

impl Model for BatchList {
    ghost use Rattle.std.specs.Prelude.{List, All};
    ghost use Rattle.trial_script.specs.declared.action.Edits.{Edits};
    ghost use Rattle.trial_script.specs.Grammar.{AreEdits};

    ghost Value = { List Edits };

    ghost view = { λ l. l.items.items };

    ghost invariant = { λ l. All AreEdits l.items.items };
}

impl BatchList {
    /// No batches. (no memory)
    pub fn new(alloc: Global) -> BatchList
        ensures { result ≡ [] }
    {
        BatchList {
            items: Vec::new(alloc),
        }
    }

    /// One batch more.
    pub fn push(&mut self, batch: Edits) -> Result<(), NoMemory>
        requires { AreEdits batch }
        ensures ok { OnOk result (self.new ≡ self.old ++ batch ∷ []) }
        ensures err { OnErr result (self.new ≡ self.old) }
    {
        self.items.push(batch)?;
        Ok(())
    }

    /// The batches.
    pub fn as_slice(&self) -> &[Edits]
        ensures same { result.now ≡ self.now }
        ensures each { All AreEdits self.now }
    {
        &self.items
    }
}
