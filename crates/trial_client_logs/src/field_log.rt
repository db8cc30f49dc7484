//! What happened to a field.
use crate::entry::FieldEntry;
use std::alloc::Global;
use std::marker::Model;
use wio_core::NoMemory;

/// What happened to a field, in order. Contracts see a list of it.
#[derive(Debug, Drop)]
pub struct FieldLog {
    items: Vec<FieldEntry>,
}

impl Model for FieldLog {
    ghost use Rattle.std.specs.Prelude.{List, All};
    ghost use Rattle.trial_client_logs.specs.declared.entry.FieldEntry.{FieldEntry};
    ghost use Rattle.trial_client_logs.specs.Logs.{IsEntry};

    ghost Value = { List FieldEntry };

    ghost view = { λ l. l.items.items };

    ghost invariant = { λ l. All IsEntry l.items.items };
}

impl FieldLog {
    ghost use Rattle.std.specs.Prelude.{◌≡◌, ◌++◌, ◌∷◌, [], All, OnOk, OnErr};
    ghost use Rattle.trial_client_logs.specs.Logs.{IsEntry};

    /// Nothing happened. Takes no memory.
    pub fn new(alloc: Global) -> FieldLog
        ensures { result ≡ [] }
    {
        FieldLog {
            items: Vec::new(alloc),
        }
    }

    /// One thing more. The texts of a batch fit a message.
    pub fn push(&mut self, entry: FieldEntry) -> Result<(), NoMemory>
        requires { IsEntry entry }
        ensures ok { OnOk result (self.new ≡ self.old ++ entry ∷ []) }
        ensures err { OnErr result (self.new ≡ self.old) }
    {
        self.items.push(entry)?;
        Ok(())
    }

    /// What happened.
    pub fn as_slice(&self) -> &[FieldEntry]
        ensures same { result.now ≡ self.now }
        ensures each { All IsEntry self.now }
    {
        &self.items
    }
}
