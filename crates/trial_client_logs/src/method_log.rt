//! What happened to the method.
use crate::heard_event::HeardEvent;
use std::alloc::Global;
use std::marker::Model;
use trial_script::Edits;
use wio_core::NoMemory;

/// One thing that happened to the method.
#[derive(Debug, Drop)]
pub enum MethodEntry {
    /// An event came.
    Event(HeardEvent),
    /// Its own user committed these edits.
    Batch(Edits),
}

/// What happened to the method, in order. Contracts see a list of it.
#[derive(Debug, Drop)]
pub struct MethodLog {
    items: Vec<MethodEntry>,
}

impl Model for MethodLog {
    ghost use Rattle.std.specs.Prelude.{List};
    ghost use Rattle.trial_client_logs.specs.declared.method_log.MethodEntry.{MethodEntry};

    ghost Value = { List MethodEntry };

    ghost view = { λ l. l.items.items };
}

impl MethodLog {
    ghost use Rattle.std.specs.Prelude.{◌≡◌, ◌++◌, ◌∷◌, [], OnOk, OnErr};

    /// Nothing happened. Takes no memory.
    pub fn new(alloc: Global) -> MethodLog
        ensures { result ≡ [] }
    {
        MethodLog {
            items: Vec::new(alloc),
        }
    }

    /// One thing more.
    pub fn push(&mut self, entry: MethodEntry) -> Result<(), NoMemory>
        ensures ok { OnOk result (self.new ≡ self.old ++ entry ∷ []) }
        ensures err { OnErr result (self.new ≡ self.old) }
    {
        self.items.push(entry)?;
        Ok(())
    }

    /// What happened.
    pub fn as_slice(&self) -> &[MethodEntry]
        ensures { result.now ≡ self.now }
    {
        &self.items
    }
}
