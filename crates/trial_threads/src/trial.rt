//! What a trial in threads came to.
use broker_core::Kept;
use hub_lock::Session;
use std::alloc::Global;
use std::marker::Model;
use trial_client_logs::{FieldLog, MethodLog};
use wio_core::NoMemory;

/// A log for each field, in their order. Contracts see a list of them.
#[derive(Debug, Drop)]
pub struct FieldLogs {
    items: Vec<FieldLog>,
}

impl Model for FieldLogs {
    ghost use Rattle.std.specs.Prelude.{List};
    ghost use Rattle.trial_client_logs.specs.declared.entry.FieldEntry.{FieldEntry};

    ghost Value = { List (List FieldEntry) };

    ghost view = { λ l. l.items.items };
}

impl FieldLogs {
    ghost use Rattle.std.specs.Prelude.{◌≡◌, ◌++◌, ◌∷◌, [], OnOk, OnErr};

    /// No logs. (no memory)
    pub fn new(alloc: Global) -> FieldLogs
        ensures { result ≡ [] }
    {
        FieldLogs {
            items: Vec::new(alloc),
        }
    }

    /// The log of one field more.
    pub fn push(&mut self, log: FieldLog) -> Result<(), NoMemory>
        ensures ok { OnOk result (self.new ≡ self.old ++ log ∷ []) }
        ensures err { OnErr result (self.new ≡ self.old) }
    {
        self.items.push(log)?;
        Ok(())
    }

    /// The logs.
    pub fn as_slice(&self) -> &[FieldLog]
        ensures { result.now ≡ self.now }
    {
        &self.items
    }
}

/// What happened to each field and to the method, and the hub's one journal of it.
#[derive(Drop)]
pub struct ThreadTrial {
    /// What happened to the fields, in their order.
    pub logs: FieldLogs,
    /// What happened to the method.
    pub method_log: MethodLog,
    /// The limits, the journal, and who made each of its steps.
    pub session: Session,
}

/// Why a trial in threads wasn't played to its end.
#[derive(Drop)]
pub enum ThreadTrialEnd {
    /// The line with this number, from 1, is outside the grammar, or is missing.
    BadLine(u64),
    /// The journal is full for a step: so much it held, and what happened until then.
    JournalFull(Kept, ThreadTrial),
    /// There was no memory.
    NoMemory,
}

impl From<NoMemory> for ThreadTrialEnd {
    ghost use Rattle.std.specs.Prelude.{◌≡◌};
    ghost use Rattle.trial_threads.specs.declared.trial.ThreadTrialEnd.TheVariants as ends;

    ghost from_gives = { λ _ end. end ≡ ends.NoMemory };

    fn from(_: NoMemory) -> Self {
        ThreadTrialEnd::NoMemory
    }
}
