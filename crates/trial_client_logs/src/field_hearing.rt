//! What a field's client hears is written down.
ghost use Rattle.std.specs.Prelude.{◌≡◌, ◌++◌, ◌∷◌, [], ℕ, List, true, false, OnOk, Err};
ghost use Rattle.client_side.specs.Events.{field_objects};
ghost use Rattle.client_side.specs.FieldState.{after_event, log_after};
ghost use Rattle.trial_client_logs.specs.Logs.{field_log};
ghost use Rattle.trial_client_logs.specs.Hearing.{Accepts, Refuses, HearsSome};

use crate::entry::FieldEntry;
use crate::field_log::FieldLog;
use crate::views::edits_of;
use client_side::{ClientFault, FieldClient, FieldHearer};
use std::alloc::Global;
use std::mem::replace;
use trial_field::BatchView;

/// A log that hears a field's client. Once memory lacked nothing more is written down.
#[derive(Drop)]
pub(crate) struct FieldHearing {
    pub alloc: Global,
    pub log: FieldLog,
    pub lacks: bool,
}

impl FieldHearing {
    ghost use Rattle.trial_field.specs.Log.{IsBatch, batch_of as viewed};
    ghost use Rattle.client_side.specs.Happenings.{batch};
    ghost use Rattle.trial_client_logs.specs.Logs.{IsEntry, happening_of, field_log};
    ghost use Rattle.trial_client_logs.specs.Writing.{Writes};

    // One thing more, where memory never lacked.
    fn write_down(&mut self, entry: FieldEntry)
        requires { IsEntry entry }
        ensures { Writes (λ h. h.lacks) (λ h. field_log h.log)
            self.old (happening_of entry) self.new }
    {
        if self.lacks {
            return;
        }
        self.lacks = self.log.push(entry).is_err();
    }

    // The batch, where memory never lacked.
    fn write_batch(&mut self, edits: &BatchView<'_>, serial: u32)
        requires { IsBatch edits.now }
        ensures { Writes (λ h. h.lacks) (λ h. field_log h.log)
            self.old (batch (viewed edits.now) serial) self.new }
    {
        match edits_of(self.alloc, edits) {
            Ok(edits) => self.write_down(FieldEntry::Batch(edits, serial)),
            Err(_) => self.lacks = true,
        }
    }
}

impl FieldHearer for FieldHearing {
    ghost use Rattle.trial_client_logs.specs.Logs.{field_log};
    ghost use Rattle.trial_client_logs.specs.Writing.{Writes};

    ghost may_follow = { Writes (λ h. h.lacks) (λ h. field_log h.log) };

    fn entered(&mut self) {
        self.write_down(FieldEntry::Enter);
    }

    fn left(&mut self) {
        self.write_down(FieldEntry::Leave);
    }

    fn batch(&mut self, edits: &BatchView<'_>, serial: u32) {
        self.write_batch(edits, serial);
    }
}

/// A field's client takes bytes that the broker sent, as `FieldClient::receive` does, and its log
/// has what the events make happen.
///
/// After `BadEvent` it has what those that stood before make happen. After `NoMemory` the client
/// may have taken the bytes, with only the first of what they make happen in the log.
pub fn hear_field(
    alloc: Global,
    client: &mut FieldClient,
    log: &mut FieldLog,
    piece: &[u8],
) -> Result<(), ClientFault>
    ensures ok { OnOk result (Accepts field_objects after_event log_after
        client.old client.new (field_log log.old) (field_log log.new) piece.now) }
    ensures bad { result ≡ Err ClientFault.BadEvent → client.old.is_bad ≡ false →
        Refuses field_objects after_event log_after
        client.old client.new (field_log log.old) (field_log log.new) piece.now }
    ensures again { client.old.is_bad ≡ true → (client.new ≡ client.old) × (log.new ≡ log.old) }
    ensures no_memory { result ≡ Err ClientFault.NoMemory →
        HearsSome field_objects after_event log_after
        client.old client.new (field_log log.old) (field_log log.new) piece.now }
{
    let mut hearing = FieldHearing {
        alloc,
        log: replace(log, FieldLog::new(alloc)),
        lacks: false,
    };
    let received = client.receive_heard(piece, &mut hearing);
    let FieldHearing {
        alloc: _,
        log: heard,
        lacks,
    } = hearing;
    *log = heard;
    if lacks {
        return Err(ClientFault::NoMemory);
    }
    received
}
