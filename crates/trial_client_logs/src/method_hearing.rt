//! What the method's client hears is written down.
ghost use Rattle.std.specs.Prelude.{◌≡◌, ◌++◌, ◌∷◌, [], ℕ, List, true, false, OnOk, Err};
ghost use Rattle.client_side.specs.Events.{method_objects};
ghost use Rattle.client_side.specs.MethodLog.{came};
ghost use Rattle.client_side.specs.MethodState.{after_event};
ghost use Rattle.trial_client_logs.specs.MethodLogs.{settled, method_log, log_after};
ghost use Rattle.trial_client_logs.specs.Hearing.{Accepts, Refuses, HearsSome};

use crate::heard_event::HeardEvent;
use crate::method_log::{MethodEntry, MethodLog};
use client_side::{ClientFault, MethodClient, MethodHearer};
use std::alloc::Global;
use std::mem::replace;
use trial_script::Typist;
use wl_proto::Event;

/// A log that hears the method's client. Once memory lacked nothing more is written down.
#[derive(Drop)]
pub(crate) struct MethodHearing {
    pub alloc: Global,
    pub log: MethodLog,
    pub lacks: bool,
}

impl MethodHearing {
    ghost use Rattle.client_side.specs.MethodLog.{came};
    ghost use Rattle.trial_client_logs.specs.MethodLogs.{settled, method_log};
    ghost use Rattle.trial_client_logs.specs.Writing.{Writes};

    // The event, where memory never lacked.
    fn write_down(&mut self, event: &Event<'_>)
        ensures { Writes (λ h. h.lacks) (λ h. method_log h.log)
            self.old (came (settled event.now)) self.new }
    {
        if self.lacks {
            return;
        }
        match HeardEvent::of(self.alloc, event) {
            Ok(event) => self.lacks = self.log.push(MethodEntry::Event(event)).is_err(),
            Err(_) => self.lacks = true,
        }
    }
}

impl MethodHearer for MethodHearing {
    ghost use Rattle.client_side.specs.MethodLog.{came};
    ghost use Rattle.trial_client_logs.specs.MethodLogs.{settled, method_log};
    ghost use Rattle.trial_client_logs.specs.Writing.{Writes};

    ghost may_follow = { λ before event after.
        Writes (λ h. h.lacks) (λ h. method_log h.log) before (came (settled event)) after };

    fn came(&mut self, event: &Event<'_>) {
        self.write_down(event);
    }
}

/// The method's client takes bytes that the broker sent, as `MethodClient::receive` does, and its
/// log has the events.
///
/// After `BadEvent` it has those that stood before. After `NoMemory` the client may have taken the
/// bytes, with only the first of the events in the log.
pub fn hear_method<T: Typist>(
    alloc: Global,
    client: &mut MethodClient<T>,
    log: &mut MethodLog,
    piece: &[u8],
) -> Result<(), ClientFault>
    ensures ok { OnOk result (Accepts method_objects (after_event T.meanings) log_after
        client.old client.new (method_log log.old) (method_log log.new) piece.now) }
    ensures bad { result ≡ Err ClientFault.BadEvent → client.old.is_bad ≡ false →
        Refuses method_objects (after_event T.meanings) log_after
        client.old client.new (method_log log.old) (method_log log.new) piece.now }
    ensures again { client.old.is_bad ≡ true → (client.new ≡ client.old) × (log.new ≡ log.old) }
    ensures no_memory { result ≡ Err ClientFault.NoMemory →
        HearsSome method_objects (after_event T.meanings) log_after
        client.old client.new (method_log log.old) (method_log log.new) piece.now }
{
    let mut hearing = MethodHearing {
        alloc,
        log: replace(log, MethodLog::new(alloc)),
        lacks: false,
    };
    let received = client.receive_heard(piece, &mut hearing);
    let MethodHearing {
        alloc: _,
        log: heard,
        lacks,
    } = hearing;
    *log = heard;
    if lacks {
        return Err(ClientFault::NoMemory);
    }
    received
}
