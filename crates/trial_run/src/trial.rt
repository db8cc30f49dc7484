//! A trial as far as it is played.
ghost use Rattle.std.specs.Prelude.{◌≡◌, IfOk, string_bytes};
ghost use Rattle.broker_steps.specs.Ranges.{IsLimits};
ghost use Rattle.trial_run.specs.Play.{new_field};
ghost use Rattle.trial_run.specs.Trial.{unplayed};

use crate::typist::TrialTypist;
use broker_core::Shared;
use broker_steps::Limits;
use client_side::{FieldClient, MethodClient};
use std::alloc::Global;
use std::marker::Model;
use wio_core::NoMemory;

/// A field's client, and whether it stopped reading.
#[derive(Drop)]
pub(crate) struct FieldSeat {
    pub client: FieldClient,
    pub is_paused: bool,
}

impl Model for FieldSeat {
    ghost use Rattle.trial_run.specs.Play.{FieldPlay};

    ghost Value = { FieldPlay };

    ghost view = { λ f. record { client = f.client; is_paused = f.is_paused } };
}

impl FieldSeat {
    /// A field that reads, with its set-up to send.
    pub(crate) fn new(alloc: Global) -> Result<FieldSeat, NoMemory>
        ensures { IfOk result (λ f. f ≡ new_field) }
    {
        Ok(FieldSeat {
            client: FieldClient::new(alloc)?,
            is_paused: false,
        })
    }
}

/// The shared state, the clients of its peers, and what was shown. In contracts it is a `TrialPlay`.
#[derive(Drop)]
pub(crate) struct Trial {
    pub alloc: Global,
    /// One more than the entries that a journal can have: no turn takes more often, and no more
    /// rounds follow an action.
    pub most: u64,
    pub shared: Shared,
    pub method: MethodClient<TrialTypist>,
    pub fields: Vec<FieldSeat>,
    pub shown: String,
}

impl Model for Trial {
    ghost use Rattle.std.specs.Prelude.{string_bytes};
    ghost use Rattle.trial_run.specs.Play.{TrialPlay};

    ghost Value = { TrialPlay };

    ghost view = { λ t. record {
      most = t.most;
      broker = t.shared;
      method = t.method;
      fields = t.fields.items;
      shown = string_bytes t.shown;
    } };
}

impl Trial {
    /// Nobody joined yet.
    pub(crate) fn new(alloc: Global, limits: Limits, typist: TrialTypist) -> Result<Trial, NoMemory>
        requires { IsLimits limits }
        ensures { IfOk result (λ t. t ≡ unplayed limits typist) }
    {
        let method = MethodClient::new(alloc, typist)?;
        Ok(Trial {
            alloc,
            most: u64::from(limits.entries) + 1,
            shared: Shared::new(alloc, limits)?,
            method,
            fields: Vec::new(alloc),
            shown: String::new(alloc),
        })
    }

    /// What was shown.
    pub(crate) fn into_shown(self) -> String
        ensures { string_bytes result ≡ self.shown }
    {
        self.shown
    }
}
