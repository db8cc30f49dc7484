//! What the clients of a trial hear and send.
ghost use Rattle.std.specs.Prelude.{◌≡◌, ◌<◌, length, OnOk};
ghost use Rattle.client_side.specs.Events.{field_objects, method_objects};
ghost use Rattle.client_side.specs.FieldState as fields;
ghost use Rattle.client_side.specs.MethodState as methods;
ghost use Rattle.trial_field.specs.Log.{IsEdit, entry_of, IsBatch, batch_of};
ghost use Rattle.trial_run.specs.Hearing.{received};
ghost use Rattle.trial_run.specs.Play.{hears, sent, edits, commits, pauses};
ghost use Rattle.trial_run.specs.Rounds.{sends_waiting, sends};
ghost use Rattle.trial_run.specs.Typists.{meanings_of};
ghost use Rattle.trial_run.specs.Working.{HasClient, IsRun, Stays};

use crate::steps::send_all;
use crate::stop::Stop;
use crate::trial::Trial;
use crate::typist::TrialTypist;
use crate::whose::{Whose, number_of};
use client_side::{ClientFault, FieldClient, MethodClient};
use trial_field::{BatchView, Edit};
use wio_core::NoMemory;

// A field's client receives a piece; one to which something bad came stays as it is.
fn field_hears(client: &mut FieldClient, piece: &[u8]) -> Result<(), NoMemory>
    ensures { OnOk result
        (client.new ≡ received fields.after_event field_objects piece.now client.old) }
{
    match client.receive(piece) {
        Ok(()) => Ok(()),
        Err(ClientFault::BadEvent) => Ok(()),
        Err(ClientFault::NoMemory) => Err(NoMemory),
    }
}

// So does the method's.
fn method_hears(client: &mut MethodClient<TrialTypist>, piece: &[u8]) -> Result<(), NoMemory>
    ensures { OnOk result (client.new ≡
        received (methods.after_event meanings_of) method_objects piece.now client.old) }
{
    match client.receive(piece) {
        Ok(()) => Ok(()),
        Err(ClientFault::BadEvent) => Ok(()),
        Err(ClientFault::NoMemory) => Err(NoMemory),
    }
}

impl Trial {
    /// A client receives a piece.
    pub(crate) fn hears(&mut self, who: Whose, piece: &[u8]) -> Result<(), NoMemory>
        requires there { HasClient who self.old }
        ensures ok { OnOk result (self.new ≡ hears who piece.now self.old) }
        ensures stays { Stays self.old self.new }
        ensures shown { self.new.shown ≡ self.old.shown }
    {
        match who {
            Whose::Method => method_hears(&mut self.method, piece),
            Whose::Field(index) => field_hears(&mut self.fields[index].client, piece),
        }
    }

    // What waits to be sent goes to the shared state.
    fn send_waiting(&mut self, who: Whose) -> Result<(), Stop>
        requires there { HasClient who self.old }
        ensures run { IsRun (sends_waiting who self.old) result self.new }
        ensures stays { Stays self.old self.new }
    {
        let number = number_of(who);
        match who {
            Whose::Method => {
                let bytes = self.method.to_send();
                send_all(self.alloc, &mut self.shared, number, bytes)
            }
            Whose::Field(index) => {
                let bytes = self.fields[index].client.to_send();
                send_all(self.alloc, &mut self.shared, number, bytes)
            }
        }
    }

    // Nothing waits any more.
    fn sent(&mut self, who: Whose)
        requires there { HasClient who self.old }
        ensures now { self.new ≡ sent who self.old }
        ensures stays { Stays self.old self.new }
    {
        match who {
            Whose::Method => self.method.sent(),
            Whose::Field(index) => self.fields[index].client.sent(),
        }
    }

    /// A client sends what waits, one message a step. What waits for a peer that ended is dropped.
    pub(crate) fn sends(&mut self, who: Whose) -> Result<(), Stop>
        requires there { HasClient who self.old }
        ensures run { IsRun (sends who self.old) result self.new }
        ensures stays { Stays self.old self.new }
    {
        self.send_waiting(who)?;
        self.sent(who);
        Ok(())
    }

    /// A field's own user edits it.
    pub(crate) fn edit(&mut self, index: usize, edit: &Edit<'_>) -> Result<(), NoMemory>
        requires there { index < length self.old.fields }
        requires edit { IsEdit edit.now }
        ensures ok { OnOk result (self.new ≡ edits index (entry_of edit.now) self.old) }
        ensures stays { Stays self.old self.new }
        ensures shown { self.new.shown ≡ self.old.shown }
    {
        self.fields[index].client.edit(edit)?;
        Ok(())
    }

    /// The method's user commits edits.
    pub(crate) fn commit(&mut self, batch: &BatchView<'_>) -> Result<(), NoMemory>
        requires { IsBatch batch.now }
        ensures ok { OnOk result (self.new ≡ commits (batch_of batch.now) self.old) }
        ensures stays { Stays self.old self.new }
        ensures shown { self.new.shown ≡ self.old.shown }
    {
        self.method.batch(batch)
    }

    /// A field stops reading, or goes on.
    pub(crate) fn pause(&mut self, index: usize, is_paused: bool)
        requires { index < length self.old.fields }
        ensures now { self.new ≡ pauses index is_paused self.old }
        ensures stays { Stays self.old self.new }
    {
        self.fields[index].is_paused = is_paused;
    }
}
