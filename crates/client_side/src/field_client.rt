//! The client of a trial's field.
ghost use Rattle.std.specs.Prelude.{◌≡◌, ◌++◌, [], ◌∷◌, ℕ, List, true, false, IfOk, OnOk, OnErr};
ghost use Rattle.std.specs.Prelude.{Ok, Err};
ghost use Rattle.trial_field.specs.Log.{IsEdit, entry_of};
ghost use Rattle.client_side.specs.Happenings.{Happening, edited};
ghost use Rattle.client_side.specs.FieldLog.{changes};
ghost use Rattle.client_side.specs.FieldState.{new_state, happens, after_event, HasLog, GoesOn};
ghost use Rattle.client_side.specs.Events.{field_objects};
ghost use Rattle.client_side.specs.Client.{Accepts, Refuses};
ghost use Rattle.client_side.specs.Heard.{Hears, HearsWrong, happened};

use crate::fault::ClientFault;
use crate::field_receiving::{hold, take_held};
use crate::field_state::{FieldState, MOST_SENT};
use crate::hearer::FieldHearer;
use std::alloc::Global;
use std::marker::Model;
use trial_field::{Edit, TrialField};
use wio_core::NoMemory;

/// An application with one text field, as a peer of the broker: it tells its field's state, and
/// edits it by what it is told.
///
/// It has a surface 6 and a text input 7. In contracts it is a `Client` whose state is the field by
/// its log, the edits that wait for their done, and the bytes to send.
#[derive(Debug, Drop)]
pub struct FieldClient {
    state: FieldState,
    held: Vec<u8>,
    is_bad: bool,
}

impl Model for FieldClient {
    ghost use Rattle.client_side.specs.Client.{Client};
    ghost use Rattle.client_side.specs.FieldState.{State};

    ghost Value = { Client State };

    ghost view = { λ c. record { state = c.state.state; held = c.held.items; is_bad = c.is_bad } };
}

impl FieldClient {
    /// A client with an empty field, and its set-up messages to send.
    pub fn new(alloc: Global) -> Result<FieldClient, NoMemory>
        ensures new { IfOk result (λ client.
            client ≡ record { state = new_state; held = []; is_bad = false }) }
        ensures log { IfOk result (λ client. HasLog [] [] client.state) }
    {
        let state = FieldState::new(alloc)?;
        Ok(FieldClient {
            state,
            held: Vec::new(alloc),
            is_bad: false,
        })
    }

    /// One edit of the field's own user, and whether it changed text or cursor. While the field is
    /// entered, a change is told.
    pub fn edit(&mut self, edit: &Edit<'_>) -> Result<bool, NoMemory>
        requires { IsEdit edit.now }
        ensures answer { IfOk result (λ changed.
            changed ≡ changes (entry_of edit.now) self.old.state.field.text) }
        ensures step { OnOk result (
            let state = happens (edited (entry_of edit.now)) self.old.state in
            self.new ≡ record self.old { state = state }) }
        ensures log { (log : List Happening) (sent : List ℕ) → HasLog log sent self.old.state →
            OnOk result (HasLog (edited (entry_of edit.now) ∷ log) sent self.new.state) }
        ensures err { OnErr result (self.new ≡ self.old) }
    {
        self.state.reserve(MOST_SENT)?;
        Ok(self.state.edit(edit))
    }

    /// Takes bytes that the broker sent, however they are cut: the events that are whole now are
    /// taken, and a cut one waits for its rest.
    ///
    /// `BadEvent` where the bytes so far aren't events of the client's objects and a part of a message;
    /// what stood before is taken, the bytes stay, and from then on each piece is answered so. After
    /// `NoMemory` the client is as before.
    pub fn receive(&mut self, piece: &[u8]) -> Result<(), ClientFault>
        ensures ok { OnOk result (Accepts field_objects after_event self.old self.new piece.now) }
        ensures bad { result ≡ Err ClientFault.BadEvent → self.old.is_bad ≡ false
            → Refuses field_objects after_event self.old self.new piece.now }
        ensures again { self.old.is_bad ≡ true → result ≡ Err ClientFault.BadEvent }
        ensures stays_bad { self.old.is_bad ≡ true → self.new ≡ self.old }
        ensures log { (log : List Happening) (sent : List ℕ) → HasLog log sent self.old.state →
            GoesOn self.old.state self.new.state log sent }
        ensures no_memory { result ≡ Err ClientFault.NoMemory → self.new ≡ self.old }
    {
        self.receive_heard(piece, &mut ())
    }

    /// As `receive`, and the hearer is told what the events that are taken make happen, one thing
    /// after the other. It is told nothing where the answer is `NoMemory`.
    pub fn receive_heard<H: FieldHearer>(
        &mut self,
        piece: &[u8],
        hearer: &mut H,
    ) -> Result<(), ClientFault>
        ensures ok { OnOk result (Accepts field_objects after_event self.old self.new piece.now) }
        ensures bad { result ≡ Err ClientFault.BadEvent → self.old.is_bad ≡ false
            → Refuses field_objects after_event self.old self.new piece.now }
        ensures again { self.old.is_bad ≡ true → result ≡ Err ClientFault.BadEvent }
        ensures stays_bad { self.old.is_bad ≡ true → self.new ≡ self.old }
        ensures log { (log : List Happening) (sent : List ℕ) → HasLog log sent self.old.state →
            GoesOn self.old.state self.new.state log sent }
        ensures no_memory { result ≡ Err ClientFault.NoMemory → self.new ≡ self.old }
        ensures heard { (rest : List ℕ) × Hears field_objects after_event happened H.may_follow
            self.old.state self.new.state (self.old.held ++ piece.now) rest hearer.old hearer.new }
        ensures heard_all { OnOk result
            (Hears field_objects after_event happened H.may_follow self.old.state self.new.state
            (self.old.held ++ piece.now) self.new.held hearer.old hearer.new) }
        ensures heard_wrong { result ≡ Err ClientFault.BadEvent → self.old.is_bad ≡ false →
            HearsWrong field_objects after_event happened H.may_follow self.old.state self.new.state
            (self.old.held ++ piece.now) hearer.old hearer.new }
        ensures hears_no_more { self.old.is_bad ≡ true → hearer.new ≡ hearer.old }
        ensures unheard { result ≡ Err ClientFault.NoMemory → hearer.new ≡ hearer.old }
    {
        if self.is_bad {
            return Err(ClientFault::BadEvent);
        }
        hold(&mut self.state, &mut self.held, piece)?;
        if !take_held(&mut self.state, &mut self.held, hearer) {
            self.is_bad = true;
            return Err(ClientFault::BadEvent);
        }
        Ok(())
    }

    /// The field.
    pub fn field(&self) -> &TrialField
        ensures { result.now ≡ self.now.state.field.text }
    {
        self.state.field()
    }

    /// How many times the client sent `zwp_text_input_v3.commit`, modulo 2^32.
    pub fn commits(&self) -> u32
        ensures { result ≡ self.now.state.field.commits }
    {
        self.state.commits()
    }

    /// The bytes that wait to be sent: whole messages.
    pub fn to_send(&self) -> &[u8]
        ensures { result.now ≡ self.now.state.to_send }
    {
        self.state.to_send()
    }

    /// All bytes of `to_send` were sent.
    pub fn sent(&mut self)
        ensures now { self.new ≡ record self.old {
          state = record self.old.state { to_send = [] };
        } }
        ensures log { (log : List Happening) (sent : List ℕ) → HasLog log sent self.old.state →
            HasLog log (sent ++ self.old.state.to_send) self.new.state }
    {
        self.state.sent();
    }
}
