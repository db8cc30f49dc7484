//! The client of a trial's method.
ghost use Rattle.std.specs.Prelude.{◌≡◌, ◌++◌, [], ◌∷◌, ℕ, List, true, false, IfOk, OnOk, OnErr};
ghost use Rattle.std.specs.Prelude.{Ok, Err};
ghost use Rattle.trial_field.specs.Log.{IsBatch, batch_of};
ghost use Rattle.client_side.specs.MethodLog.{Happening, committed};
ghost use Rattle.client_side.specs.MethodState.{new_state, happens, after_event, HasLog, GoesOn};
ghost use Rattle.client_side.specs.Events.{method_objects};
ghost use Rattle.client_side.specs.Client.{Accepts, Refuses};
ghost use Rattle.client_side.specs.Heard.{Hears, HearsWrong, came};

use crate::fault::ClientFault;
use crate::hearer::MethodHearer;
use crate::method_receiving::{hold, take_held};
use crate::method_state::MethodState;
use compose_method::Typist;
use std::alloc::Global;
use std::marker::Model;
use trial_field::BatchView;
use wio_core::NoMemory;

/// The most bytes that a batch has beside its texts.
const BATCH_ROOM: usize = 68;

/// An input method as a peer of the broker: it grabs the keyboard, and commits the batch that its
/// typist gives for a press.
///
/// It has an input method 5 and a keyboard grab 6. In contracts it is a `Client` whose state is
/// what is typed, the number of dones that came, modulo 2^32, and the bytes to send.
#[derive(Debug, Drop)]
pub struct MethodClient<T: Typist> {
    state: MethodState<T>,
    held: Vec<u8>,
    is_bad: bool,
}

impl<T: Typist> Model for MethodClient<T> {
    ghost use Rattle.client_side.specs.Client.{Client};
    ghost use Rattle.client_side.specs.MethodState.{State};

    ghost Value = { Client (State T) };

    ghost view = { λ c. record { state = c.state.state; held = c.held.items; is_bad = c.is_bad } };
}

impl<T: Typist> MethodClient<T> {
    /// A client to which nothing came, with its set-up messages to send.
    pub fn new(alloc: Global, typist: T) -> Result<MethodClient<T>, NoMemory>
        ensures new { IfOk result (λ client.
            client ≡ record { state = new_state typist; held = []; is_bad = false }) }
        ensures log { IfOk result (λ client.
            HasLog T.meanings typist [] [] client.state) }
    {
        let state = MethodState::new(alloc, typist)?;
        Ok(MethodClient {
            state,
            held: Vec::new(alloc),
            is_bad: false,
        })
    }

    /// Commits these edits, with the number of dones that came as the serial.
    pub fn batch(&mut self, batch: &BatchView<'_>) -> Result<(), NoMemory>
        requires { IsBatch batch.now }
        ensures step { OnOk result (
            let state = happens T.meanings (committed (batch_of batch.now)) self.old.state in
            self.new ≡ record self.old { state = state }) }
        ensures log { (first : T) (log : List Happening) (sent : List ℕ) →
            HasLog T.meanings first log sent self.old.state →
            OnOk result (HasLog T.meanings first
            (committed (batch_of batch.now) ∷ log) sent self.new.state) }
        ensures err { OnErr result (self.new ≡ self.old) }
    {
        let room = BATCH_ROOM + batch.string.len() + batch.preedit.len();
        self.state.reserve(room)?;
        self.state.batch(batch);
        Ok(())
    }

    /// Takes bytes that the broker sent, however they are cut: the events that are whole now are
    /// taken, and a cut one waits for its rest. Each press of a key commits the batch that the typist
    /// gives.
    ///
    /// `BadEvent` where the bytes so far aren't events of the client's objects and a part of a message;
    /// what stood before is taken, the bytes stay, and from then on each piece is answered so. A
    /// client is given no descriptors, so a keymap is such an event. After `NoMemory` the client is
    /// as before.
    pub fn receive(&mut self, piece: &[u8]) -> Result<(), ClientFault>
        ensures ok { OnOk result (Accepts method_objects
            (after_event T.meanings) self.old self.new piece.now) }
        ensures bad { result ≡ Err ClientFault.BadEvent → self.old.is_bad ≡ false
            → Refuses method_objects (after_event T.meanings) self.old self.new piece.now }
        ensures log { (first : T) (log : List Happening) (sent : List ℕ) →
            HasLog T.meanings first log sent self.old.state →
            GoesOn T.meanings first self.old.state self.new.state log sent }
        ensures again { self.old.is_bad ≡ true → result ≡ Err ClientFault.BadEvent }
        ensures stays_bad { self.old.is_bad ≡ true → self.new ≡ self.old }
        ensures no_memory { result ≡ Err ClientFault.NoMemory → self.new ≡ self.old }
    {
        self.receive_heard(piece, &mut ())
    }

    /// As `receive`, and the hearer is told each event that is taken. It is told nothing where the
    /// answer is `NoMemory`.
    pub fn receive_heard<H: MethodHearer>(
        &mut self,
        piece: &[u8],
        hearer: &mut H,
    ) -> Result<(), ClientFault>
        ensures ok { OnOk result (Accepts method_objects
            (after_event T.meanings) self.old self.new piece.now) }
        ensures bad { result ≡ Err ClientFault.BadEvent → self.old.is_bad ≡ false
            → Refuses method_objects (after_event T.meanings) self.old self.new piece.now }
        ensures log { (first : T) (log : List Happening) (sent : List ℕ) →
            HasLog T.meanings first log sent self.old.state →
            GoesOn T.meanings first self.old.state self.new.state log sent }
        ensures again { self.old.is_bad ≡ true → result ≡ Err ClientFault.BadEvent }
        ensures stays_bad { self.old.is_bad ≡ true → self.new ≡ self.old }
        ensures no_memory { result ≡ Err ClientFault.NoMemory → self.new ≡ self.old }
        ensures heard { (rest : List ℕ) × Hears method_objects
            (after_event T.meanings) came H.may_follow
            self.old.state self.new.state (self.old.held ++ piece.now) rest hearer.old hearer.new }
        ensures heard_all { OnOk result
            (Hears method_objects (after_event T.meanings) came H.may_follow self.old.state
            self.new.state
            (self.old.held ++ piece.now) self.new.held hearer.old hearer.new) }
        ensures heard_wrong { result ≡ Err ClientFault.BadEvent → self.old.is_bad ≡ false →
            HearsWrong method_objects (after_event T.meanings) came H.may_follow self.old.state
            self.new.state
            (self.old.held ++ piece.now) hearer.old hearer.new }
        ensures hears_no_more { self.old.is_bad ≡ true → hearer.new ≡ hearer.old }
        ensures unheard { result ≡ Err ClientFault.NoMemory → hearer.new ≡ hearer.old }
    {
        if self.is_bad {
            return Err(ClientFault::BadEvent);
        }
        hold(&mut self.state, &mut self.held, piece)?;
        if !take_held(&mut self.state, &mut self.held, hearer) {
            self.is_bad = true;
            return Err(ClientFault::BadEvent);
        }
        Ok(())
    }

    /// The bytes that wait to be sent: whole messages.
    pub fn to_send(&self) -> &[u8]
        ensures { result.now ≡ self.now.state.to_send }
    {
        self.state.to_send()
    }

    /// All bytes of `to_send` were sent.
    pub fn sent(&mut self)
        ensures now { self.new ≡ record self.old {
          state = record self.old.state { to_send = [] };
        } }
        ensures log { (first : T) (log : List Happening) (sent : List ℕ) →
            HasLog T.meanings first log sent self.old.state →
            HasLog T.meanings first log (sent ++ self.old.state.to_send) self.new.state }
    {
        self.state.sent();
    }
}
