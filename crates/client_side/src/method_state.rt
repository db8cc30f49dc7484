//! What types, with what its client told and is told.
ghost use Rattle.std.specs.Prelude.{◌≡◌, ◌+◌, ◌≤◌, ◌++◌, ◌∷◌, [], length, IfOk, OnOk, IsTrue};
ghost use Rattle.wl_wire.specs.Texts.{has_no_zero};
ghost use Rattle.client_side.specs.MethodSends.{batch_sent};
ghost use Rattle.trial_field.specs.Log.{IsBatch, batch_of};
ghost use Rattle.compose_method.specs.declared.typist.TheConstants.{MAX_STRING, MAX_PREEDIT};
ghost use Rattle.client_side.specs.Messages.{spelled};
ghost use Rattle.client_side.specs.MethodLog.{committed, press_sent, batch_with};
ghost use Rattle.client_side.specs.MethodState.{new_state, happens, after_event};
ghost use Rattle.client_side.specs.Heard.{Reached};

use crate::hearer::MethodHearer;
use crate::method_telling::put_batch;
use crate::outbox::Outbox;
use crate::setup::put_method_setup;
use compose_method::Typist;
use std::alloc::Global;
use std::marker::Model;
use trial_field::BatchView;
use wio_core::NoMemory;
use wl_proto::Event;

/// The most bytes that the set-up has.
const SETUP_ROOM: usize = 256;

/// The state of a key that is pressed.
const PRESSED: u32 = 1;

// One press, and what it makes the client send.
fn press<T: Typist>(typist: &mut T, out: &mut Outbox, dones: u32, key: u32)
    requires { 8226 ≤ out.old.room }
    ensures typing { typist.new ≡ T.meanings.pressed key typist.old }
    ensures bytes { out.new.bytes ≡ out.old.bytes ++ spelled
        (press_sent T.meanings key (record { typing = typist.old; dones = dones })) }
    ensures room { out.old.room ≤ out.new.room + 8226 }
{
    if let Some((string, preedit)) = typist.press(key) {
        put_typed(out, string, preedit, dones);
    }
}

// The batch of one press.
fn put_typed(out: &mut Outbox, string: &str, preedit: &str, dones: u32)
    requires string { length string.now ≤ MAX_STRING }
    requires preedit { length preedit.now ≤ MAX_PREEDIT }
    requires clean { IsTrue (has_no_zero string.now) × IsTrue (has_no_zero preedit.now) }
    requires room { 8226 ≤ out.old.room }
    ensures bytes { out.new.bytes ≡ out.old.bytes
        ++ spelled (batch_sent (batch_with string.now preedit.now) dones) }
    ensures room { out.old.room ≤ out.new.room + 8226 }
{
    let end = preedit.len() as i32;
    let batch = BatchView {
        before: 0,
        after: 0,
        string,
        preedit,
        begin: end,
        end,
    };
    put_batch(out, &batch, dones);
}

// The method's client between two messages.
#[derive(Debug, Drop)]
pub(crate) struct MethodState<T: Typist> {
    typist: T,
    dones: u32,
    out: Outbox,
}

impl<T: Typist> Model for MethodState<T> {
    ghost use Rattle.client_side.specs.MethodWorking.{Working, working};

    ghost Value = { Working T };

    ghost view = { λ m. working m.typist m.dones m.out };
}

impl<T: Typist> MethodState<T> {
    // A typist to which nothing came, with its set-up to send.
    pub(crate) fn new(alloc: Global, typist: T) -> Result<MethodState<T>, NoMemory>
        ensures { IfOk result (λ m. m.state ≡ new_state typist) }
    {
        let mut out = Outbox::new(alloc);
        out.reserve(SETUP_ROOM)?;
        put_method_setup(&mut out);
        Ok(MethodState {
            typist,
            dones: 0,
            out,
        })
    }

    // Makes room for so many bytes to send.
    pub(crate) fn reserve(&mut self, room: usize) -> Result<(), NoMemory>
        ensures ok { OnOk result (room ≤ self.new.room) }
        ensures state { self.new.state ≡ self.old.state }
    {
        self.out.reserve(room)
    }

    // Commits these edits.
    pub(crate) fn batch(&mut self, batch: &BatchView<'_>)
        requires batch { IsBatch batch.now }
        requires room { 68 + length batch.now.string.now + length batch.now.preedit.now ≤
            self.old.room }
        ensures state { self.new.state ≡
            happens T.meanings (committed (batch_of batch.now)) self.old.state }
    {
        put_batch(&mut self.out, batch, self.dones);
    }

    // One event of the input method, its keyboard grab, or of another object, of which the last
    // change nothing. It is heard.
    pub(crate) fn take<H: MethodHearer>(&mut self, event: &Event<'_>, hearer: &mut H)
        requires room { 8226 ≤ self.old.room }
        ensures state { self.new.state ≡ after_event T.meanings event.now self.old.state }
        ensures room { self.old.room ≤ self.new.room + 8226 }
        ensures heard { Reached H.may_follow hearer.old (event.now ∷ []) hearer.new }
    {
        hearer.came(event);
        match event {
            Event::Key { key, state, .. } => {
                if *state == PRESSED {
                    press(&mut self.typist, &mut self.out, self.dones, *key);
                }
            }
            Event::InputMethodDone => {
                self.dones = self.dones.wrapping_add(1);
                self.typist.event(event);
            }
            _ => self.typist.event(event),
        }
    }

    // What waits to be sent.
    pub(crate) fn to_send(&self) -> &[u8]
        ensures { result.now ≡ self.now.state.to_send }
    {
        self.out.as_slice()
    }

    // What waited was sent.
    pub(crate) fn sent(&mut self)
        ensures { self.new.state ≡ record self.old.state { to_send = [] } }
    {
        self.out.clear();
    }
}
