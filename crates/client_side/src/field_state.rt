//! A field with what its client told and is told of it.
ghost use Rattle.std.specs.Prelude.{◌≡◌, ◌+◌, ◌≤◌, [], IfOk, OnOk};
ghost use Rattle.client_side.specs.Fitting.{IsFitting};
ghost use Rattle.trial_field.specs.Log.{IsEdit, IsBatch, entry_of, batch_of, no_edits};
ghost use Rattle.trial_field.specs.FieldText.{after};
ghost use Rattle.client_side.specs.Happenings.{edited, batch, entered, left};
ghost use Rattle.client_side.specs.FieldLog.{changes};
ghost use Rattle.client_side.specs.FieldState.{new_state, happens, after_event};
ghost use Rattle.client_side.specs.Heard.{Reached, happened};
ghost use Rattle.wl_proto.specs.declared.event.Event.TheVariants.{TextInputDone};

use crate::field_telling::{put_change, put_enable};
use crate::hearer::FieldHearer;
use crate::outbox::Outbox;
use crate::pending::Pending;
use crate::setup::put_field_setup;
use std::alloc::Global;
use std::marker::Model;
use trial_field::{BatchView, Edit, TrialField};
use wio_core::NoMemory;
use wl_proto::Event;

/// The most bytes that one edit or one event makes a field's client send.
pub(crate) const MOST_SENT: usize = 4_080;

/// The most bytes that the set-up has.
const SETUP_ROOM: usize = 256;

/// Why a text changed (`zwp_text_input_v3.change_cause`): by an input method, or by the field's own
/// user.
const BY_METHOD: u32 = 0;

const BY_USER: u32 = 1;

// A batch without edits, which drops the preedit and changes nothing else.
fn no_edits() -> BatchView<'static>
    ensures value { batch_of result ≡ no_edits }
    ensures batch { IsBatch result }
{
    BatchView {
        before: 0,
        after: 0,
        string: "",
        preedit: "",
        begin: 0,
        end: 0,
    }
}

// One edit of the field's own user, and whether it changed text or cursor.
fn change(field: &mut TrialField, edit: &Edit<'_>) -> bool
    requires { IsEdit edit.now }
    ensures answer { result ≡ changes (entry_of edit.now) field.old }
    ensures text { field.new ≡ after (entry_of edit.now) field.old }
{
    field.edit(edit)
}

// A field's client between two messages.
#[derive(Debug, Drop)]
pub(crate) struct FieldState {
    field: TrialField,
    is_entered: bool,
    commits: u32,
    pending: Pending,
    out: Outbox,
}

impl Model for FieldState {
    ghost use Rattle.client_side.specs.Working.{Working, working};

    ghost Value = { Working };

    ghost view = { working };
}

impl FieldState {
    // A field that nothing happened to, with its set-up to send.
    pub(crate) fn new(alloc: Global) -> Result<FieldState, NoMemory>
        ensures { IfOk result (λ f. f.state ≡ new_state) }
    {
        let field = TrialField::new(alloc)?;
        let pending = Pending::new(alloc)?;
        let mut out = Outbox::new(alloc);
        out.reserve(SETUP_ROOM)?;
        put_field_setup(&mut out);
        Ok(FieldState {
            field,
            is_entered: false,
            commits: 0,
            pending,
            out,
        })
    }

    // Makes room for so many bytes to send.
    pub(crate) fn reserve(&mut self, room: usize) -> Result<(), NoMemory>
        ensures ok { OnOk result (room ≤ self.new.room) }
        ensures state { self.new.state ≡ self.old.state }
    {
        self.out.reserve(room)
    }

    // One edit of the field's own user.
    pub(crate) fn edit(&mut self, edit: &Edit<'_>) -> bool
        requires edit { IsEdit edit.now }
        requires room { 4080 ≤ self.old.room }
        ensures answer { result ≡ changes (entry_of edit.now) self.old.state.field.text }
        ensures state { self.new.state ≡ happens (edited (entry_of edit.now)) self.old.state }
    {
        let changes = change(&mut self.field, edit);
        if changes && self.is_entered {
            put_change(&mut self.out, &self.field, BY_USER);
            self.commits = self.commits.wrapping_add(1);
        }
        changes
    }

    // `zwp_text_input_v3.enter`
    fn enter(&mut self)
        requires { 4080 ≤ self.old.room }
        ensures state { self.new.state ≡ happens entered self.old.state }
        ensures room { self.old.room ≤ self.new.room + 4080 }
    {
        self.is_entered = true;
        put_enable(&mut self.out, &self.field);
        self.commits = self.commits.wrapping_add(1);
    }

    // `zwp_text_input_v3.leave`: the preedit is dropped.
    fn leave(&mut self)
        ensures state { self.new.state ≡ happens left self.old.state }
        ensures room { self.old.room ≤ self.new.room }
    {
        self.is_entered = false;
        self.field.done(&no_edits());
    }

    // `zwp_text_input_v3.done`
    fn done(&mut self, serial: u32)
        requires { 4080 ≤ self.old.room }
        ensures state { self.new.state ≡ after_event (TextInputDone serial) self.old.state }
        ensures room { self.old.room ≤ self.new.room + 4080 }
    {
        self.field.done(&self.pending.view());
        self.pending.clear();
        if serial == self.commits {
            put_change(&mut self.out, &self.field, BY_METHOD);
            self.commits = self.commits.wrapping_add(1);
        }
    }

    // One event of the text input or of another object, of which only the former change anything,
    // and what it makes happen is heard.
    pub(crate) fn take<H: FieldHearer>(&mut self, event: &Event<'_>, hearer: &mut H)
        requires room { 4080 ≤ self.old.room }
        requires fits { IsFitting event.now }
        ensures state { self.new.state ≡ after_event event.now self.old.state }
        ensures room { self.old.room ≤ self.new.room + 4080 }
        ensures heard { Reached H.may_follow hearer.old (happened event.now self.old.state)
            hearer.new }
    {
        match event {
            Event::Enter { .. } => {
                self.enter();
                hearer.entered();
            }
            Event::Leave { .. } => {
                self.leave();
                hearer.left();
            }
            Event::PreeditString { text, begin, end } => {
                self.pending.set_preedit(text.unwrap_or(""), *begin, *end)
            }
            Event::CommitString { text } => self.pending.set_string(text.unwrap_or("")),
            Event::DeleteSurroundingText { before, after } => {
                self.pending.set_deletion(*before, *after)
            }
            Event::TextInputDone { serial } => {
                hearer.batch(&self.pending.view(), *serial);
                self.done(*serial);
            }
            _ => {}
        }
    }

    // The field.
    pub(crate) fn field(&self) -> &TrialField
        ensures { result.now ≡ self.now.state.field.text }
    {
        &self.field
    }

    // How many commits were sent, modulo 2^32.
    pub(crate) fn commits(&self) -> u32
        ensures { result ≡ self.now.state.field.commits }
    {
        self.commits
    }

    // What waits to be sent.
    pub(crate) fn to_send(&self) -> &[u8]
        ensures { result.now ≡ self.now.state.to_send }
    {
        self.out.as_slice()
    }

    // What waited was sent.
    pub(crate) fn sent(&mut self)
        ensures { self.new.state ≡ record self.old.state { to_send = [] } }
    {
        self.out.clear();
    }
}
