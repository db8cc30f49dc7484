//! What is made before an act.
ghost use Rattle.std.specs.Prelude.{◌≡◌, ◌-◌, ◌<◌, ◌≤◌, Some, None, OnOk, OnErr, IsTrue};
ghost use Rattle.edit_batch.specs.Texts.{has_no_zero};
ghost use Rattle.relay_model.specs.declared.act.Act.{Act};
ghost use Rattle.relay_objects.specs.Objects.{find, field_in};
ghost use Rattle.relay_core.specs.Kept.{state, HasSpare, text_pending};
ghost use Rattle.relay_core.specs.Machine.{made, text_around, holder_state};

use crate::machine::Machine;
use field_state::Field;
use kbd_grab::NoMemory;
use relay_model::{Act, Label};

fn surrounding_text(field: &Field) -> &str
    ensures text { result.now ≡ text_around field.now.current.surrounding }
    ensures clean { IsTrue (has_no_zero result.now) }
{
    match field.surrounding() {
        Some((text, _, _)) => text,
        None => "",
    }
}

fn pending_text(field: &Field) -> &str
    ensures text { result.now ≡ text_around field.now.pending.surrounding }
    ensures clean { IsTrue (has_no_zero result.now) }
{
    match field.pending_surrounding() {
        Some((text, _, _)) => text,
        None => "",
    }
}

impl Machine {
    #[inline(never)]
    fn copy_holder(&mut self) -> Result<(), NoMemory>
        ensures same { state self.new ≡ state self.old }
        ensures objects { self.new.objects ≡ self.old.objects }
        ensures text { OnOk result (self.new.spare.text ≡ text_around
            (holder_state (state self.old)).surrounding) }
        ensures kept { OnErr result (self.new.spare ≡ self.old.spare) }
    {
        match self.objects.field_at(self.holder) {
            Some(field) => self.spare.copy_text(self.alloc, surrounding_text(field)),
            None => self.spare.copy_text(self.alloc, ""),
        }
    }

    #[inline(never)]
    fn copy_pending(&mut self, field: Label) -> Result<(), NoMemory>
        ensures same { state self.new ≡ state self.old }
        ensures objects { self.new.objects ≡ self.old.objects }
        ensures text { OnOk result (self.new.spare.text ≡ text_pending
            (field_in (find (state self.old).objects field))) }
        ensures kept { OnErr result (self.new.spare ≡ self.old.spare) }
    {
        match self.objects.field_of(field) {
            Some(field) => self.spare.copy_text(self.alloc, pending_text(field)),
            None => self.spare.copy_text(self.alloc, ""),
        }
    }

    #[inline(never)]
    fn copy_edits(&mut self) -> Result<(), NoMemory>
        ensures same { state self.new ≡ state self.old }
        ensures objects { self.new.objects ≡ self.old.objects }
        ensures string { OnOk result (self.new.spare.text ≡ (state self.old).edits.string) }
        ensures preedit { OnOk result (self.new.spare.preedit ≡ (state
            self.old).edits.preedit.text) }
        ensures kept { OnErr result (self.new.spare ≡ self.old.spare) }
    {
        let edits = self.pending.edits();
        self.spare
            .copy_batch(self.alloc, edits.string, edits.preedit)
    }

    // Makes copies of the texts that the act may tell, and memory for a text of a field.
    fn spare_for(&mut self, act: &Act) -> Result<(), NoMemory>
        ensures same { state self.new ≡ state self.old }
        ensures objects { self.new.objects ≡ self.old.objects }
        ensures spare { OnOk result (HasSpare (state self.old) self.new.spare act.now) }
        ensures kept { OnErr result (self.new.spare ≡ self.old.spare) }
    {
        match act {
            Act::Surround { .. } => self.spare.make_room(self.alloc),
            Act::Method { .. } => self.copy_holder(),
            Act::Commit { field } => self.copy_pending(*field),
            Act::MCommit { .. } => self.copy_edits(),
            _ => Ok(()),
        }
    }

    /// Makes the room for one act.
    pub fn reserve_room(&mut self) -> Result<(), NoMemory>
        ensures same { state self.new ≡ state self.old }
        ensures room { OnOk result (0 < self.new.objects.room) }
        ensures more { self.old.objects.room ≤ self.new.objects.room }
        ensures kept { self.new.spare ≡ self.old.spare }
    {
        self.objects.reserve()
    }

    /// Makes the room for one act, and what else it needs.
    #[inline(always)]
    pub fn reserve(&mut self, act: &Act) -> Result<(), NoMemory>
        ensures same { state self.new ≡ state self.old }
        ensures room { OnOk result (0 < self.new.objects.room) }
        ensures spare { OnOk result (HasSpare (state self.new) self.new.spare act.now) }
        ensures more { self.old.objects.room ≤ self.new.objects.room }
        ensures kept { OnErr result (self.new.spare ≡ self.old.spare) }
    {
        self.reserve_room()?;
        self.spare_for(act)
    }
}
