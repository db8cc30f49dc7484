//! The lines of a script, played one after the other.
ghost use Rattle.std.specs.Prelude.{◌≡◌, ◌+◌, ◌≤◌, ◌<◌, ◌-◌, ◌++◌, length, All, OnOk};
ghost use Rattle.trial_field.specs.Log as logs;
ghost use Rattle.broker_steps.specs.Ranges.{IsShellStep};
ghost use Rattle.trial_script.specs.Grammar.{IsAction, IsFieldEdit, AreEdits};
ghost use Rattle.trial_script.specs.Scripts.{field_named};
ghost use Rattle.trial_run.specs.Lines.{edit_of, batch_of, shell_says, pressed, show_line};
ghost use Rattle.trial_run.specs.Lines.{acted, line_played, actions_played};
ghost use Rattle.trial_run.specs.Play.{text_at};
ghost use Rattle.trial_run.specs.Working.{IsRun, Stays};

use crate::showing::add_field;
use crate::steps::step;
use crate::stop::Stop;
use crate::trial::Trial;
use crate::whose::Whose;
use broker_steps::{ShellStep, Step};
use trial_field::{BatchView, Edit};
use trial_script::{Action, Edits, FieldEdit};
use wio_core::NoMemory;

/// The id under which each field's client has its surface.
const SURFACE: u32 = 6;

// The edit as the field takes it.
fn edit_of(edit: &FieldEdit) -> Edit<'_>
    requires { IsFieldEdit edit.now }
    ensures value { logs.entry_of result ≡ edit_of edit.now }
    ensures valid { logs.IsEdit result }
{
    match edit {
        FieldEdit::Insert(text) => Edit::Insert(text.as_str()),
        FieldEdit::Left => Edit::Left,
        FieldEdit::Right => Edit::Right,
        FieldEdit::Rub => Edit::Rub,
    }
}

// The edits as the method takes them.
fn batch_of(edits: &Edits) -> BatchView<'_>
    requires { AreEdits edits.now }
    ensures value { logs.batch_of result ≡ batch_of edits.now }
    ensures valid { logs.IsBatch result }
{
    BatchView {
        before: edits.before,
        after: edits.after,
        string: edits.string.as_str(),
        preedit: edits.preedit.as_str(),
        begin: edits.begin,
        end: edits.end,
    }
}

impl Trial {
    // The shell says something.
    fn shell(&mut self, says: ShellStep) -> Result<(), Stop>
        requires { IsShellStep says }
        ensures run { IsRun (shell_says says self.old) result self.new }
        ensures stays { Stays self.old self.new }
    {
        step(&mut self.shared, &Step::Shell(says))
    }

    // The shell presses a key and releases it.
    fn press(&mut self, time: u32, key: u32) -> Result<(), Stop>
        ensures run { IsRun (pressed time key self.old) result self.new }
        ensures stays { Stays self.old self.new }
    {
        self.shell(ShellStep::Key {
            time,
            key,
            state: 1,
        })?;
        self.shell(ShellStep::Key {
            time,
            key,
            state: 0,
        })
    }

    // The field with this index is shown, with its number.
    fn show(&mut self, number: u32, index: usize) -> Result<(), NoMemory>
        requires { index < length self.old.fields }
        ensures ok { OnOk result (self.new ≡ record self.old {
          shown = self.old.shown ++ show_line number (text_at index self.old);
        }) }
        ensures stays { Stays self.old self.new }
    {
        let field = self.fields[index].client.field();
        add_field(self.alloc, &mut self.shown, number, field)
    }

    // What the line of an action does.
    fn act(&mut self, time: u32, action: &Action) -> Result<(), Stop>
        requires valid { IsAction action.now }
        requires there { field_named action.now ≤ length self.old.fields }
        requires few { length self.old.fields ≤ 16 }
        ensures run { IsRun (acted time action.now self.old) result self.new }
        ensures stays { Stays self.old self.new }
    {
        match action {
            Action::Use(field) => self.shell(ShellStep::Focus {
                peer: *field + 1,
                id: SURFACE,
            }),
            Action::Leave => self.shell(ShellStep::Unfocus),
            Action::Press(key) => self.press(time, *key),
            Action::Batch(edits) => {
                self.commit(&batch_of(edits))?;
                self.sends(Whose::Method)
            }
            Action::Edit(field, edit) => {
                let index = *field as usize - 1;
                self.edit(index, &edit_of(edit))?;
                self.sends(Whose::Field(index))
            }
            Action::Pause(field) => {
                self.pause(*field as usize - 1, true);
                Ok(())
            }
            Action::Resume(field) => {
                self.pause(*field as usize - 1, false);
                Ok(())
            }
            Action::Show(field) => {
                self.show(*field, *field as usize - 1)?;
                Ok(())
            }
        }
    }

    // That, and then the rounds.
    fn line(&mut self, time: u32, action: &Action) -> Result<(), Stop>
        requires valid { IsAction action.now }
        requires there { field_named action.now ≤ length self.old.fields }
        requires few { length self.old.fields ≤ 16 }
        ensures run { IsRun (line_played time action.now self.old) result self.new }
        ensures stays { Stays self.old self.new }
    {
        self.act(time, action)?;
        self.rounds()
    }

    /// Plays the actions. The time of the first is the number of its line, modulo 2^32.
    pub(crate) fn actions(&mut self, first: u32, actions: &[Action]) -> Result<(), Stop>
        requires valid { All (λ action. IsAction action
            × (field_named action ≤ length self.old.fields)) actions.now }
        requires few { length self.old.fields ≤ 16 }
        ensures run { IsRun (actions_played first actions.now self.old) result self.new }
    {
        let mut time = first;
        for action in actions {
            self.line(time, action)?;
            time = time.wrapping_add(1);
        }
        Ok(())
    }
}
