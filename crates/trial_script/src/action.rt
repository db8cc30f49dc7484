//! What a script does to the fields, the method and the shell.
use compose_method::Text;
use std::alloc::{AllocError, Global};
use std::marker::Model;

/// What a field's own user does.
#[derive(Debug, Drop)]
pub enum FieldEdit {
    /// Puts the text at the cursor, and the cursor behind it.
    Insert(Text),
    /// Moves the cursor over the character before it.
    Left,
    /// Moves the cursor over the character behind it.
    Right,
    /// Deletes the character before the cursor.
    Rub,
}

/// The edits that the method commits at once.
#[derive(Debug, Drop)]
pub struct Edits {
    /// Bytes to delete before the cursor.
    pub before: u32,
    /// Bytes to delete behind the cursor.
    pub after: u32,
    /// The text to insert: at most 4,083 bytes.
    pub string: Text,
    /// The text to show at the cursor: at most 4,075 bytes.
    pub preedit: Text,
    /// Where the preedit's cursor begins.
    pub begin: i32,
    /// Where the preedit's cursor ends.
    pub end: i32,
}

/// A line between `fields` and `end`. Fields are numbered from 1.
#[derive(Debug, Drop)]
pub enum Action {
    /// The shell focuses the field's surface.
    Use(u32),
    /// The shell unfocuses.
    Leave,
    /// The shell presses and releases the key.
    Press(u32),
    /// The method commits edits.
    Batch(Edits),
    /// The field's own user edits it.
    Edit(u32, FieldEdit),
    /// The field stops reading what it is told.
    Pause(u32),
    /// The field goes on reading.
    Resume(u32),
    /// The field's text, cursor and preedit are printed.
    Show(u32),
}

/// Actions in the order of their lines, which contracts see as a list.
#[derive(Debug, Drop)]
pub struct Actions {
    items: Vec<Action>,
}

impl Model for Actions {
    ghost use Rattle.std.specs.Prelude.{List};
    ghost use Rattle.trial_script.specs.declared.action.Action.{Action};

    ghost Value = { List Action };

    ghost view = { λ a. a.items.items };
}

impl Actions {
    ghost use Rattle.std.specs.Prelude.{◌≡◌, ◌++◌, ◌∷◌, [], OnOk, OnErr};

    pub(crate) fn new(alloc: Global) -> Actions
        ensures { result ≡ [] }
    {
        Actions {
            items: Vec::new(alloc),
        }
    }

    pub(crate) fn push(&mut self, action: Action) -> Result<(), AllocError>
        ensures ok { OnOk result (self.new ≡ self.old ++ action ∷ []) }
        ensures err { OnErr result (self.new ≡ self.old) }
    {
        self.items.push(action)?;
        Ok(())
    }

    /// The actions.
    pub fn as_slice(&self) -> &[Action]
        ensures { result.now ≡ self.now }
    {
        &self.items
    }
}
