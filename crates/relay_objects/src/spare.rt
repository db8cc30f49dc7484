//! What is made before an act, so that the act takes no memory.
ghost use Rattle.std.specs.Prelude.{◌≡◌, [], Some, None, OnOk, OnErr, IsTrue};
ghost use Rattle.field_state.specs.Texts.{has_no_zero};

use field_state::Room;
use kbd_grab::NoMemory;
use relay_model::Text;
use std::alloc::Global;
use std::mem;

/// Copies of the texts that the act may tell, and memory for the texts of a field that had none.
#[derive(Drop)]
pub struct Spare {
    /// A surrounding text, or the string of a batch.
    pub text: Text,
    /// The preedit of a batch.
    pub preedit: Text,
    /// The memory for a field's texts, if it is made.
    pub room: Option<Room>,
}

impl Spare {
    /// Nothing is copied, and no memory is made.
    pub fn new(alloc: Global) -> Spare
        ensures { result ≡ record { text = []; preedit = []; room = None } }
    {
        Spare {
            text: Text::empty(alloc),
            preedit: Text::empty(alloc),
            room: None,
        }
    }

    /// Copies a surrounding text. `NoMemory` is its one error, after which all is as before.
    pub fn copy_text(&mut self, alloc: Global, text: &str) -> Result<(), NoMemory>
        requires { IsTrue (has_no_zero text.now) }
        ensures ok { OnOk result (self.new ≡ record self.old { text = text.now }) }
        ensures err { OnErr result (self.new ≡ self.old) }
    {
        self.text = Text::of(alloc, text)?;
        Ok(())
    }

    /// Copies the string and the preedit of a batch. `NoMemory` is its one error, after which all is as before.
    pub fn copy_batch(&mut self, alloc: Global, string: &str, preedit: &str) -> Result<(), NoMemory>
        requires string { IsTrue (has_no_zero string.now) }
        requires preedit { IsTrue (has_no_zero preedit.now) }
        ensures ok { OnOk result (self.new
            ≡ record self.old { text = string.now; preedit = preedit.now }) }
        ensures err { OnErr result (self.new ≡ self.old) }
    {
        let string = Text::of(alloc, string)?;
        let preedit = Text::of(alloc, preedit)?;
        self.text = string;
        self.preedit = preedit;
        Ok(())
    }

    /// Makes memory for a field's texts, where none is made. `NoMemory` is its one error, after which all is as before.
    pub fn make_room(&mut self, alloc: Global) -> Result<(), NoMemory>
        ensures ok { OnOk result (self.new ≡ record self.old { room = Some tt }) }
        ensures err { OnErr result (self.new ≡ self.old) }
    {
        if self.room.is_none() {
            self.room = Some(Room::new(alloc)?);
        }
        Ok(())
    }

    /// Hands the text out; an empty one is in its place.
    pub fn take_text(&mut self, alloc: Global) -> Text
        ensures text { result ≡ self.old.text }
        ensures rest { self.new ≡ record self.old { text = [] } }
    {
        mem::replace(&mut self.text, Text::empty(alloc))
    }

    /// Hands the preedit out; an empty one is in its place.
    pub fn take_preedit(&mut self, alloc: Global) -> Text
        ensures text { result ≡ self.old.preedit }
        ensures rest { self.new ≡ record self.old { preedit = [] } }
    {
        mem::replace(&mut self.preedit, Text::empty(alloc))
    }
}
