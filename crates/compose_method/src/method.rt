//! The method: what waits of the keys pressed, and one batch for each press.
ghost use Rattle.std.specs.Prelude.{◌≡◌, ◌≤◌, ◌++◌, ◌∷◌, [], ℕ, List, ◌↔◌, true, false, length};
ghost use Rattle.std.specs.Prelude.{IfOk, IfSome, IsNone, IsTrue};
ghost use Rattle.std.specs.Borrow.{sem};
ghost use Rattle.std.specs.Io.BufRead.{Rests};
ghost use Rattle.wl_wire.specs.Texts.{has_no_zero};
ghost use Rattle.compose_method.specs.Typing.{IsAfter, Continues, pressed, after_event, idle};

use crate::table::{ComposeTable, MAX_KEYS};
use crate::typing::{MAX_TYPED, show_keys, type_keys};
use std::alloc::Global;
use std::marker::Model;
use wio_core::NoMemory;
use wl_proto::Event;

/// An input method that composes: it answers each press with the string and the preedit of one batch.
///
/// It takes its memory when it is made, and none afterwards. It isn't active until it is told
/// `zwp_input_method_v2.activate`.
#[derive(Debug, Drop)]
pub struct Method {
    table: ComposeTable,
    active: bool,
    waiting: Vec<u32>,
    string: String,
    preedit: String,
}

impl Model for Method {
    ghost use Rattle.compose_method.specs.Typing.{Typing};

    ghost Value = { Typing };

    ghost use Rattle.compose_method.specs.Ready.{typing_of, IsReady};

    ghost view = { typing_of };

    ghost invariant = { IsReady };
}

impl Method {
    ghost use Rattle.compose_method.specs.contracts.method.Method.{the_row};

    /// A method with this table, not active.
    pub fn new(alloc: Global, table: ComposeTable) -> Result<Method, NoMemory>
        ensures { IfOk result (λ method. method ≡ idle table) }
    {
        let waiting = Vec::with_capacity(alloc, MAX_KEYS)?;
        let string = String::with_capacity(alloc, MAX_TYPED)?;
        let preedit = String::with_capacity(alloc, MAX_TYPED)?;
        Ok(Method {
            table,
            active: false,
            waiting,
            string,
            preedit,
        })
    }

    /// The string and the preedit of the batch that this press of a key makes, each at most
    /// [`MAX_TYPED`] bytes with no zero byte. `None` exactly where the method isn't active, and
    /// then the press is ignored.
    ///
    /// The strings of the batches since the last activation, one after the other, are what the
    /// presses since then type; the preedit is the own texts of the keys that wait.
    pub fn press(&mut self, key: u32) -> Option<(&str, &str)>
        ensures* after { sem 𝓛 (Rests the_row self.entry (λ new. (new ≡ pressed key self.old) ×
            ((presses : List ℕ) → IsAfter self.old presses → IsAfter new (presses ++ key ∷ [])))) }
        ensures none { IsNone result ↔ (self.old.active ≡ false) }
        ensures batch { IfSome result (λ b. (b.0.now ≡ (pressed key self.old).string) ×
            (b.1.now ≡ (pressed key self.old).preedit)) }
        ensures typed { (presses : List ℕ) → IsAfter self.old presses →
            IfSome result (λ b. Continues self.old.table presses key b.0.now b.1.now) }
        ensures fits { IfSome result (λ b. (length b.0.now ≤ MAX_TYPED) ×
            (length b.1.now ≤ MAX_TYPED)) }
        ensures clean { IfSome result (λ b. IsTrue (has_no_zero b.0.now) ×
            IsTrue (has_no_zero b.1.now)) }
    {
        if !self.take(key) {
            return None;
        }
        Some(self.batch())
    }

    // Makes the batch of a press; false where the method isn't active.
    fn take(&mut self, key: u32) -> bool
        ensures active { result ≡ self.old.active }
        ensures press { self.new ≡ pressed key self.old }
        ensures after { (presses : List ℕ) → IsAfter self.old presses →
            IsAfter self.new (presses ++ key ∷ []) }
        ensures typed { (presses : List ℕ) → IsAfter self.old presses →
            Continues self.old.table presses key self.new.string self.new.preedit }
    {
        if !self.active {
            return false;
        }
        let _ = self.waiting.push(key);
        type_keys(&self.table, &mut self.waiting, &mut self.string);
        show_keys(&self.table, &self.waiting, &mut self.preedit);
        true
    }

    // String and preedit of the last batch.
    fn batch(&self) -> (&str, &str)
        ensures texts { (result.0.now ≡ self.now.string) × (result.1.now ≡ self.now.preedit) }
        ensures fits { (length result.0.now ≤ MAX_TYPED) × (length result.1.now ≤ MAX_TYPED) }
        ensures clean { IsTrue (has_no_zero result.0.now) × IsTrue (has_no_zero result.1.now) }
    {
        (self.string.as_str(), self.preedit.as_str())
    }

    /// Takes an event: `activate` and `deactivate` of `zwp_input_method_v2` empty what waits, and
    /// no other event changes anything.
    pub fn event(&mut self, event: &Event<'_>)
        ensures { self.new ≡ after_event event.now self.old }
    {
        match event {
            Event::Activate => self.begin(true),
            Event::Deactivate => self.begin(false),
            _ => {}
        }
    }

    fn begin(&mut self, active: bool)
        ensures { self.new ≡ record self.old { active = active; rest = [] } }
    {
        self.active = active;
        self.waiting.clear();
    }
}
