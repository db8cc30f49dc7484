//! The method: a code, and one batch for each press that a row decides.
ghost use Rattle.std.specs.Prelude.{◌≡◌, ◌≤◌, ◌++◌, ◌∷◌, [], List, true, false, length};
ghost use Rattle.std.specs.Prelude.{Some, None, is_some, option_copied, option_map};
ghost use Rattle.std.specs.Prelude.{IfOk, IfSome, IsNone, IsTrue};
ghost use Rattle.std.specs.Borrow.{sem};
ghost use Rattle.std.specs.Io.BufRead.{Rests};
ghost use Rattle.wl_wire.specs.Texts.{has_no_zero};
ghost use Rattle.compose_method.specs.Table.{Table, own_text};
ghost use Rattle.compose_method.specs.declared.table.TheConstants.{MAX_KEY_TEXT};
ghost use Rattle.dict_method.specs.Candidates.{candidate, candidates};
ghost use Rattle.dict_method.specs.Dictionary.{Dictionary, is_control};
ghost use Rattle.dict_method.specs.Presses.{first_of, chosen, erased, longer, own};
ghost use Rattle.dict_method.specs.Spelling.{idle, makes, after_made, pressed, gives, after_event};
ghost use Rattle.dict_method.specs.History.{Input, IsAfter, press as a_press, came, given, code_of};

use crate::control::Control;
use crate::dict::{Dict, MAX_WORD_KEYS};
use crate::texts::{set_text, show_code};
use compose_method::{ComposeTable, MAX_KEY_TEXT, Typist};
use std::alloc::Global;
use std::marker::Model;
use wl_proto::Event;
use wl_wire::NoMemory;

/// The longest preedit of a press, in bytes: 16 keys with texts of 64 bytes.
pub const MAX_CODE_TEXT: usize = 1_024;

/// An input method with a dictionary: keys make a code, whose candidates are the words that it
/// begins, and a key chooses one of them.
///
/// It takes its memory when it is made, and none afterwards. It isn't active until it is told
/// `zwp_input_method_v2.activate`.
#[derive(Debug, Drop)]
pub struct DictMethod {
    table: ComposeTable,
    dict: Dict,
    active: bool,
    code: Vec<u32>,
    string: String,
    preedit: String,
}

impl Model for DictMethod {
    ghost use Rattle.dict_method.specs.Spelling.{Spelling};

    ghost Value = { Spelling };

    ghost use Rattle.dict_method.specs.Ready.{spelling_of, IsReady};

    ghost view = { spelling_of };

    ghost invariant = { IsReady };
}

impl DictMethod {
    ghost use Rattle.dict_method.specs.contracts.method.DictMethod.{the_row};

    /// A method with this dictionary, not active. The table has the keys' own texts; its entries
    /// aren't looked at.
    pub fn new(alloc: Global, table: ComposeTable, dict: Dict) -> Result<DictMethod, NoMemory>
        ensures idle { IfOk result (λ method. method ≡ idle table dict) }
        ensures after { IfOk result (λ method. IsAfter table dict [] method) }
    {
        let code = Vec::with_capacity(alloc, MAX_WORD_KEYS + 1)?;
        let string = String::with_capacity(alloc, MAX_KEY_TEXT)?;
        let preedit = String::with_capacity(alloc, MAX_CODE_TEXT)?;
        Ok(DictMethod {
            table,
            dict,
            active: false,
            code,
            string,
            preedit,
        })
    }

    /// How many words the code begins, all of them where it is empty.
    pub fn candidates(&self) -> usize
        ensures value { result ≡ length (candidates self.now.dict.words self.now.code) }
        ensures after { (t : Table) (d : Dictionary) (log : List Input) → IsAfter t d log self.now →
            result ≡ length (candidates d.words (code_of t d log)) }
    {
        self.dict.candidates(&self.code)
    }

    /// The candidate with this number, from 1, in the order in which the words were given. `None`
    /// exactly where the number is 0 or above that of the candidates.
    pub fn candidate(&self, n: usize) -> Option<&str>
        ensures value { option_copied result ≡
            option_map (λ w. w.text) (candidate self.now.dict.words self.now.code n) }
        ensures after { (t : Table) (d : Dictionary) (log : List Input) → IsAfter t d log self.now →
            option_copied result ≡ option_map (λ w. w.text)
            (candidate d.words (code_of t d log) n) }
    {
        self.dict.candidate(&self.code, n)
    }

    /// The string and the preedit of the batch that this press of a key makes, with no zero byte
    /// and at most 64 and [`MAX_CODE_TEXT`] bytes. `None` exactly where the method isn't active,
    /// or no row decides the press; then all is as before.
    ///
    /// The rows, of which the first that applies decides: a key that chooses gives the candidate
    /// with its number, and the code becomes empty; a key that erases takes the code's last key
    /// back; a key with which the longer code has a candidate makes the code longer; and where the
    /// code is empty, a key that is no control key types its own text. The preedit is the own texts
    /// of the new code's keys.
    pub fn press(&mut self, key: u32) -> Option<(&str, &str)>
        ensures* after { sem 𝓛 (Rests the_row self.entry (λ new. (new ≡ pressed key self.old) ×
            ((t : Table) (d : Dictionary) (log : List Input) → IsAfter t d log self.old →
            IsAfter t d (a_press key ∷ log) new))) }
        ensures none { IsNone result → gives key self.old ≡ None }
        ensures batch { IfSome result (λ b. gives key self.old ≡ Some (b.0.now, b.1.now)) }
        ensures given { (t : Table) (d : Dictionary) (log : List Input) → IsAfter t d log self.old →
            gives key self.old ≡ given t d log key }
        ensures fits { IfSome result (λ b. (length b.0.now ≤ MAX_KEY_TEXT) ×
            (length b.1.now ≤ MAX_CODE_TEXT)) }
        ensures clean { IfSome result (λ b. IsTrue (has_no_zero b.0.now) ×
            IsTrue (has_no_zero b.1.now)) }
    {
        if !self.decide(key) {
            return None;
        }
        Some(self.batch())
    }

    // Makes the batch of a press, and says what it is after all that came before; false where there
    // is none.
    fn decide(&mut self, key: u32) -> bool
        ensures press { self.new ≡ pressed key self.old }
        ensures none { result ≡ false → gives key self.old ≡ None }
        ensures batch { result ≡ true →
            gives key self.old ≡ Some (self.new.string, self.new.preedit) }
        ensures given { (t : Table) (d : Dictionary) (log : List Input) → IsAfter t d log self.old →
            gives key self.old ≡ given t d log key }
        ensures after { (t : Table) (d : Dictionary) (log : List Input) → IsAfter t d log self.old →
            IsAfter t d (a_press key ∷ log) self.new }
    {
        self.take(key)
    }

    // Makes the batch of a press; false where there is none.
    fn take(&mut self, key: u32) -> bool
        ensures made { result ≡ is_some (makes key self.old) }
        ensures press { self.new ≡ pressed key self.old }
    {
        if !self.active {
            return false;
        }
        match self.dict.control_of(key) {
            Some(Control::Choose(n)) => self.choose(n),
            Some(Control::Erase) => self.erase(),
            None => self.spell(key),
        }
    }

    // The candidate with this number.
    fn choose(&mut self, n: u8) -> bool
        ensures made { result ≡ is_some (chosen self.old.dict.words self.old.code n) }
        ensures new { self.new ≡ after_made (chosen self.old.dict.words self.old.code n) self.old }
    {
        if self.code.is_empty() {
            return false;
        }
        let Some(text) = self.dict.candidate(&self.code, usize::from(n)) else {
            return false;
        };
        set_text(&mut self.string, text);
        self.code.clear();
        self.preedit.clear();
        true
    }

    // The code without its last key.
    fn erase(&mut self) -> bool
        ensures made { result ≡ is_some (erased self.old.code true) }
        ensures new { self.new ≡ after_made (erased self.old.code true) self.old }
    {
        if self.code.is_empty() {
            return false;
        }
        let _ = self.code.pop();
        self.string.clear();
        show_code(&self.table, &self.code, &mut self.preedit);
        true
    }

    // The longer code, if it has a candidate, and else the own text of a key that has no code
    // before it.
    fn spell(&mut self, key: u32) -> bool
        ensures made { result ≡ is_some (first_of (longer self.old.dict.words
            (self.old.code ++ key ∷ [])) (own (own_text self.old.table key) false self.old.code)) }
        ensures new { self.new ≡ after_made (first_of (longer self.old.dict.words
            (self.old.code ++ key ∷ [])) (own (own_text self.old.table key) false self.old.code))
            self.old }
    {
        let _ = self.code.push(key);
        if self.dict.has_candidate(&self.code) {
            self.string.clear();
            show_code(&self.table, &self.code, &mut self.preedit);
            return true;
        }
        self.code.truncate(self.code.len() - 1);
        if !self.code.is_empty() {
            return false;
        }
        set_text(&mut self.string, self.table.own_text(key));
        self.preedit.clear();
        true
    }

    // String and preedit of the last batch.
    fn batch(&self) -> (&str, &str)
        ensures texts { (result.0.now ≡ self.now.string) × (result.1.now ≡ self.now.preedit) }
        ensures fits { (length result.0.now ≤ MAX_KEY_TEXT) ×
            (length result.1.now ≤ MAX_CODE_TEXT) }
        ensures clean { IsTrue (has_no_zero result.0.now) × IsTrue (has_no_zero result.1.now) }
    {
        (self.string.as_str(), self.preedit.as_str())
    }

    /// Takes an event: `activate` and `deactivate` of `zwp_input_method_v2` empty the code, and no
    /// other event changes anything.
    pub fn event(&mut self, event: &Event<'_>)
        ensures now { self.new ≡ after_event event.now self.old }
        ensures after { (t : Table) (d : Dictionary) (log : List Input) → IsAfter t d log self.old →
            IsAfter t d (came event.now ∷ log) self.new }
    {
        match event {
            Event::Activate => self.begin(true),
            Event::Deactivate => self.begin(false),
            _ => {}
        }
    }

    fn begin(&mut self, active: bool)
        ensures { self.new ≡ record self.old { active = active; code = [] } }
    {
        self.active = active;
        self.code.clear();
    }
}

impl Typist for DictMethod {
    ghost use Rattle.dict_method.specs.Spelling.{spelling};

    ghost meanings = { spelling };

    fn press(&mut self, key: u32) -> Option<(&str, &str)> {
        DictMethod::press(self, key)
    }

    fn event(&mut self, event: &Event<'_>) {
        DictMethod::event(self, event)
    }
}
