//! What the lines before the fields say of keys.
ghost use Rattle.std.specs.Prelude.{◌≡◌, IfOk, IfSome};
ghost use Rattle.compose_method.specs.Table.{IsKeyText, AreKeys};
ghost use Rattle.dict_method.specs.Dictionary.{AreWordKeys, clashes_control};
ghost use Rattle.trial_script.specs.Grammar.{IsLine};
ghost use Rattle.trial_script.specs.Rules.{no_rules, refuses_single, refuses_sequence};
ghost use Rattle.trial_script.specs.Rules.{refuses_word, plus_single, plus_sequence, plus_word};
ghost use Rattle.trial_script.specs.Rules.{plus_control, unless, with_entry_of, with_line};
ghost use Rattle.trial_script.specs.Rules.{had_place, ArePut};

use crate::line::Line;
use compose_method::{ComposeTable, TableRefusal};
use dict_method::{Control, Dict};
use std::alloc::Global;
use wio_core::NoMemory;

/// What a method's keys mean. There are sequences or words, and not both.
#[derive(Debug, Drop)]
pub struct KeyRules {
    /// The texts of keys and of sequences of keys.
    pub table: ComposeTable,
    /// The words that keys spell, and the keys that choose one or erase.
    pub dict: Dict,
}

// Whether what was to be put had a place.
fn had_place(put: Result<(), TableRefusal>) -> Result<bool, NoMemory>
    ensures { result ≡ had_place put }
{
    match put {
        Ok(()) => Ok(true),
        Err(TableRefusal::Clash | TableRefusal::TooMany) => Ok(false),
        Err(TableRefusal::NoMemory) => Err(NoMemory),
    }
}

impl KeyRules {
    pub(crate) fn new(alloc: Global) -> Result<KeyRules, NoMemory>
        ensures { IfOk result (λ rules. rules ≡ no_rules) }
    {
        Ok(KeyRules {
            table: ComposeTable::new(alloc)?,
            dict: Dict::new(alloc)?,
        })
    }

    fn single(&mut self, key: u32, text: &str) -> Result<bool, NoMemory>
        requires { IsKeyText text.now }
        ensures { ArePut (unless (refuses_single self.old key)
            (plus_single self.old key text.now)) result self.old self.new }
    {
        had_place(self.table.single(key, text))
    }

    // A sequence; where there are words there is none.
    fn sequence(&mut self, text: &str, keys: &[u32]) -> Result<bool, NoMemory>
        requires text { IsKeyText text.now }
        requires keys { AreKeys keys.now }
        ensures { ArePut (unless (refuses_sequence self.old keys.now)
            (plus_sequence self.old text.now keys.now)) result self.old self.new }
    {
        if self.dict.has_words() {
            return Ok(false);
        }
        had_place(self.table.entry(text, keys))
    }

    // A word; where there are sequences there is none.
    fn word(&mut self, text: &str, keys: &[u32]) -> Result<bool, NoMemory>
        requires text { IsKeyText text.now }
        requires keys { AreWordKeys keys.now }
        ensures { ArePut (unless (refuses_word self.old keys.now)
            (plus_word self.old text.now keys.now)) result self.old self.new }
    {
        if self.table.has_entries() {
            return Ok(false);
        }
        had_place(self.dict.word(text, keys))
    }

    fn control(&mut self, key: u32, what: Control) -> Result<bool, NoMemory>
        ensures { ArePut (unless (clashes_control self.old.dict key what)
            (plus_control self.old key what)) result self.old self.new }
    {
        had_place(self.dict.control(key, what))
    }

    // Puts what a line says of keys; false where there is no place for it, or it says nothing of
    // keys.
    fn put_entry(&mut self, line: &Line) -> Result<bool, NoMemory>
        requires { IsLine line.now }
        ensures { ArePut (with_entry_of self.old line.now) result self.old self.new }
    {
        match line {
            Line::Single(key, text) => self.single(*key, text.as_str()),
            Line::Compose(text, keys) => self.sequence(text.as_str(), keys.as_slice()),
            Line::Word(text, keys) => self.word(text.as_str(), keys.as_slice()),
            Line::Choose(key, n) => self.control(*key, Control::Choose(*n as u8)),
            Line::Erase(key) => self.control(*key, Control::Erase),
            Line::Header | Line::Fields(_) | Line::Act(_) | Line::End => Ok(false),
        }
    }

    // The same of bytes that may be no line.
    pub(crate) fn put_line(&mut self, line: &Option<Line>) -> Result<bool, NoMemory>
        requires { IfSome line.now IsLine }
        ensures { ArePut (with_line self.old line.now) result self.old self.new }
    {
        match line {
            Some(line) => self.put_entry(line),
            None => Ok(false),
        }
    }
}
