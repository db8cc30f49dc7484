//! The dictionary that its user makes, word by word and control key by control key.
ghost use Rattle.std.specs.Prelude.{◌≡◌, ◌≢◌, ◌≤◌, ◌↔◌, ◌++◌, ◌∷◌, [], true, false, length};
ghost use Rattle.std.specs.Prelude.{IfOk, IfSome, OnOk, OnErr, Err, IsTrue, option_copied};
ghost use Rattle.std.specs.Prelude.{◌==◌, not, option_map};
ghost use Rattle.std.specs.List.{list_any, slice_get};
ghost use Rattle.wl_wire.specs.Texts.{has_no_zero};
ghost use Rattle.compose_method.specs.Table.{IsKeyText};
ghost use Rattle.compose_method.specs.declared.table.TheConstants.{MAX_KEY_TEXT};
ghost use Rattle.compose_method.specs.declared.table.TableRefusal.TheVariants as TableRefusal;
ghost use Rattle.dict_method.specs.Dictionary.{AreWordKeys, IsDictionary, empty_dictionary, word};
ghost use Rattle.dict_method.specs.Dictionary.{control, control_of, is_control, is_spelling};
ghost use Rattle.dict_method.specs.Dictionary.{has_key, is_same_choice, is_taken};
ghost use Rattle.dict_method.specs.Dictionary.{clashes_word, clashes_control};
ghost use Rattle.dict_method.specs.Dictionary.{with_word, with_control};
ghost use Rattle.dict_method.specs.Candidates.{candidate, candidates, has_candidate};

use crate::control::{Control, ControlKey};
use crate::word::Word;
use compose_method::{Keys, TableRefusal};
use std::alloc::Global;
use std::marker::Model;
use wl_wire::{NoMemory, Text};

/// The most words.
pub const MAX_WORDS: usize = 16_384;

/// The most keys of a word, which has 1 at least.
pub const MAX_WORD_KEYS: usize = 16;

/// Words with the keys that spell them, and the keys that choose one or erase.
#[derive(Debug, Drop)]
pub struct Dict {
    alloc: Global,
    words: Vec<Word>,
    controls: Vec<ControlKey>,
}

impl Model for Dict {
    ghost use Rattle.dict_method.specs.Dictionary.{Dictionary};

    ghost Value = { Dictionary };

    ghost use Rattle.dict_method.specs.Kept.{seen, IsKept};

    ghost view = { seen };

    ghost invariant = { IsKept };
}

// What the key does, if it is a control key.
fn find_control(controls: &[ControlKey], key: u32) -> Option<Control>
    ensures { result ≡ control_of controls.now key }
{
    match controls.iter().find(|control| control.key == key) {
        Some(control) => Some(control.what),
        None => None,
    }
}

fn is_control_key(controls: &[ControlKey], key: u32) -> bool
    ensures { result ≡ is_control controls.now key }
{
    controls.iter().any(|control| control.key == key)
}

// Whether a control key is among the keys.
fn has_control(controls: &[ControlKey], keys: &[u32]) -> bool
    ensures { result ≡ list_any (is_control controls.now) keys.now }
{
    keys.iter().any(|key| is_control_key(controls, *key))
}

fn has_key(word: &Word, key: u32) -> bool
    ensures { result ≡ has_key key word.now }
{
    word.keys.as_slice().iter().any(|other| key == *other)
}

// Whether the key stands in a word.
fn is_spelling(words: &[Word], key: u32) -> bool
    ensures { result ≡ is_spelling words.now key }
{
    words.iter().any(|word| has_key(word, key))
}

fn is_same_choice(what: Control, other: Control) -> bool
    ensures { result ≡ is_same_choice what other }
{
    match (what, other) {
        (Control::Choose(n), Control::Choose(m)) => n == m,
        _ => false,
    }
}

// Whether a key chooses the same.
fn is_taken(controls: &[ControlKey], what: Control) -> bool
    ensures { result ≡ is_taken controls.now what }
{
    controls
        .iter()
        .any(|control| is_same_choice(what, control.what))
}

// The candidate at this place, from 0.
fn candidate_at<'a>(words: &'a [Word], code: &[u32], place: usize) -> Option<&'a Word>
    ensures { option_copied result ≡ slice_get (candidates words.now code.now) place }
{
    words
        .iter()
        .filter(|word| word.keys.begin_with(code))
        .nth(place)
}

// The candidate with this number, from 1.
fn find_candidate<'a>(words: &'a [Word], code: &[u32], number: usize) -> Option<&'a Word>
    ensures { option_copied result ≡ candidate words.now code.now number }
{
    if number == 0 {
        return None;
    }
    candidate_at(words, code, number - 1)
}

// Puts the word behind the others.
fn put_word(words: &mut Vec<Word>, word: Word) -> Result<(), NoMemory>
    ensures ok { OnOk result (words.new.items ≡ words.old.items ++ word ∷ []) }
    ensures err { OnErr result (words.new.items ≡ words.old.items) }
{
    words.push(word)?;
    Ok(())
}

// Puts the control key behind the others.
fn put_control(controls: &mut Vec<ControlKey>, control: ControlKey) -> Result<(), NoMemory>
    ensures ok { OnOk result (controls.new.items ≡ controls.old.items ++ control ∷ []) }
    ensures err { OnErr result (controls.new.items ≡ controls.old.items) }
{
    controls.push(control)?;
    Ok(())
}

impl Dict {
    /// An empty dictionary.
    pub fn new(alloc: Global) -> Result<Dict, NoMemory>
        ensures { IfOk result (λ dict. dict ≡ empty_dictionary) }
    {
        Ok(Dict {
            alloc,
            words: Vec::new(alloc),
            controls: Vec::new(alloc),
        })
    }

    /// Puts a word of 1 to [`MAX_KEY_TEXT`](compose_method::MAX_KEY_TEXT) bytes with no zero byte
    /// behind the others, spelled by 1 to [`MAX_WORD_KEYS`] keys. Words may be equal.
    pub fn word(&mut self, text: &str, keys: &[u32]) -> Result<(), TableRefusal>
        requires text { IsKeyText text.now }
        requires keys { AreWordKeys keys.now }
        ensures ok { OnOk result (self.new ≡ with_word (word text.now keys.now) self.old) }
        ensures clash { (result ≡ Err TableRefusal.Clash) ↔
            (clashes_word self.old keys.now ≡ true) }
        ensures too_many { (result ≡ Err TableRefusal.TooMany) ↔
            ((clashes_word self.old keys.now ≡ false) × (length self.old.words ≡ MAX_WORDS)) }
        ensures err { OnErr result (self.new ≡ self.old) }
    {
        if has_control(&self.controls, keys) {
            return Err(TableRefusal::Clash);
        }
        if self.words.len() == MAX_WORDS {
            return Err(TableRefusal::TooMany);
        }
        let word = Word {
            keys: Keys::of(self.alloc, keys)?,
            text: Text::of(self.alloc, text)?,
        };
        put_word(&mut self.words, word)?;
        Ok(())
    }

    /// Makes the key one that chooses, or one that erases: `Clash` where it is one already or
    /// stands in a word, or where another key chooses the number. Several keys may erase.
    pub fn control(&mut self, key: u32, what: Control) -> Result<(), TableRefusal>
        ensures ok { OnOk result (self.new ≡ with_control (control key what) self.old) }
        ensures clash { (result ≡ Err TableRefusal.Clash) ↔
            (clashes_control self.old key what ≡ true) }
        ensures never_many { result ≢ Err TableRefusal.TooMany }
        ensures err { OnErr result (self.new ≡ self.old) }
    {
        if is_control_key(&self.controls, key)
            || is_spelling(&self.words, key)
            || is_taken(&self.controls, what)
        {
            return Err(TableRefusal::Clash);
        }
        put_control(&mut self.controls, ControlKey { key, what })?;
        Ok(())
    }

    /// Whether the dictionary has a word.
    pub fn has_words(&self) -> bool
        ensures { result ≡ not (length self.now.words == 0) }
    {
        !self.words.is_empty()
    }

    // What the key does, if it is a control key.
    pub(crate) fn control_of(&self, key: u32) -> Option<Control>
        ensures value { result ≡ control_of self.now.controls key }
        ensures kept { IsDictionary self.now }
    {
        find_control(&self.controls, key)
    }

    // Whether a word's keys begin with the code.
    pub(crate) fn has_candidate(&self, code: &[u32]) -> bool
        ensures value { result ≡ has_candidate self.now.words code.now }
        ensures few { result ≡ true → length code.now ≤ MAX_WORD_KEYS }
    {
        self.words.iter().any(|word| word.keys.begin_with(code))
    }

    // How many words have keys that begin with the code.
    pub(crate) fn candidates(&self, code: &[u32]) -> usize
        ensures { result ≡ length (candidates self.now.words code.now) }
    {
        self.words
            .iter()
            .filter(|word| word.keys.begin_with(code))
            .count()
    }

    // The text of the candidate with this number, from 1.
    pub(crate) fn candidate(&self, code: &[u32], number: usize) -> Option<&str>
        ensures value { option_copied result ≡
            option_map (λ w. w.text) (candidate self.now.words code.now number) }
        ensures fits { IfSome result (λ t. length t.now ≤ MAX_KEY_TEXT) }
        ensures clean { IfSome result (λ t. IsTrue (has_no_zero t.now)) }
    {
        match find_candidate(&self.words, code, number) {
            Some(word) => Some(word.text.as_str()),
            None => None,
        }
    }
}
