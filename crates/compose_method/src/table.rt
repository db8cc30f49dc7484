//! The table that its user makes, single by single and entry by entry.
ghost use Rattle.std.specs.Prelude.{◌≡◌, ◌<◌, ◌≤◌, ◌↔◌, ◌==◌, not, true, false, length, IfOk};
ghost use Rattle.std.specs.Prelude.{IfSome, OnOk, OnErr, Err, IsTrue, option_copied};
ghost use Rattle.wl_wire.specs.Texts.{has_no_zero};
ghost use Rattle.compose_method.specs.Table.{Table, IsTable, IsKeyText, AreKeys, has_single};
ghost use Rattle.compose_method.specs.Table.{begun_by, going_on, own_text, clashes, single, entry};
ghost use Rattle.compose_method.specs.Table.{with_single, with_entry, empty_table};

use crate::entries::{Entry, entry_of, goes_on, put_entry};
use crate::keys::Keys;
use crate::singles::{Single, find_single, put_single};
use std::alloc::Global;
use std::marker::Model;
use thiserror::Error;
use wio_core::NoMemory;
use wl_wire::Text;

/// The most keys that have a text of their own.
pub const MAX_SINGLES: usize = 1_024;

/// The most entries.
pub const MAX_ENTRIES: usize = 4_096;

/// The most keys of an entry, which has 2 at least.
pub const MAX_KEYS: usize = 8;

/// The longest text of a key or an entry, in bytes.
pub const MAX_KEY_TEXT: usize = 64;

/// Why a table doesn't take a single or an entry. The table is then as before.
#[derive(Clone, Copy, Debug, PartialEq, Eq, Error)]
pub enum TableRefusal {
    /// The key has a text already; or the keys are those of an entry, begin with them, or are a prefix of them.
    #[error("the keys have a text already, or begin with keys that have one")]
    Clash,
    /// The table has [`MAX_SINGLES`] singles, or [`MAX_ENTRIES`] entries.
    #[error("the table is full")]
    TooMany,
    /// There was no memory for it.
    #[error("there was no memory")]
    NoMemory,
}

impl From<NoMemory> for TableRefusal {
    ghost use Rattle.std.specs.Prelude.{◌≡◌};
    ghost use Rattle.compose_method.specs.declared.table.TableRefusal.TheVariants.{NoMemory};

    ghost from_gives = { λ _ r. r ≡ NoMemory };

    fn from(_: NoMemory) -> Self {
        TableRefusal::NoMemory
    }
}

/// What keys and sequences of keys mean: texts of single keys, and texts of 2 to 8 keys pressed one after the other.
#[derive(Debug, Drop)]
pub struct ComposeTable {
    alloc: Global,
    singles: Vec<Single>,
    entries: Vec<Entry>,
}

impl Model for ComposeTable {
    ghost use Rattle.compose_method.specs.Table.{Table};

    ghost Value = { Table };

    ghost use Rattle.compose_method.specs.Kept.{seen, IsKept};

    ghost view = { seen };

    ghost invariant = { IsKept };
}

impl ComposeTable {
    /// An empty table.
    pub fn new(alloc: Global) -> Result<ComposeTable, NoMemory>
        ensures { IfOk result (λ table. table ≡ empty_table) }
    {
        Ok(ComposeTable {
            alloc,
            singles: Vec::new(alloc),
            entries: Vec::new(alloc),
        })
    }

    /// Gives a key a text of its own, of 1 to [`MAX_KEY_TEXT`] bytes with no zero byte.
    pub fn single(&mut self, key: u32, text: &str) -> Result<(), TableRefusal>
        requires { IsKeyText text.now }
        ensures ok { OnOk result (self.new ≡ with_single (single key text.now) self.old) }
        ensures clash { (result ≡ Err TableRefusal.Clash) ↔ (has_single self.old key ≡ true) }
        ensures too_many { (result ≡ Err TableRefusal.TooMany) ↔
            ((has_single self.old key ≡ false) × (length self.old.singles ≡ MAX_SINGLES)) }
        ensures err { OnErr result (self.new ≡ self.old) }
    {
        if find_single(&self.singles, key).is_some() {
            return Err(TableRefusal::Clash);
        }
        if self.singles.len() == MAX_SINGLES {
            return Err(TableRefusal::TooMany);
        }
        let text = Text::of(self.alloc, text)?;
        put_single(&mut self.singles, Single { key, text })?;
        Ok(())
    }

    /// Gives 2 to [`MAX_KEYS`] keys, pressed one after the other, a text of 1 to [`MAX_KEY_TEXT`]
    /// bytes with no zero byte.
    pub fn entry(&mut self, text: &str, keys: &[u32]) -> Result<(), TableRefusal>
        requires text { IsKeyText text.now }
        requires keys { AreKeys keys.now }
        ensures ok { OnOk result (self.new ≡ with_entry (entry text.now keys.now) self.old) }
        ensures clash { (result ≡ Err TableRefusal.Clash) ↔ (clashes self.old keys.now ≡ true) }
        ensures too_many { (result ≡ Err TableRefusal.TooMany) ↔
            ((clashes self.old keys.now ≡ false) × (length self.old.entries ≡ MAX_ENTRIES)) }
        ensures err { OnErr result (self.new ≡ self.old) }
    {
        if entry_of(&self.entries, keys).is_some() || goes_on(&self.entries, keys) {
            return Err(TableRefusal::Clash);
        }
        if self.entries.len() == MAX_ENTRIES {
            return Err(TableRefusal::TooMany);
        }
        let entry = Entry {
            keys: Keys::of(self.alloc, keys)?,
            text: Text::of(self.alloc, text)?,
        };
        put_entry(&mut self.entries, entry)?;
        Ok(())
    }

    /// Whether the table has an entry.
    pub fn has_entries(&self) -> bool
        ensures { result ≡ not (length self.now.entries == 0) }
    {
        !self.entries.is_empty()
    }

    // The entry with which the keys begin.
    pub(crate) fn entry_of(&self, keys: &[u32]) -> Option<&Entry>
        ensures value { option_copied result ≡ begun_by self.now.entries keys.now }
        ensures fits { IfSome result (λ e. (2 ≤ length e.now.keys) ×
            (length e.now.text ≤ MAX_KEY_TEXT)) }
        ensures table { IsTable self.now }
    {
        entry_of(&self.entries, keys)
    }

    // Whether the keys are a proper prefix of an entry's.
    pub(crate) fn goes_on(&self, keys: &[u32]) -> bool
        ensures { result ≡ going_on self.now.entries keys.now }
    {
        goes_on(&self.entries, keys)
    }

    /// The key's own text, empty where it has none.
    pub fn own_text(&self, key: u32) -> &str
        ensures value { result.now ≡ own_text self.now key }
        ensures limit { length result.now ≤ MAX_KEY_TEXT }
        ensures clean { IsTrue (has_no_zero result.now) }
    {
        match find_single(&self.singles, key) {
            Some(single) => single.text.as_str(),
            None => "",
        }
    }
}
