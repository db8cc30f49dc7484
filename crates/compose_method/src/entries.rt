//! Entries in the order of their keys, none of which begin another's: a search by halves finds what
//! keys begin with, and what begins with keys.
ghost use Rattle.std.specs.Prelude.{◌≡◌, ℕ, ◌<◌, ◌≤◌, length, true, false, nat_eq, insert};
ghost use Rattle.std.specs.Prelude.{option_copied, slice_index_or, OnOk, OnErr};
ghost use Rattle.std.specs.List.{prefix_len};
ghost use Rattle.compose_method.specs.Order.{up_to};
ghost use Rattle.compose_method.specs.Table.{begun_by, going_on, AreInOrder, AreApart};

use crate::keys::Keys;
use wio_core::NoMemory;
use wl_wire::Text;

/// Keys, pressed one after the other, and the text that they give.
#[derive(Debug, Drop)]
pub struct Entry {
    pub keys: Keys,
    pub text: Text,
}

// How many entries stand before the place of these keys, an entry of the same keys among them.
pub(crate) fn place_of(entries: &[Entry], keys: &[u32]) -> usize
    requires { AreInOrder entries.now }
    ensures bound { result ≤ length entries.now }
    ensures before { (k : ℕ) (d : Entry) → k < result →
        up_to (slice_index_or entries.now k d).keys keys.now ≡ true }
    ensures behind { (k : ℕ) (d : Entry) → result ≤ k → k < length entries.now →
        up_to (slice_index_or entries.now k d).keys keys.now ≡ false }
{
    entries.partition_point(|entry| entry.keys.are_up_to(keys))
}

// The entry with which the keys begin.
pub(crate) fn entry_of<'a>(entries: &'a [Entry], keys: &[u32]) -> Option<&'a Entry>
    requires order { AreInOrder entries.now }
    requires apart { AreApart entries.now }
    ensures { option_copied result ≡ begun_by entries.now keys.now }
{
    let place = place_of(entries, keys);
    if place == 0 {
        return None;
    }
    let entry = &entries[place - 1];
    if entry.keys.begin(keys) {
        Some(entry)
    } else {
        None
    }
}

// Whether an entry begins with the keys, and goes on.
pub(crate) fn goes_on(entries: &[Entry], keys: &[u32]) -> bool
    requires { AreInOrder entries.now }
    ensures { result ≡ going_on entries.now keys.now }
{
    let place = place_of(entries, keys);
    place < entries.len() && entries[place].keys.begin_with(keys)
}

// Puts the entry at the place of its keys.
pub(crate) fn put_entry(entries: &mut Vec<Entry>, entry: Entry) -> Result<(), NoMemory>
    requires { AreInOrder entries.old.items }
    ensures ok { OnOk result (entries.new.items ≡ insert entries.old.items
        (prefix_len (λ x. up_to x.keys entry.keys) entries.old.items) entry) }
    ensures err { OnErr result (entries.new.items ≡ entries.old.items) }
{
    let place = place_of(entries, entry.keys.as_slice());
    entries.insert(place, entry)?;
    Ok(())
}
