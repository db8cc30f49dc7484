//! Keys with texts of their own, in the order of the keys.
ghost use Rattle.std.specs.Prelude.{◌≡◌, ℕ, ◌<◌, ◌≤◌, length, insert, nat_lt, option_copied};
ghost use Rattle.std.specs.Prelude.{slice_index_or, OnOk, OnErr};
ghost use Rattle.std.specs.List.{prefix_len};
ghost use Rattle.compose_method.specs.Table.{single_of, AreRising};

use wio_core::NoMemory;
use wl_wire::Text;

/// A key and its own text.
#[derive(Debug, Drop)]
pub struct Single {
    pub key: u32,
    pub text: Text,
}

// How many singles have a key below this one.
pub(crate) fn single_place(singles: &[Single], key: u32) -> usize
    requires { AreRising singles.now }
    ensures bound { result ≤ length singles.now }
    ensures before { (k : ℕ) (d : Single) → k < result → (slice_index_or singles.now k d).key <
        key }
    ensures behind { (k : ℕ) (d : Single) → result ≤ k → k < length singles.now →
        key ≤ (slice_index_or singles.now k d).key }
{
    singles.partition_point(|single| single.key < key)
}

// The single of the key.
pub(crate) fn find_single(singles: &[Single], key: u32) -> Option<&Single>
    requires { AreRising singles.now }
    ensures { option_copied result ≡ single_of singles.now key }
{
    let place = single_place(singles, key);
    if place == singles.len() {
        return None;
    }
    let single = &singles[place];
    if single.key == key {
        Some(single)
    } else {
        None
    }
}

// Puts the single at the place of its key.
pub(crate) fn put_single(singles: &mut Vec<Single>, single: Single) -> Result<(), NoMemory>
    requires { AreRising singles.old.items }
    ensures ok { OnOk result (singles.new.items ≡ insert singles.old.items
        (prefix_len (λ x. nat_lt x.key single.key) singles.old.items) single) }
    ensures err { OnErr result (singles.new.items ≡ singles.old.items) }
{
    let place = single_place(singles, single.key);
    singles.insert(place, single)?;
    Ok(())
}
