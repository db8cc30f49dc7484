//! Keys into text: entries first, from the left.
ghost use Rattle.std.specs.Prelude.{◌≡◌, ◌+◌, ◌*◌, ◌<◌, ◌≤◌, ◌++◌, [], length, drop, flat_map};
ghost use Rattle.std.specs.Prelude.{string_bytes, string_len, string_capacity, vec_len};
ghost use Rattle.std.specs.Prelude.{vec_capacity};
ghost use Rattle.compose_method.specs.Table.{IsTable, own_texts};
ghost use Rattle.compose_method.specs.Segments.{segments, typed, rest_of};

use crate::table::{ComposeTable, MAX_KEY_TEXT};

/// The longest string and the longest preedit of a press, in bytes: 8 keys with texts of 64 bytes.
pub const MAX_TYPED: usize = 512;

// Appends a text for which there is room.
fn append(text: &mut String, more: &str)
    requires { string_len text.old + length more.now ≤ string_capacity text.old }
    ensures bytes { string_bytes text.new ≡ string_bytes text.old ++ more.now }
    ensures len { string_len text.new ≡ string_len text.old + length more.now }
    ensures capacity { string_capacity text.old ≤ string_capacity text.new }
{
    let _ = text.push_str(more);
}

// Types what the keys begin with, and answers how many keys that took: none where all of them wait for more.
fn type_first(table: &ComposeTable, keys: &[u32], text: &mut String) -> usize
    requires some { 0 < length keys.now }
    requires room { string_len text.old + MAX_KEY_TEXT ≤ string_capacity text.old }
    ensures within { result ≤ length keys.now }
    ensures text { string_bytes text.old ++ typed table.now keys.now ≡ string_bytes text.new ++
        typed table.now (drop result keys.now) }
    ensures rest { rest_of table.now keys.now ≡ rest_of table.now (drop result keys.now) }
    ensures waiting { result ≡ 0 → (typed table.now keys.now ≡ []) ×
        (rest_of table.now keys.now ≡ keys.now) × (length keys.now < 8) }
    ensures len { string_len text.new ≤ string_len text.old + MAX_KEY_TEXT * result }
    ensures capacity { string_capacity text.old ≤ string_capacity text.new }
    ensures table { IsTable table.now }
{
    if let Some(entry) = table.entry_of(keys) {
        append(text, entry.text.as_str());
        return entry.keys.as_slice().len();
    }
    if table.goes_on(keys) {
        return 0;
    }
    append(text, table.own_text(keys[0]));
    1
}

// Types all that the keys type, and answers how many keys that took; the others wait.
fn type_front(table: &ComposeTable, keys: &[u32], text: &mut String) -> usize
    requires some { 0 < length keys.now }
    requires few { length keys.now ≤ 8 }
    requires empty { string_bytes text.old ≡ [] }
    requires room { MAX_TYPED ≤ string_capacity text.old }
    ensures within { result ≤ length keys.now }
    ensures text { string_bytes text.new ≡ typed table.now keys.now }
    ensures rest { rest_of table.now keys.now ≡ drop result keys.now }
    ensures waiting { length keys.now < result + 8 }
    ensures len { string_len text.new ≤ MAX_TYPED }
    ensures capacity { string_capacity text.old ≤ string_capacity text.new }
    ensures table { IsTable table.now }
{
    let mut passed = 0;
    'reading: loop {
        let taken = type_first(table, &keys[passed..], text);
        passed += taken;
        if taken == 0 || passed == keys.len() {
            return passed;
        }
    }
}

// Types what the keys type, and leaves the keys that wait.
pub(crate) fn type_keys(table: &ComposeTable, keys: &mut Vec<u32>, text: &mut String)
    requires some { 0 < vec_len keys.old }
    requires few { vec_len keys.old ≤ 8 }
    requires room { MAX_TYPED ≤ string_capacity text.old }
    ensures text { string_bytes text.new ≡ typed table.now keys.old.items }
    ensures rest { keys.new.items ≡ rest_of table.now keys.old.items }
    ensures few { vec_len keys.new < 8 }
    ensures keys_room { vec_capacity keys.new ≡ vec_capacity keys.old }
    ensures len { string_len text.new ≤ MAX_TYPED }
    ensures capacity { string_capacity text.old ≤ string_capacity text.new }
    ensures table { IsTable table.now }
{
    text.clear();
    let passed = type_front(table, keys, text);
    keys.rotate_left(passed);
    keys.truncate(keys.len() - passed);
}

// Shows the own texts of the keys that wait, in their order.
pub(crate) fn show_keys(table: &ComposeTable, keys: &[u32], text: &mut String)
    requires few { length keys.now < 8 }
    requires room { MAX_TYPED ≤ string_capacity text.old }
    ensures text { string_bytes text.new ≡ own_texts table.now keys.now }
    ensures len { string_len text.new ≤ MAX_TYPED }
    ensures capacity { string_capacity text.old ≤ string_capacity text.new }
{
    text.clear();
    'showing: for key in keys {
        append(text, table.own_text(*key));
    }
}
