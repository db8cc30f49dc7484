//! Texts into strings that have room for them.
ghost use Rattle.std.specs.Prelude.{◌≡◌, ◌+◌, ◌≤◌, length, string_bytes, string_len};
ghost use Rattle.std.specs.Prelude.{string_capacity, IsTrue};
ghost use Rattle.wl_wire.specs.Texts.{has_no_zero};
ghost use Rattle.compose_method.specs.Table.{own_texts};

use crate::dict::MAX_WORD_KEYS;
use crate::method::MAX_CODE_TEXT;
use compose_method::ComposeTable;

// The string becomes the text, for which it has room.
pub(crate) fn set_text(string: &mut String, text: &str)
    requires { length text.now ≤ string_capacity string.old }
    ensures bytes { string_bytes string.new ≡ text.now }
    ensures len { string_len string.new ≡ length text.now }
    ensures capacity { string_capacity string.old ≤ string_capacity string.new }
{
    string.clear();
    let _ = string.push_str(text);
}

// The string becomes the own texts of the code's keys, in their order.
pub(crate) fn show_code(table: &ComposeTable, code: &[u32], string: &mut String)
    requires few { length code.now ≤ MAX_WORD_KEYS }
    requires room { MAX_CODE_TEXT ≤ string_capacity string.old }
    ensures text { string_bytes string.new ≡ own_texts table.now code.now }
    ensures len { string_len string.new ≤ MAX_CODE_TEXT }
    ensures capacity { string_capacity string.old ≤ string_capacity string.new }
    ensures clean { IsTrue (has_no_zero (string_bytes string.new)) }
{
    string.clear();
    'showing: for key in code {
        let _ = string.push_str(table.own_text(*key));
    }
}
