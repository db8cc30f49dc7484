//! What the definitions mean, in other words: the characters are those of UTF-8, and a `leave` is an empty batch.
ghost use Rattle.std.specs.Prelude.{◌≡◌, ℕ, List, [], ◌++◌, IsUtf8, encode_utf8};
ghost use Rattle.trial_field.specs.Characters.{first_char, last_char};
ghost use Rattle.trial_field.specs.FieldText.{FieldText, after};
ghost use Rattle.trial_field.specs.Log.{done, no_edits};

/// A law with nothing to run: of a text that begins or ends with a character, the first or the last
/// one is that character, whole.
pub fn character_laws()
    ensures first { (c : ℕ) (text : List ℕ) → IsUtf8 text →
        first_char (encode_utf8 c ++ text) ≡ encode_utf8 c }
    ensures last { (text : List ℕ) (c : ℕ) → last_char (text ++ encode_utf8 c) ≡ encode_utf8 c }
{}

/// A law with nothing to run: an empty batch drops the preedit and changes nothing else, so it also
/// stands for `zwp_text_input_v3.leave`.
pub fn leave_law()
    ensures { (text : FieldText) → after (done no_edits) text ≡ record text { preedit = [] } }
{}
