//! What printed lines share: the number that begins them, bytes as a word, one more word, and the
//! end of the printing.
ghost use Rattle.std.specs.Prelude.{◌≡◌, ◌∷◌, ◌++◌, IfOk, OnOk, IsTrue, string_bytes};
ghost use Rattle.std.specs.Fmt.{decimal};
ghost use Rattle.session_text.specs.Words.{hex_word};
ghost use Rattle.wl_wire.specs.Texts.{has_no_zero};

use itoa::Buffer;
use std::alloc::Global;
use wio_core::NoMemory;
use wl_wire::Text;

// The line is the number alone.
pub fn begin(line: &mut String, number: u32) -> Result<(), NoMemory>
    ensures value { OnOk result (string_bytes line.new ≡ decimal number) }
    ensures clean { OnOk result (IsTrue (has_no_zero (string_bytes line.new))) }
{
    line.clear();
    line.push_str(Buffer::new().format(number))?;
    Ok(())
}

// The line as a text, without a copy.
pub fn finished(line: String) -> Text
    requires { IsTrue (has_no_zero (string_bytes line)) }
    ensures { result ≡ string_bytes line }
{
    match Text::from_bytes(line.into_bytes()) {
        Ok(text) => text,
        Err(_) => unreachable!(),
    }
}

// A text or bytes as a word.
pub fn hex_of(alloc: Global, bytes: &[u8]) -> Result<String, NoMemory>
    ensures value { IfOk result (λ s. string_bytes s ≡ hex_word bytes.now) }
    ensures clean { IfOk result (λ s. IsTrue (has_no_zero (string_bytes s))) }
{
    if bytes.is_empty() {
        Ok(String::from_str(alloc, "-")?)
    } else {
        Ok(hex::encode(alloc, bytes)?)
    }
}

// Adds a word to a line, after a space.
pub fn add_word(line: &mut String, word: &str) -> Result<(), NoMemory>
    requires line_clean { IsTrue (has_no_zero (string_bytes line.old)) }
    requires word_clean { IsTrue (has_no_zero word.now) }
    ensures added { OnOk result (string_bytes line.new ≡ string_bytes line.old ++ 32 ∷ word.now) }
    ensures clean { OnOk result (IsTrue (has_no_zero (string_bytes line.new))) }
{
    line.push(' ')?;
    line.push_str(word)?;
    Ok(())
}
