//! What single words of a line read as: numbers, texts and bytes, each in its one spelling.
ghost use Rattle.std.specs.Prelude.{◌≡◌};
ghost use Rattle.std.specs.Str.{bytes_eq};
ghost use Rattle.session_text.specs.Reading.{Reads};
ghost use Rattle.session_text.specs.Words.{count_of, cursor_text_limit, long_number_of};
ghost use Rattle.session_text.specs.Words.{number_of, role_of, signed_of, size_of, state_of};
ghost use Rattle.session_text.specs.Words.{text_limit, text_of};

pub use crate::hex_words::text_within;
use crate::line::BadLine;
use crate::numerals::{parsed_long_number, parsed_number, parsed_signed};
use relay_model::Role;
use std::alloc::Global;
use wl_wire::{CURSOR_TEXT_LIMIT, TEXT_LIMIT, Text};

// Whether the word is the name, which most words differ from in length.
#[inline(always)]
pub(crate) fn is(word: &[u8], name: &[u8]) -> bool
    ensures { result ≡ bytes_eq word.now name.now }
{
    word.len() == name.len() && word == name
}

/// A decimal number below 2^32, without a leading zero.
pub fn number(word: &[u8]) -> Result<u32, BadLine>
    ensures { Reads result (number_of word.now) }
{
    parsed_number(word).ok_or(BadLine::Grammar)
}

/// A decimal number below 2^64, without a leading zero.
pub fn long_number(word: &[u8]) -> Result<u64, BadLine>
    ensures { Reads result (long_number_of word.now) }
{
    parsed_long_number(word).ok_or(BadLine::Grammar)
}

/// A decimal number of 32 bits with a sign.
pub fn signed(word: &[u8]) -> Result<i32, BadLine>
    ensures { Reads result (signed_of word.now) }
{
    parsed_signed(word).ok_or(BadLine::Grammar)
}

/// A size: a number of 32 bits that isn't negative.
#[tactic(auto, unfolding(crate::specs::Words::size_of))]
pub fn size(word: &[u8]) -> Result<i32, BadLine>
    ensures { Reads result (size_of word.now) }
{
    let n = signed(word)?;
    if n < 0 {
        return Err(BadLine::Grammar);
    }
    Ok(n)
}

/// The state of a key: 0 for released, 1 for pressed.
#[tactic(auto, unfolding(crate::specs::Words::state_of))]
pub fn state(word: &[u8]) -> Result<u32, BadLine>
    ensures { Reads result (state_of word.now) }
{
    let n = number(word)?;
    if n > 1 {
        return Err(BadLine::Grammar);
    }
    Ok(n)
}

/// A number from 1 to `most`.
#[tactic(auto, unfolding(crate::specs::Words::count_of))]
pub fn count(most: u32, word: &[u8]) -> Result<u32, BadLine>
    ensures { Reads result (count_of most word.now) }
{
    let n = number(word)?;
    if n < 1 || n > most {
        return Err(BadLine::Grammar);
    }
    Ok(n)
}

/// The role of a peer.
#[tactic(auto, unfolding(crate::specs::Words::role_of))]
pub fn role(word: &[u8]) -> Result<Role, BadLine>
    ensures { Reads result (role_of word.now) }
{
    if is(word, b"app".as_slice()) {
        Ok(Role::App)
    } else if is(word, b"method".as_slice()) {
        Ok(Role::Method)
    } else if is(word, b"keyed".as_slice()) {
        Ok(Role::Keyed)
    } else {
        Err(BadLine::Grammar)
    }
}

/// The text of a request that has no argument after it: at most 4,083 bytes.
pub fn text(alloc: Global, word: &[u8]) -> Result<Text, BadLine>
    ensures { Reads result (text_of text_limit word.now) }
{
    text_within(alloc, TEXT_LIMIT, word)
}

/// The text of a request that two numbers follow: at most 4,075 bytes.
pub fn cursor_text(alloc: Global, word: &[u8]) -> Result<Text, BadLine>
    ensures { Reads result (text_of cursor_text_limit word.now) }
{
    text_within(alloc, CURSOR_TEXT_LIMIT, word)
}
