//! Texts and bytes in lower-case hex digits.
ghost use Rattle.std.specs.Prelude.{◌≡◌, ◌≢◌, ◌≤◌, ◌⊎◌, ◌&&◌, Some, length, nat_lt, nat_le, IfOk};
ghost use Rattle.std.specs.Prelude.{IfErr, IfSome};
ghost use Rattle.std.specs.List.{list_any};
ghost use Rattle.std.specs.Char.{is_ascii_uppercase};
ghost use Rattle.std.specs.Str.{bytes_eq};
ghost use Rattle.hex.specs.Hex.{decode_of, encode_lower};
ghost use Rattle.hex.specs.declared.error.FromHexError.TheVariants.{OutOfMemory};
ghost use Rattle.session_text.specs.declared.line.BadLine.TheVariants.{NoMemory, Grammar};
ghost use Rattle.session_text.specs.Reading.{Reads};
ghost use Rattle.session_text.specs.Words.{bytes_of, kept, text_of};
ghost use Rattle.wl_wire.specs.Texts.{is_text};

use crate::hex_digits::decode_lower;
use crate::line::BadLine;
use crate::words::is;
use hex::FromHexError;
use std::alloc::Global;
use wl_wire::{Bytes, Text};

fn has_upper(word: &[u8]) -> bool
    ensures { result ≡ list_any is_ascii_uppercase word.now }
{
    let mut found = false;
    for byte in word {
        found |= byte.is_ascii_uppercase();
    }
    found
}

fn is_within(limit: usize, bytes: &[u8]) -> bool
    ensures { result ≡ (nat_lt 0 (length bytes.now) && nat_le (length bytes.now) limit) }
{
    !bytes.is_empty() && bytes.len() <= limit
}

// From one to so many bytes, which are printed as the word from which they were decoded.
fn is_printed(limit: usize, bytes: &[u8], word: &[u8]) -> bool
    requires { decode_of word.now ≡ Ok bytes.now }
    ensures { result ≡ (nat_lt 0 (length bytes.now) && nat_le (length bytes.now) limit
        && bytes_eq (encode_lower bytes.now) word.now) }
{
    is_within(limit, bytes) && !has_upper(word)
}

// The most bytes that take no memory.
const SHORT: usize = 16;

// Few bytes, by way of a buffer.
fn decode_short(alloc: Global, word: &[u8]) -> Result<Bytes, FromHexError>
    requires { length word.now ≤ 33 }
    ensures ok { IfOk result (λ bytes. decode_of word.now ≡ Ok bytes) }
    ensures err { IfErr result (λ e. (e ≡ OutOfMemory) ⊎ (decode_of word.now ≡ Err e)) }
{
    let mut buffer = [0u8; SHORT];
    let bytes = &mut buffer[..word.len() / 2];
    hex::decode_to_slice(word, bytes)?;
    match Bytes::from_slice(alloc, bytes) {
        Ok(bytes) => Ok(bytes),
        Err(_) => Err(FromHexError::OutOfMemory),
    }
}

// The bytes of the word's digits, in either case.
fn decode(alloc: Global, word: &[u8]) -> Result<Bytes, FromHexError>
    ensures ok { IfOk result (λ bytes. decode_of word.now ≡ Ok bytes) }
    ensures err { IfErr result (λ e. (e ≡ OutOfMemory) ⊎ (decode_of word.now ≡ Err e)) }
{
    if word.len() / 2 <= SHORT {
        return decode_short(alloc, word);
    }
    Ok(Bytes::new(hex::decode(alloc, word)?))
}

// What a failed decoding means.
fn undecoded(error: FromHexError) -> BadLine
    ensures memory { error ≡ OutOfMemory → result ≡ NoMemory }
    ensures grammar { (error ≢ OutOfMemory) → result ≡ Grammar }
{
    match error {
        FromHexError::OutOfMemory => BadLine::NoMemory,
        _ => BadLine::Grammar,
    }
}

/// Bytes, from one to so many.
#[tactic(auto, unfolding(crate::specs::Words::bytes_of))]
pub(crate) fn bytes_within(alloc: Global, limit: usize, word: &[u8]) -> Result<Bytes, BadLine>
    ensures { Reads result (bytes_of limit word.now) }
{
    match decode(alloc, word) {
        Ok(bytes) if is_printed(limit, bytes.as_slice(), word) => Ok(bytes),
        Ok(_) => Err(BadLine::Grammar),
        Err(error) => Err(undecoded(error)),
    }
}

// The bytes as a text, if they are one.
fn checked_text(bytes: Vec<u8>) -> Result<Text, BadLine>
    ensures { Reads result (kept is_text (Some bytes.items)) }
{
    match Text::from_bytes(bytes) {
        Ok(text) => Ok(text),
        Err(_) => Err(BadLine::Grammar),
    }
}

// From one to so many bytes, where the word is pairs of digits in lower case.
fn lower_bytes(alloc: Global, limit: usize, word: &[u8]) -> Result<Option<Vec<u8>>, BadLine>
    ensures read { IfOk result (λ found. IfSome found (λ v. bytes_of limit word.now ≡ Some
        v.items)) }
    ensures memory { IfErr result (λ e. e ≡ NoMemory) }
{
    let length = word.len() / 2;
    if length == 0 || length > limit || word.len() % 2 != 0 {
        return Ok(None);
    }
    let mut bytes = vec![in alloc; 0; length]?;
    if decode_lower(word, &mut bytes) {
        Ok(Some(bytes))
    } else {
        Ok(None)
    }
}

/// A text of at most `limit` bytes in lower-case hex, or `-` where it is empty.
#[tactic(auto, unfolding(crate::specs::Words::text_of, crate::specs::Words::bytes_of))]
pub fn text_within(alloc: Global, limit: usize, word: &[u8]) -> Result<Text, BadLine>
    ensures { Reads result (text_of limit word.now) }
{
    if is(word, b"-".as_slice()) {
        return Ok(Text::empty(alloc));
    }
    if let Some(bytes) = lower_bytes(alloc, limit, word)? {
        return checked_text(bytes);
    }
    match hex::decode(alloc, word) {
        Ok(bytes) if is_printed(limit, &bytes, word) => checked_text(bytes),
        Ok(_) => Err(BadLine::Grammar),
        Err(error) => Err(undecoded(error)),
    }
}
