//! The arguments of a message are read from the left.
ghost use Rattle.std.specs.Prelude.{◌≡◌, ◌<◌, ◌^◌, ◌↔◌, List, [], IsOk};
ghost use Rattle.std.specs.Option.{option_copied};
ghost use Rattle.wl_wire.specs.Reading.{Reads, Gives, word_at, int_at, text_at, string_behind};
ghost use Rattle.wl_wire.specs.Reading.{string_at};
ghost use Rattle.wl_wire.specs.Spelled.{TakesSpelled, GivesSpelled, IsUint, IsInt, IsString};

use crate::valid::text_of;
use thiserror::Error;

/// No argument of the kind stands there.
#[derive(Clone, Copy, Debug, PartialEq, Eq, Error)]
#[error("no argument of the kind stands there")]
pub struct Malformed;

/// Reads the arguments of a body, one after the other. After an `Err` it stands where it stood before.
#[derive(Clone, Copy, Debug)]
pub struct ArgReader<'a> {
    /// The bytes that are not read yet.
    pub rest: &'a [u8],
}

#[tactic(auto, unfolding(crate::specs::Reading::word_at))]
fn word(bytes: &[u8]) -> Result<(u32, &[u8]), Malformed>
    ensures { Gives (λ x. (x.0, x.1.now)) result (word_at bytes.now) }
{
    if bytes.len() < 4 {
        return Err(Malformed);
    }
    let (front, rest) = bytes.split_at(4);
    let number = u32::from_le_bytes([front[0], front[1], front[2], front[3]]);
    Ok((number, rest))
}

// A text whose length with its zero byte is known, and what stands behind its padding.
#[tactic(auto, unfolding(crate::specs::Reading::text_at))]
fn text_at(len: usize, bytes: &[u8]) -> Result<(&str, &[u8]), Malformed>
    requires { (0 < len) × (len < 2 ^ 32) }
    ensures { Gives (λ x. (x.0.now, x.1.now)) result (text_at len bytes.now) }
{
    let end = (len + 3) / 4 * 4;
    if bytes.len() < end {
        return Err(Malformed);
    }
    if bytes[len - 1] != 0 {
        return Err(Malformed);
    }
    match text_of(&bytes[..len - 1]) {
        Some(text) => Ok((text, &bytes[end..])),
        None => Err(Malformed),
    }
}

#[tactic(auto, unfolding(crate::specs::Reading::string_behind))]
fn string_behind(len: usize, bytes: &[u8]) -> Result<(Option<&str>, &[u8]), Malformed>
    requires { len < 2 ^ 32 }
    ensures { Gives (λ x. (option_copied x.0, x.1.now)) result (string_behind len bytes.now) }
{
    if len == 0 {
        return Ok((None, bytes));
    }
    let (text, rest) = text_at(len, bytes)?;
    Ok((Some(text), rest))
}

fn next_uint(bytes: &[u8]) -> Result<(u32, &[u8]), Malformed>
    ensures read { Gives (λ x. (x.0, x.1.now)) result (word_at bytes.now) }
    ensures spelled { GivesSpelled IsUint (λ x. (x.0, x.1.now)) result bytes.now }
{
    word(bytes)
}

#[tactic(auto, unfolding(crate::specs::Reading::int_at))]
fn int(bytes: &[u8]) -> Result<(i32, &[u8]), Malformed>
    ensures { Gives (λ x. (x.0, x.1.now)) result (int_at bytes.now) }
{
    let (n, rest) = word(bytes)?;
    Ok((n.cast_signed(), rest))
}

fn next_int(bytes: &[u8]) -> Result<(i32, &[u8]), Malformed>
    ensures read { Gives (λ x. (x.0, x.1.now)) result (int_at bytes.now) }
    ensures spelled { GivesSpelled IsInt (λ x. (x.0, x.1.now)) result bytes.now }
{
    int(bytes)
}

#[tactic(auto, unfolding(crate::specs::Reading::string_at))]
fn string(bytes: &[u8]) -> Result<(Option<&str>, &[u8]), Malformed>
    ensures { Gives (λ x. (option_copied x.0, x.1.now)) result (string_at bytes.now) }
{
    let (len, rest) = word(bytes)?;
    string_behind(len as usize, rest)
}

fn next_string(bytes: &[u8]) -> Result<(Option<&str>, &[u8]), Malformed>
    ensures read { Gives (λ x. (option_copied x.0, x.1.now)) result (string_at bytes.now) }
    ensures spelled { GivesSpelled IsString (λ x. (option_copied x.0, x.1.now)) result bytes.now }
{
    string(bytes)
}

impl<'a> ArgReader<'a> {
    /// Begins at the front of a body.
    pub fn new(body: &'a [u8]) -> ArgReader<'a>
        ensures rest { result.rest.now ≡ body.now }
    {
        ArgReader { rest: body }
    }

    /// A `uint`, an `object` or a `new_id`: one word. `Malformed` exactly where fewer than 4 bytes are left.
    pub fn uint(&mut self) -> Result<u32, Malformed>
        ensures read { Reads (λ n. n) result self.old.rest.now self.new.rest.now
            (word_at self.old.rest.now) }
        ensures spelled { TakesSpelled IsUint (λ n. n) result self.old.rest.now self.new.rest.now }
    {
        let (n, rest) = next_uint(self.rest)?;
        self.rest = rest;
        Ok(n)
    }

    /// An `int`: one word, in two's complement. `Malformed` exactly where fewer than 4 bytes are left.
    pub fn int(&mut self) -> Result<i32, Malformed>
        ensures read { Reads (λ n. n) result self.old.rest.now self.new.rest.now
            (int_at self.old.rest.now) }
        ensures spelled { TakesSpelled IsInt (λ n. n) result self.old.rest.now self.new.rest.now }
    {
        let (n, rest) = next_int(self.rest)?;
        self.rest = rest;
        Ok(n)
    }

    /// A `string`: `None` is the null string. The text lies in the body and is not copied. `Malformed` exactly where no
    /// string stands there: its bytes run out, its last byte isn't zero, an earlier one is, or it isn't UTF-8.
    pub fn string(&mut self) -> Result<Option<&'a str>, Malformed>
        ensures read { Reads (λ s. option_copied s) result self.old.rest.now self.new.rest.now
            (string_at self.old.rest.now) }
        ensures spelled { TakesSpelled IsString (λ s. option_copied s) result self.old.rest.now
            self.new.rest.now }
    {
        let (text, rest) = next_string(self.rest)?;
        self.rest = rest;
        Ok(text)
    }

    /// Ends the reading. `Malformed` exactly where bytes are left over.
    pub fn finish(self) -> Result<(), Malformed>
        ensures { IsOk result ↔ (self.entry.rest.now ≡ []) }
    {
        if self.rest.is_empty() {
            Ok(())
        } else {
            Err(Malformed)
        }
    }
}
