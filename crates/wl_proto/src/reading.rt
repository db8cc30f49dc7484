//! The first argument of a body, and what is behind it.
ghost use Rattle.std.specs.Option.{option_copied};
ghost use Rattle.wl_wire.specs.Reading.{Gives, word_at, int_at, string_at};
ghost use Rattle.wl_proto.specs.Reading.{TokenIs, text_at};

use wl_wire::{ArgReader, Malformed};

// An argument that is one word.
#[inline(always)]
pub fn first_word<'a>(body: &'a [u8]) -> Result<(u32, &'a [u8]), Malformed>
    ensures { Gives (λ x. (x.0, x.1.now)) result (word_at body.now) }
{
    let mut args = ArgReader::new(body);
    match args.uint() {
        Ok(word) => Ok((word, args.rest)),
        Err(_) => Err(Malformed),
    }
}

// A word with a sign.
#[inline(always)]
pub fn first_int<'a>(body: &'a [u8]) -> Result<(i32, &'a [u8]), Malformed>
    ensures { Gives (λ x. (x.0, x.1.now)) result (int_at body.now) }
{
    let mut args = ArgReader::new(body);
    match args.int() {
        Ok(int) => Ok((int, args.rest)),
        Err(_) => Err(Malformed),
    }
}

// A string that may be null.
#[inline(always)]
pub fn first_string<'a>(body: &'a [u8]) -> Result<(Option<&'a str>, &'a [u8]), Malformed>
    ensures { Gives (λ x. (option_copied x.0, x.1.now)) result (string_at body.now) }
{
    let mut args = ArgReader::new(body);
    match args.string() {
        Ok(string) => Ok((string, args.rest)),
        Err(_) => Err(Malformed),
    }
}

// A string that isn't null.
#[inline(always)]
#[tactic(auto, unfolding(crate::specs::Reading::text_at))]
pub fn first_text<'a>(body: &'a [u8]) -> Result<(&'a str, &'a [u8]), Malformed>
    ensures { Gives (λ x. (x.0.now, x.1.now)) result (text_at body.now) }
{
    match first_string(body) {
        Ok((Some(text), rest)) => Ok((text, rest)),
        _ => Err(Malformed),
    }
}

// A descriptor: the first token.
pub fn first_token(tokens: &[u32]) -> Result<u32, Malformed>
    ensures { TokenIs result tokens.now }
{
    match tokens {
        [token, ..] => Ok(*token),
        [] => Err(Malformed),
    }
}
