//! Whole bodies, by the kinds of their arguments: the first argument is read, and then a body of the others.
ghost use Rattle.std.specs.Prelude.{List, [], ◌∷◌};
ghost use Rattle.std.specs.Option.{option_copied};
ghost use Rattle.wl_wire.specs.Reading.{Gives};
ghost use Rattle.wl_proto.specs.Reading.{values_at};
ghost use Rattle.wl_proto.specs.Grammar.{word, signed, text, token, string_value};
ghost use Rattle.wl_proto.specs.declared.table.Kind.TheVariants as kind;

use crate::reading::{first_int, first_string, first_text, first_token, first_word};
use wl_wire::Malformed;

// One argument, and nothing after it.
macro_rules! last {
    ($body:ident $first:ident) => {{
        let Ok((argument, rest)) = $first($body) else { return Err(Malformed) };
        if rest.is_empty() { Ok(argument) } else { Err(Malformed) }
    }};
}

// A first argument, and a body of the others.
macro_rules! first_and_others {
    ($body:ident $first:ident $others:ident $($other:ident)*) => {{
        let Ok((first, rest)) = $first($body) else { return Err(Malformed) };
        let Ok(($($other),*)) = $others(rest) else { return Err(Malformed) };
        Ok((first, $($other),*))
    }};
}

// Two first arguments, and a body of the others.
macro_rules! two_and_others {
    ($body:ident $first:ident $second:ident $others:ident $($other:ident)*) => {{
        let Ok((first, rest)) = $first($body) else { return Err(Malformed) };
        let Ok((second, rest)) = $second(rest) else { return Err(Malformed) };
        let Ok(($($other),*)) = $others(rest) else { return Err(Malformed) };
        Ok((first, second, $($other),*))
    }};
}

// No argument.
#[inline(always)]
pub fn nothing(body: &[u8]) -> Result<(), Malformed>
    ensures { Gives (λ _. []) result (values_at [] [] body.now) }
{
    if body.is_empty() {
        Ok(())
    } else {
        Err(Malformed)
    }
}

// A word.
#[inline(always)]
pub fn one_word(body: &[u8]) -> Result<u32, Malformed>
    ensures { Gives (λ x. word x ∷ []) result (values_at [] (kind.Uint ∷ []) body.now) }
{
    last!(body first_word)
}

// Two words.
#[inline(always)]
pub fn two_words(body: &[u8]) -> Result<(u32, u32), Malformed>
    ensures { Gives (λ x. word x.0 ∷ word x.1 ∷ []) result
        (values_at [] (kind.Uint ∷ kind.Uint ∷ []) body.now) }
{
    first_and_others!(body first_word one_word second)
}

// Three words.
#[inline(always)]
pub fn three_words(body: &[u8]) -> Result<(u32, u32, u32), Malformed>
    ensures { Gives (λ x. word x.0 ∷ word x.1 ∷ word x.2 ∷ []) result
        (values_at [] (kind.Uint ∷ kind.Uint ∷ kind.Uint ∷ []) body.now) }
{
    first_and_others!(body first_word two_words second third)
}

// Four words.
#[inline(always)]
pub fn four_words(body: &[u8]) -> Result<(u32, u32, u32, u32), Malformed>
    ensures { Gives (λ x. word x.0 ∷ word x.1 ∷ word x.2 ∷ word x.3 ∷ []) result
        (values_at [] (kind.Uint ∷ kind.Uint ∷ kind.Uint ∷ kind.Uint ∷ []) body.now) }
{
    two_and_others!(body first_word first_word two_words third fourth)
}

// Five words.
#[inline(always)]
pub fn five_words(body: &[u8]) -> Result<(u32, u32, u32, u32, u32), Malformed>
    ensures { Gives (λ x. word x.0 ∷ word x.1 ∷ word x.2 ∷ word x.3 ∷ word x.4 ∷ []) result
        (values_at [] (kind.Uint ∷ kind.Uint ∷ kind.Uint ∷ kind.Uint ∷ kind.Uint ∷ []) body.now) }
{
    first_and_others!(body first_word four_words second third fourth fifth)
}

// A number with a sign.
#[inline(always)]
pub fn one_int(body: &[u8]) -> Result<i32, Malformed>
    ensures { Gives (λ x. signed x ∷ []) result (values_at [] (kind.Int ∷ []) body.now) }
{
    last!(body first_int)
}

// Two numbers with signs.
#[inline(always)]
pub fn two_ints(body: &[u8]) -> Result<(i32, i32), Malformed>
    ensures { Gives (λ x. signed x.0 ∷ signed x.1 ∷ []) result
        (values_at [] (kind.Int ∷ kind.Int ∷ []) body.now) }
{
    first_and_others!(body first_int one_int second)
}

// Four numbers with signs.
#[inline(always)]
pub fn four_ints(body: &[u8]) -> Result<(i32, i32, i32, i32), Malformed>
    ensures { Gives (λ x. signed x.0 ∷ signed x.1 ∷ signed x.2 ∷ signed x.3 ∷ []) result
        (values_at [] (kind.Int ∷ kind.Int ∷ kind.Int ∷ kind.Int ∷ []) body.now) }
{
    two_and_others!(body first_int first_int two_ints third fourth)
}

// A text.
#[inline(always)]
pub fn one_text(body: &[u8]) -> Result<&str, Malformed>
    ensures { Gives (λ x. text x.now ∷ []) result (values_at [] (kind.Text ∷ []) body.now) }
{
    last!(body first_text)
}

// Two words and a text.
#[inline(always)]
pub fn two_words_text(body: &[u8]) -> Result<(u32, u32, &str), Malformed>
    ensures { Gives (λ x. word x.0 ∷ word x.1 ∷ text x.2.now ∷ []) result
        (values_at [] (kind.Uint ∷ kind.Uint ∷ kind.Text ∷ []) body.now) }
{
    two_and_others!(body first_word first_word one_text third)
}

// A word, a text and a word.
#[inline(always)]
pub fn word_text_word(body: &[u8]) -> Result<(u32, &str, u32), Malformed>
    ensures { Gives (λ x. word x.0 ∷ text x.1.now ∷ word x.2 ∷ []) result
        (values_at [] (kind.Uint ∷ kind.Text ∷ kind.Uint ∷ []) body.now) }
{
    two_and_others!(body first_word first_text one_word third)
}

// A text and two words.
#[inline(always)]
pub fn text_two_words(body: &[u8]) -> Result<(&str, u32, u32), Malformed>
    ensures { Gives (λ x. text x.0.now ∷ word x.1 ∷ word x.2 ∷ []) result
        (values_at [] (kind.Text ∷ kind.Uint ∷ kind.Uint ∷ []) body.now) }
{
    first_and_others!(body first_text two_words second third)
}

// A word, a text and two words.
#[inline(always)]
pub fn word_text_two_words(body: &[u8]) -> Result<(u32, &str, u32, u32), Malformed>
    ensures { Gives (λ x. word x.0 ∷ text x.1.now ∷ word x.2 ∷ word x.3 ∷ []) result
        (values_at [] (kind.Uint ∷ kind.Text ∷ kind.Uint ∷ kind.Uint ∷ []) body.now) }
{
    first_and_others!(body first_word text_two_words second third fourth)
}

// A text and two numbers with signs.
#[inline(always)]
pub fn text_two_ints(body: &[u8]) -> Result<(&str, i32, i32), Malformed>
    ensures { Gives (λ x. text x.0.now ∷ signed x.1 ∷ signed x.2 ∷ []) result
        (values_at [] (kind.Text ∷ kind.Int ∷ kind.Int ∷ []) body.now) }
{
    first_and_others!(body first_text two_ints second third)
}

// A string that may be null.
#[inline(always)]
pub fn one_string(body: &[u8]) -> Result<Option<&str>, Malformed>
    ensures { Gives (λ x. string_value (option_copied x) ∷ []) result
        (values_at [] (kind.TextOrNull ∷ []) body.now) }
{
    last!(body first_string)
}

// A string that may be null and two numbers with signs.
#[inline(always)]
pub fn string_two_ints(body: &[u8]) -> Result<(Option<&str>, i32, i32), Malformed>
    ensures { Gives (λ x. string_value (option_copied x.0) ∷ signed x.1 ∷ signed x.2 ∷ []) result
        (values_at [] (kind.TextOrNull ∷ kind.Int ∷ kind.Int ∷ []) body.now) }
{
    first_and_others!(body first_string two_ints second third)
}

// A word, a descriptor's token, which takes no bytes, and a word.
#[inline(always)]
pub fn word_token_word(body: &[u8], tokens: &[u32]) -> Result<(u32, u32, u32), Malformed>
    ensures { Gives (λ x. word x.0 ∷ token x.1 ∷ word x.2 ∷ []) result
        (values_at tokens.now (kind.Uint ∷ kind.Descriptor ∷ kind.Uint ∷ []) body.now) }
{
    let Ok((first, rest)) = first_word(body) else {
        return Err(Malformed)
    };
    let Ok(second) = first_token(tokens) else {
        return Err(Malformed)
    };
    let Ok(third) = one_word(rest) else {
        return Err(Malformed)
    };
    Ok((first, second, third))
}

// A whole body by the kinds of a row's arguments.
macro_rules! arguments {
    ($body:ident $tokens:ident) => { nothing($body) };
    ($body:ident $tokens:ident uint) => { one_word($body) };
    ($body:ident $tokens:ident uint uint) => { two_words($body) };
    ($body:ident $tokens:ident uint uint uint) => { three_words($body) };
    ($body:ident $tokens:ident uint uint uint uint) => { four_words($body) };
    ($body:ident $tokens:ident uint uint uint uint uint) => { five_words($body) };
    ($body:ident $tokens:ident int) => { one_int($body) };
    ($body:ident $tokens:ident int int) => { two_ints($body) };
    ($body:ident $tokens:ident int int int int) => { four_ints($body) };
    ($body:ident $tokens:ident text) => { one_text($body) };
    ($body:ident $tokens:ident uint uint text) => { two_words_text($body) };
    ($body:ident $tokens:ident uint text uint) => { word_text_word($body) };
    ($body:ident $tokens:ident text uint uint) => { text_two_words($body) };
    ($body:ident $tokens:ident uint text uint uint) => { word_text_two_words($body) };
    ($body:ident $tokens:ident text int int) => { text_two_ints($body) };
    ($body:ident $tokens:ident string) => { one_string($body) };
    ($body:ident $tokens:ident string int int) => { string_two_ints($body) };
    ($body:ident $tokens:ident uint descriptor uint) => { word_token_word($body, $tokens) };
}

// One row: its arguments in their order, and nothing after them.
macro_rules! row {
    ($body:ident $tokens:ident $message:ident $row:ident { $($field:ident : $kind:ident),* }) => {{
        let Ok(($($field),*)) = arguments!($body $tokens $($kind)*) else {
            return Err(Refuse::Malformed);
        };
        Ok($message::$row { $($field),* })
    }};
}

pub(crate) use arguments;
pub(crate) use row;
