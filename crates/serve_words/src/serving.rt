//! What the words of `serve` ask for.
ghost use Rattle.std.specs.Prelude.{◌≡◌, ℕ, List, true, false, length, map, string_bytes};
ghost use Rattle.std.specs.Prelude.{Err, IfOk, IfSome};
ghost use Rattle.std.specs.Option.{option_map};
ghost use Rattle.serve_words.specs.Words as grammar;
ghost use Rattle.serve_words.specs.Asked.{asked, needed};
ghost use Rattle.serve_words.specs.Options.{HoldsValues};
ghost use Rattle.serve_words.specs.Refusals.{Tells};
ghost use Rattle.serve_words.specs.Shape.{is_serve};
ghost use Rattle.broker_steps.specs.Ranges.{IsLimits, IsWithin};

use crate::numbers::number_or;
use crate::options::{matches_of, value_of};
use crate::pairs::has_shape;
use crate::refusal::WordsRefusal;
use broker_steps::{
    ENTRY_LIMIT, FORM_1_ENTRY_LIMIT, FORM_1_WEIGHT, Limits, STORE_LIMIT, WEIGHT_LIMIT,
};
use clap::ArgMatches;
use serve_net::Door;

// What a store holds where the words don't say it, in bytes.
const STORE: u32 = 65_536;

// The most seconds that each link is waited for, which stand where the words don't say it.
const WAIT: u32 = u32::MAX;

// The most letters of an order.
const MOST_LETTERS: usize = 64;

/// What the words ask for: the doors' paths, the letters of the links to accept, 1 to 64 in order,
/// the hub's limits, and how long each link is waited for.
#[derive(Clone, Copy)]
pub struct Serving<'a> {
    /// The path of the applications' door.
    pub app: &'a str,
    /// The path of the methods' door.
    pub method: &'a str,
    /// The path of the shells' door.
    pub shell: &'a str,
    /// The letters.
    pub order: &'a [u8],
    /// The hub's limits.
    pub limits: Limits,
    /// How many seconds each link is waited for at most, from 1 to 4,294,967,295.
    pub wait: u32,
}

// What has to be given.
#[derive(Clone, Copy)]
struct Needed<'a> {
    app: &'a str,
    method: &'a str,
    shell: &'a str,
    order: &'a [u8],
}

/// The door of a letter's link: `a` for applications, `m` for methods and `k` for those that have
/// virtual keyboards, and any other for shells.
pub fn door_of(letter: u8) -> Door
    ensures { result ≡ grammar.door_of letter }
{
    match letter {
        b'a' => Door::App,
        b'm' | b'k' => Door::Method,
        _ => Door::Shell,
    }
}

fn is_letter(letter: u8) -> bool
    ensures { result ≡ grammar.is_letter letter }
{
    letter == b'a' || letter == b'm' || letter == b'k' || letter == b's'
}

fn are_letters(letters: &[u8]) -> bool
    ensures { result ≡ grammar.are_letters letters.now }
{
    for letter in letters {
        if !is_letter(*letter) {
            return false;
        }
    }
    true
}

fn is_order(letters: &[u8]) -> bool
    ensures few { result ≡ true → IsWithin 64 (length letters.now) }
    ensures told { result ≡ grammar.is_order letters.now }
{
    letters.len() >= 1 && letters.len() <= MOST_LETTERS && are_letters(letters)
}

fn limits_of(matches: &ArgMatches<'_>) -> Result<Limits, WordsRefusal>
    ensures within { IfOk result IsLimits }
    ensures told { (words : List (List ℕ)) → HoldsValues matches.now words →
        Tells (λ l. l) result (grammar.limits_of words) }
{
    let entries = number_or(matches, "entries", FORM_1_ENTRY_LIMIT, ENTRY_LIMIT)?;
    let store = number_or(matches, "store", STORE, STORE_LIMIT)?;
    let weight = number_or(matches, "weight", FORM_1_WEIGHT as u32, WEIGHT_LIMIT as u32)?;
    Ok(Limits {
        entries,
        store,
        weight: u64::from(weight),
    })
}

fn wait_of(matches: &ArgMatches<'_>) -> Result<u32, WordsRefusal>
    ensures told { (words : List (List ℕ)) → HoldsValues matches.now words →
        Tells (λ n. n) result (grammar.wait_of words) }
{
    number_or(matches, "wait", WAIT, WAIT)
}

fn order_of<'a>(matches: &ArgMatches<'a>) -> Option<&'a [u8]>
    ensures few { IfSome result (λ order. IsWithin 64 (length order.now)) }
    ensures told { (words : List (List ℕ)) → HoldsValues matches.now words →
        option_map (λ o. o.now) result ≡ grammar.order_of words }
{
    let letters = value_of(matches, "order")?.as_bytes();
    if is_order(letters) {
        Some(letters)
    } else {
        None
    }
}

// What has to be given: the paths and the order.
fn needed_by<'a>(matches: &ArgMatches<'a>) -> Option<Needed<'a>>
    ensures few { IfSome result (λ needed. IsWithin 64 (length needed.order.now)) }
    ensures told { (words : List (List ℕ)) → HoldsValues matches.now words →
        option_map needed result ≡ grammar.needed_by words }
{
    let app = value_of(matches, "app")?;
    let method = value_of(matches, "method")?;
    let shell = value_of(matches, "shell")?;
    let order = order_of(matches)?;
    Some(Needed {
        app,
        method,
        shell,
        order,
    })
}

fn asked_by<'a>(matches: &ArgMatches<'a>) -> Result<Serving<'a>, WordsRefusal>
    ensures within { IfOk result (λ asked. IsLimits asked.limits) }
    ensures few { IfOk result (λ asked. IsWithin 64 (length asked.order.now)) }
    ensures told { (words : List (List ℕ)) → HoldsValues matches.now words →
        Tells asked result (grammar.asked_by words) }
{
    let Some(needed) = needed_by(matches) else {
        return Err(WordsRefusal::BadWords);
    };
    let limits = limits_of(matches)?;
    let wait = wait_of(matches)?;
    Ok(Serving {
        app: needed.app,
        method: needed.method,
        shell: needed.shell,
        order: needed.order,
        limits,
        wait,
    })
}

/// What the words ask for, the first of which is `serve`. `BadWords` comes where they are in no
/// grammar: always where they aren't `serve` and pairs of an option and a value, each option once at
/// most. Else `NoMemory` may come.
pub fn serve_of(words: &[String]) -> Result<Serving<'_>, WordsRefusal>
    ensures within { IfOk result (λ asked. IsLimits asked.limits) }
    ensures few { IfOk result (λ asked. IsWithin 64 (length asked.order.now)) }
    ensures told { Tells asked result (grammar.serve_of (map string_bytes words.now)) }
    ensures misspelt { is_serve (map string_bytes words.now) ≡ false →
        result ≡ Err WordsRefusal.BadWords }
{
    let [first, rest @ ..] = words else {
        return Err(WordsRefusal::BadWords);
    };
    if first.as_str() != "serve" || !has_shape(rest) {
        return Err(WordsRefusal::BadWords);
    }
    let Ok(matches) = matches_of(*first.allocator(), rest) else {
        return Err(WordsRefusal::NoMemory);
    };
    asked_by(&matches)
}
