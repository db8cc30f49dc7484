//! The number of an option.
ghost use Rattle.std.specs.Prelude.{◌≡◌, ℕ, List, true, IfOk};
ghost use Rattle.serve_words.specs.Words as grammar;
ghost use Rattle.serve_words.specs.Options.{HoldsValues, dashed};
ghost use Rattle.serve_words.specs.Refusals.{Tells};
ghost use Rattle.broker_steps.specs.Ranges.{IsWithin};
ghost use Rattle.session_text.specs.Words.{count_of};

use crate::refusal::WordsRefusal;
use clap::ArgMatches;
use session_text::BadLine;
use session_text::words::count;

// The number from 1 to `most` that is written so.
#[tactic(auto, using(crate::proofs::CountsWithin::count_within))]
fn number_of(most: u32, word: &[u8]) -> Result<u32, WordsRefusal>
    ensures within { IfOk result (λ n. IsWithin most n) }
    ensures told { Tells (λ n. n) result (count_of most word.now) }
{
    match count(most, word) {
        Ok(number) => Ok(number),
        Err(BadLine::Grammar) => Err(WordsRefusal::BadWords),
        Err(BadLine::NoMemory) => Err(WordsRefusal::NoMemory),
    }
}

/// The number from 1 to `most` that the option with this name has, or else `default`.
pub(crate) fn number_or(
    matches: &ArgMatches<'_>,
    name: &str,
    default: u32,
    most: u32,
) -> Result<u32, WordsRefusal>
    requires known { grammar.is_option (dashed name.now) ≡ true }
    requires fits { IsWithin most default }
    ensures within { IfOk result (λ n. IsWithin most n) }
    ensures told { (words : List (List ℕ)) → HoldsValues matches.now words →
        Tells (λ n. n) result
        (grammar.number_or default most (grammar.values_of (dashed name.now) words)) }
{
    match matches.get_str(name) {
        None => Ok(default),
        Some(value) => number_of(most, value.as_bytes()),
    }
}
