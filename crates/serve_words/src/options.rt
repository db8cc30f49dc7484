//! The options of `serve`, as `clap` reads them.
ghost use Rattle.std.specs.Prelude.{◌≡◌, ℕ, List, IfErr, IfOk, true, false, map, string_bytes};
ghost use Rattle.std.specs.Option.{option_map};
ghost use Rattle.clap.specs.Words.{app_of, kind_of, rule_of};
ghost use Rattle.serve_words.specs.Options.{HoldsValues, dashed, option_rule, serve_app};
ghost use Rattle.serve_words.specs.Shape.{has_shape};
ghost use Rattle.serve_words.specs.Words as grammar;

use clap::error::ErrorKind;
use clap::{Arg, ArgAction, ArgMatches, Command, Error};
use std::alloc::{AllocError, Global};

// The option `--name VALUE`.
fn option(alloc: Global, name: &str) -> Arg<'_>
    ensures rule { rule_of result ≡ option_rule name.entry.now }
    ensures local { result.global ≡ false }
{
    Arg::new(alloc, name).long(name).action(ArgAction::Set)
}

// The command, whose first word is an option, and which has no flag for help.
fn command<'a>(alloc: Global) -> Result<Command<'a>, AllocError>
    ensures { IfOk result (λ c. app_of c ≡ serve_app) }
{
    Command::new(alloc, "serve")
        .no_binary_name(true)
        .disable_help_flag(true)
        .arg(option(alloc, "app"))?
        .arg(option(alloc, "method"))?
        .arg(option(alloc, "shell"))?
        .arg(option(alloc, "order"))?
        .arg(option(alloc, "entries"))?
        .arg(option(alloc, "store"))?
        .arg(option(alloc, "weight"))?
        .arg(option(alloc, "wait"))
}

/// What `clap` reads of pairs, each option of which stands at most once. It takes them all, and
/// fails only for want of memory.
pub(crate) fn matches_of<'a>(alloc: Global, words: &'a [String]) -> Result<ArgMatches<'a>, Error>
    requires { has_shape (map string_bytes words.now) ≡ true }
    ensures holds { IfOk result (λ matches.
        HoldsValues matches (map string_bytes words.entry.now)) }
    ensures memory { IfErr result (λ e. kind_of e ≡ ErrorKind.OutOfMemory) }
{
    command(alloc)?.try_get_matches_from(words)
}

/// The value of the option with this name, if the pairs have one.
pub(crate) fn value_of<'a>(matches: &ArgMatches<'a>, name: &str) -> Option<&'a str>
    requires { grammar.is_option (dashed name.now) ≡ true }
    ensures { (words : List (List ℕ)) → HoldsValues matches.now words →
        option_map (λ v. v.now) result ≡ grammar.once (grammar.values_of (dashed name.now) words) }
{
    matches.get_str(name)
}
