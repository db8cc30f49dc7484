//! Words in pairs of an option and a value.
ghost use Rattle.std.specs.Prelude.{◌≡◌, ◌+◌, ◌<◌, ◌^◌, ◌&&◌, length, map, string_bytes};
ghost use Rattle.std.specs.Prelude.{if◌then◌else◌};
ghost use Rattle.std.specs.Str.{bytes_eq};
ghost use Rattle.serve_words.specs.Words as grammar;
ghost use Rattle.serve_words.specs.Shape as shape;

// Whether the word names an option.
fn is_option(word: &str) -> bool
    ensures { result ≡ grammar.is_option word.now }
{
    word == "--app"
        || word == "--method"
        || word == "--shell"
        || word == "--order"
        || word == "--entries"
        || word == "--store"
        || word == "--weight"
        || word == "--wait"
}

// Whether the word may be a value.
fn is_value(word: &str) -> bool
    ensures { result ≡ grammar.is_value word.now }
{
    match word.as_bytes() {
        [] => false,
        [first, ..] => *first != b'-',
    }
}

fn is_pair(option: &str, value: &str) -> bool
    ensures { result ≡ grammar.is_option option.now && grammar.is_value value.now }
{
    is_option(option) && is_value(value)
}

// Whether the words are pairs of an option and a value.
fn are_pairs(words: &[String]) -> bool
    ensures { result ≡ grammar.are_pairs (map string_bytes words.now) }
{
    let mut at = 0;
    while words.len() - at > 1 {
        if !is_pair(words[at].as_str(), words[at + 1].as_str()) {
            return false;
        }
        at += 2;
    }
    words.len() - at == 0
}

// What was counted so far, and one more if the option has the name.
fn counted(found: usize, option: &str, name: &str) -> usize
    requires { found + 1 < 2 ^ 64 }
    ensures { result ≡ found + (if bytes_eq option.now name.now then 1 else 0) }
{
    if option == name { found + 1 } else { found }
}

// How many options have this name.
fn uses_of(words: &[String], name: &str) -> usize
    ensures { result ≡ length (grammar.values_of name.now (map string_bytes words.now)) }
{
    let mut found = 0;
    let mut at = 0;
    while words.len() - at > 1 {
        found = counted(found, words[at].as_str(), name);
        at += 2;
    }
    found
}

fn stands_once_at_most(words: &[String], name: &str) -> bool
    ensures { result ≡ shape.stands_once_at_most name.now (map string_bytes words.now) }
{
    uses_of(words, name) <= 1
}

// Whether each of the options stands at most once.
fn stand_once_at_most(words: &[String]) -> bool
    ensures { result ≡ shape.stand_once_at_most (map string_bytes words.now) }
{
    stands_once_at_most(words, "--app")
        && stands_once_at_most(words, "--method")
        && stands_once_at_most(words, "--shell")
        && stands_once_at_most(words, "--order")
        && stands_once_at_most(words, "--entries")
        && stands_once_at_most(words, "--store")
        && stands_once_at_most(words, "--weight")
        && stands_once_at_most(words, "--wait")
}

/// Whether the words are pairs of an option and a value, each option at most once.
pub(crate) fn has_shape(words: &[String]) -> bool
    ensures { result ≡ shape.has_shape (map string_bytes words.now) }
{
    are_pairs(words) && stand_once_at_most(words)
}
