//! The words of the command line.
ghost use Rattle.std.specs.Prelude.{◌≡◌, map, string_bytes, if◌then◌else◌, Some, None};
ghost use Rattle.std.specs.Fmt.{decimal};
ghost use Rattle.std.specs.Str.{bytes_eq};
ghost use Rattle.trial_run.specs.Words.{long_number_of};
ghost use Rattle.program_threads.specs.Words.{number_named, number_asked};

use itoa::Buffer;

// The number, if the word is how it is written.
fn if_written(number: u64, word: &str) -> Option<u64>
    ensures { result ≡ (if bytes_eq (decimal number) word.now then Some number else None) }
{
    if Buffer::new().format(number) == word {
        return Some(number);
    }
    None
}

// The number below 2^64 that is written so: in decimal, without a sign and without a zero in front
// of other digits.
fn number_in(word: &str) -> Option<u64>
    ensures { result ≡ long_number_of word.now }
{
    match word.parse::<u64>() {
        Ok(number) => if_written(number, word),
        Err(_) => None,
    }
}

fn number_named(word: &str, number: &str) -> Option<u64>
    ensures { result ≡ number_named word.now number.now }
{
    if word != "trial-threads" {
        return None;
    }
    number_in(number)
}

/// The number whose trial the words ask for. None: they are in no grammar.
pub(crate) fn number_asked(words: &[String]) -> Option<u64>
    ensures { result ≡ number_asked (map string_bytes words.now) }
{
    match words {
        [word, number] => number_named(word.as_str(), number.as_str()),
        _ => None,
    }
}
