//! What the words of the command line name.
ghost use Rattle.std.specs.Prelude.{◌≡◌, map, string_bytes, if◌then◌else◌, Some, None};
ghost use Rattle.std.specs.Fmt.{decimal};
ghost use Rattle.std.specs.Str.{bytes_eq};
ghost use Rattle.session_text.specs.Words.{long_number_of};
ghost use Rattle.program_run.specs.Run.{command_named, task_named, gen_named, gen_text_named};
ghost use Rattle.program_run.specs.Run.{explain_named, two_named};
ghost use Rattle.program_run.specs.Run.{task_of};

use itoa::Buffer;
use lines_explained::Lines;

/// What an input is that is read line by line.
#[derive(Clone, Copy, Debug, PartialEq, Eq)]
pub enum Command {
    /// `replay`: a session.
    Replay,
    /// `replay-acts`: an act list.
    ReplayActs,
    /// `replay-seats`: several seats, each with the lines of a session of form 1.
    ReplaySeats,
    /// `explain`: a session, of which these entries have a line each.
    Explain(Lines),
    /// `migrate`: a session of form 1, which becomes one of form 2.
    Migrate,
    /// `audit`: what went into another broker, and what it sent.
    Audit,
}

/// What is to be done.
#[derive(Clone, Copy, Debug, PartialEq, Eq)]
pub enum Task {
    /// An input is read line by line.
    Lines(Command),
    /// `trial`: a script is read whole, and then run.
    Trial,
    /// `gen N`: nothing is read. The counts of the session of the number.
    Gen(u64),
    /// `gen N text`: nothing is read. The session of the number.
    GenText(u64),
}

fn command_named(word: &str) -> Option<Command>
    ensures { result ≡ command_named word.now }
{
    if word == "replay" {
        Some(Command::Replay)
    } else if word == "replay-acts" {
        Some(Command::ReplayActs)
    } else if word == "migrate" {
        Some(Command::Migrate)
    } else if word == "replay-seats" {
        Some(Command::ReplaySeats)
    } else if word == "audit" {
        Some(Command::Audit)
    } else if word == "explain" {
        Some(Command::Explain(Lines::All))
    } else {
        None
    }
}

fn task_named(word: &str) -> Option<Task>
    ensures { result ≡ task_named word.now }
{
    if word == "trial" {
        return Some(Task::Trial);
    }
    let command = command_named(word)?;
    Some(Task::Lines(command))
}

// The number, if the word is how it is written.
fn written_so(number: u64, word: &str) -> Option<u64>
    ensures { result ≡ (if bytes_eq (decimal number) word.now then Some number else None) }
{
    if Buffer::new().format(number) == word {
        return Some(number);
    }
    None
}

// The number below 2^64 that is written so: in decimal, without a sign and without a zero in front
// of other digits.
fn number_in(word: &str) -> Option<u64>
    ensures { result ≡ long_number_of word.now }
{
    match word.parse::<u64>() {
        Ok(number) => written_so(number, word),
        Err(_) => None,
    }
}

fn gen_named(word: &str, number: &str) -> Option<Task>
    ensures { result ≡ gen_named word.now number.now }
{
    if word != "gen" {
        return None;
    }
    let number = number_in(number)?;
    Some(Task::Gen(number))
}

fn gen_text_named(word: &str, number: &str, last: &str) -> Option<Task>
    ensures { result ≡ gen_text_named word.now number.now last.now }
{
    if word != "gen" || last != "text" {
        return None;
    }
    let number = number_in(number)?;
    Some(Task::GenText(number))
}

fn explain_named(word: &str, option: &str) -> Option<Task>
    ensures { result ≡ explain_named word.now option.now }
{
    if word != "explain" || option != "--bad-only" {
        return None;
    }
    Some(Task::Lines(Command::Explain(Lines::BadOnly)))
}

// What two words name.
fn two_named(word: &str, second: &str) -> Option<Task>
    ensures { result ≡ two_named word.now second.now }
{
    match explain_named(word, second) {
        Some(task) => Some(task),
        None => gen_named(word, second),
    }
}

/// What the words name. None: they are in no grammar.
pub fn task_of(words: &[String]) -> Option<Task>
    ensures { result ≡ task_of (map string_bytes words.now) }
{
    match words {
        [word] => task_named(word.as_str()),
        [word, second] => two_named(word.as_str(), second.as_str()),
        [word, number, last] => gen_text_named(word.as_str(), number.as_str(), last.as_str()),
        _ => None,
    }
}
