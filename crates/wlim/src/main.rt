//! wlim: a broker between text fields and an input method, whose promise is proved.
#![tactic(auto)]

mod open_gate;
mod serve;
mod threads;

use program_threads::{Status, run_plain};
use serve::serve;
use serve_unix::{StdSink, StdSource};
use std::process::ExitCode;
use std::{env, io};
use threads::play_threads;

// The words of the command line after the program's name.
fn words<R: std::rt::Runtime + AllocGlobal>(rt: &R) -> io::Result<Vec<String>> {
    let mut words = Vec::new(rt.alloc());
    let mut args = env::args(rt)?;
    let _ = args.next();
    for word in args {
        words.push(word)?;
    }
    Ok(words)
}

// The status where the words can't be collected. A word that is no text is in no grammar.
fn unread(why: io::ErrorKind) -> Status {
    match why {
        io::ErrorKind::OutOfMemory => Status::NoMemory,
        _ => Status::BadWords,
    }
}

// What the first word says is run: `serve` the server, `trial-threads` a trial in threads, and any
// other, or none, what works over an input.
enum Run {
    Server,
    Threads,
    Plain,
}

fn run_of(words: &[String]) -> Run {
    match words {
        [first, ..] if first.as_str() == "serve" => Run::Server,
        [first, ..] if first.as_str() == "trial-threads" => Run::Threads,
        _ => Run::Plain,
    }
}

fn main(rt: HostRuntime) -> ExitCode {
    let words = match words(&rt) {
        Ok(words) => words,
        Err(error) => return ExitCode::from(unread(error.kind()).number()),
    };
    let mut output = StdSink::new(rt.stdout());
    match run_of(&words) {
        Run::Server => ExitCode::from(serve(rt, rt.alloc(), &words, &mut output).number()),
        Run::Threads => ExitCode::from(play_threads(&rt, rt.alloc(), &words, &mut output).number()),
        Run::Plain => {
            let mut input = StdSource::new(rt.stdin());
            ExitCode::from(run_plain(rt.alloc(), &words, &mut input, &mut output).number())
        }
    }
}
