//! Plays the cases of files through what the program does with an input and an output, and says of each whether what
//! comes of it is what its file says.
#![tactic(auto)]

mod case;
mod lines;

use case::Case;
use lines::take_line;
use std::rt::{Files, Runtime};
use std::{env, fs, io};

// How many cases were played, and how many came to something else.
#[derive(Clone, Copy)]
struct Counts {
    cases: u64,
    others: u64,
}

// Plays the case, and says what came of it where that is something else.
fn show<R: Files + Print + AllocGlobal>(
    rt: &R,
    case: &Case,
    counts: &mut Counts,
) -> io::Result<()> {
    if case.name.is_empty() {
        return Ok(());
    }
    let came = case.play(rt.alloc())?;
    counts.cases = counts.cases.saturating_add(1);
    if case.awaits(&came) {
        return println!(rt; "ok {}", case.name);
    }
    counts.others = counts.others.saturating_add(1);
    let text = String::from_utf8_lossy(rt.alloc(), came.output.as_slice())?;
    println!(rt; "OTHER {}", case.name)?;
    println!(rt; "status {}", came.status)?;
    println!(rt; "{}", text.as_str())
}

// Plays the cases of a file. What stands between a line `begin` and the first case after it is the beginning of each
// case up to the next such line.
fn play_file<R: Files + Print + AllocGlobal>(
    rt: &R,
    path: &str,
    counts: &mut Counts,
) -> io::Result<()> {
    let (folder, file) = path.rsplit_once('/').unwrap_or((".", path));
    println!(rt; "{file}")?;
    let text = fs::read_to_string(rt, path)?;
    let mut beginning = Case::new(rt.alloc());
    let mut case = Case::new(rt.alloc());
    for line in text.as_str().split('\n') {
        if line == "begin" {
            show(rt, &case, counts)?;
            case = Case::new(rt.alloc());
        } else if let Some(name) = line.strip_prefix("case ") {
            if case.name.is_empty() {
                beginning = case;
            } else {
                show(rt, &case, counts)?;
            }
            case = beginning.named(rt.alloc(), name)?;
        } else if !take_line(rt, folder, line, &mut case)? {
            counts.others = counts.others.saturating_add(1);
            println!(rt; "NO LINE {line}")?;
        }
    }
    show(rt, &case, counts)
}

// The words of the command line after the program's name.
fn words<R: Runtime + AllocGlobal>(rt: &R) -> io::Result<Vec<String>> {
    let mut words = Vec::new(rt.alloc());
    let mut args = env::args(rt)?;
    let _ = args.next();
    for word in args {
        words.push(word)?;
    }
    Ok(words)
}

fn main(rt: HostRuntime) -> io::Result<()> {
    let words = words(&rt)?;
    let mut counts = Counts {
        cases: 0,
        others: 0,
    };
    for word in &words {
        if word.ends_with(".cases") {
            play_file(&rt, word.as_str(), &mut counts)?;
        }
    }
    println!(&rt; "{} cases, {} others", counts.cases, counts.others)
}
