//! The lines of a file of cases.
use crate::case::Case;
use std::alloc::{AllocError, Global};
use std::rt::Files;
use std::{fs, io};

// A line's first word, and what stands after it.
fn halves(line: &str) -> (&str, &str) {
    match line.split_once(' ') {
        Some(halves) => halves,
        None => (line, ""),
    }
}

// The words of a run. In one `_` stands for a space, and `''` is one without a letter.
fn words_of(alloc: Global, text: &str) -> Result<Vec<String>, AllocError> {
    let mut words = Vec::new(alloc);
    for word in text.split_whitespace() {
        if word == "''" {
            words.push(String::new(alloc))?;
        } else {
            words.push(word.replace(alloc, "_", " ")?)?;
        }
    }
    Ok(words)
}

// The file, or so many of its first lines.
fn part<R: Files + AllocGlobal>(rt: &R, folder: &str, text: &str) -> io::Result<String> {
    let (file, count) = halves(text);
    let count = count.parse::<usize>().unwrap_or(usize::MAX);
    let path = format!(in rt.alloc(); "{folder}/{file}")?;
    let whole = fs::read_to_string(rt, path.as_str())?;
    let mut part = String::new(rt.alloc());
    for line in whole.as_str().split_inclusive('\n').take(count) {
        part.push_str(line)?;
    }
    Ok(part)
}

// A text so many times, each with this end.
fn repeated(alloc: Global, text: &str, end: &str) -> Result<String, AllocError> {
    let (count, text) = halves(text);
    let mut all = String::new(alloc);
    for _ in 0..count.parse::<u32>().unwrap_or(0) {
        all.push_str(text)?;
        all.push_str(end)?;
    }
    Ok(all)
}

/// Takes a line of a case; and says whether it is one.
pub fn take_line<R: Files + AllocGlobal>(
    rt: &R,
    folder: &str,
    line: &str,
    case: &mut Case,
) -> io::Result<bool> {
    let alloc = rt.alloc();
    let (word, rest) = halves(line);
    match word {
        "" | "#" => {}
        "run" => {
            case.runs = Vec::new(alloc);
            case.runs.push(words_of(alloc, rest)?)?;
        }
        "then" => case.runs.push(words_of(alloc, rest)?)?,
        "<" => case.put_input(rest, "\n")?,
        "<_" => case.put_input(rest.replace(alloc, "_", " ")?.as_str(), "\n")?,
        "<-" => case.put_input(rest, "")?,
        "<+" => case.put_input(repeated(alloc, rest, "")?.as_str(), "")?,
        "<*" => case.put_input(repeated(alloc, rest, "\n")?.as_str(), "")?,
        "<<" => case.put_input(part(rt, folder, rest)?.as_str(), "")?,
        ">" => case.put_output(rest, "\n")?,
        ">>" => case.put_output(part(rt, folder, rest)?.as_str(), "")?,
        "..." => case.end = Some(String::new(alloc)),
        "status" => case.status = rest.parse::<u8>().unwrap_or(u8::MAX),
        "failed-read" => case.failed_reads.push(rest.parse::<u64>().unwrap_or(0))?,
        "failed-write" => case.failed_writes.push(rest.parse::<u64>().unwrap_or(0))?,
        _ => return Ok(false),
    }
    Ok(true)
}
