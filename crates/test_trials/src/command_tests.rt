//! The words `trial-threads N`, over a sink.
use crate::equal::{equal, equal_at};
use crate::gate::Meets;
use program_run::Status;
use program_threads::run_threads;
use serve_record::MemSink;
use std::alloc::Global;
use std::process::Abort;
use std::sync::Wait;
use std::test::Fail;
use std::thread::Threads;

// Runs the line's words over a sink where the writes with these numbers fail.
fn run<R: Abort + Threads + Wait + Sync>(
    rt: &R,
    alloc: Global,
    line: &str,
    fail: &[u64],
    wanted: Status,
) -> Result<MemSink, Fail> {
    let mut words = Vec::new(alloc);
    for word in line.split(' ') {
        words.push(String::from_str(alloc, word)?)?;
    }
    let mut sink = MemSink::new(alloc, 65_536, fail.to_vec(alloc)?)?;
    let status = run_threads(rt, alloc, &words, &Meets::new(false), &mut sink);
    equal_at(rt, &line, status, wanted);
    Ok(sink)
}

/// Words that are in no grammar: nothing is written.
const BAD_WORDS: [&str; 6] = [
    "trial-threads",
    "trial-threads 07",
    "trial-threads -1",
    "trial-threads 18446744073709551616",
    "trial-threads 7 text",
    "trial 7",
];

#[test]
fn other_words_are_refused_and_a_failed_write_is_told(rt: HostRuntime) -> Result<(), Fail> {
    let alloc = rt.alloc();
    for &line in &BAD_WORDS {
        let sink = run(&rt, alloc, line, &[], Status::BadWords)?;
        equal_at(&rt, &line, sink.held().len(), 0);
    }
    run(&rt, alloc, "trial-threads 7", &[1], Status::WriteFault)?;
    Ok(())
}

#[test]
fn each_field_is_shown(rt: HostRuntime) -> Result<(), Fail> {
    let line = "trial-threads 18446744073709551615";
    let sink = run(&rt, rt.alloc(), line, &[], Status::Ok)?;
    let mut rest = std::str::from_utf8(sink.held()).ok().expect(&rt, "text");
    for front in &["show 1 ", "show 2 ", "show 3 ", "show 4 ", "end"] {
        equal_at(&rt, front, rest.starts_with(front), true);
        let Some((_, more)) = rest.split_once("\n") else {
            return Err(Fail::new("a line has no end"));
        };
        rest = more;
    }
    equal(&rt, rest, "");
    Ok(())
}
