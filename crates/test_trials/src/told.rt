//! What a field is told: by a log, and by a replay of the session that the log's trial made.
use client_side::FieldClient;
use program_run::run_plain;
use serve_record::{MemSink, MemSource, write_record};
use std::alloc::Global;
use std::test::Fail;
use trial_client_logs::{FieldEntry, FieldLog, hear_field};
use trial_threads::Session;

/// The most bytes of a session and of its transcript.
const ROOM: usize = 4_194_304;

/// The session as it is recorded.
pub fn recorded(alloc: Global, session: &Session) -> Result<MemSink, Fail> {
    if session.stamps.len() != session.journal.len() {
        return Err(Fail::new("an entry has no stamp"));
    }
    let mut record = MemSink::new(alloc, ROOM, Vec::new(alloc))?;
    write_record(alloc, session, &mut record)?;
    Ok(record)
}

/// What a replay of the session writes.
pub fn replayed(alloc: Global, session: &Session) -> Result<MemSink, Fail> {
    let record = recorded(alloc, session)?;
    let mut input = MemSource::new(record.held().to_vec(alloc)?, 4096, Vec::new(alloc));
    let mut words = Vec::new(alloc);
    words.push(String::from_str(alloc, "replay")?)?;
    let mut transcript = MemSink::new(alloc, ROOM, Vec::new(alloc))?;
    let _status = run_plain(alloc, &words, &mut input, &mut transcript);
    Ok(transcript)
}

/// What the field of the peer with the number hears by the transcript.
pub fn heard_in(alloc: Global, transcript: &str, peer: u32) -> Result<FieldLog, Fail> {
    let mark = format!(in alloc; " out {peer} ")?;
    let mut client = FieldClient::new(alloc)?;
    let mut log = FieldLog::new(alloc);
    for line in transcript.split('\n') {
        if let Some((_, digits)) = line.split_once(mark.as_str()) {
            let Ok(bytes) = hex::decode(alloc, digits.as_bytes()) else {
                return Err(Fail::new("a line of the transcript isn't read"));
            };
            hear_field(alloc, &mut client, &mut log, &bytes)?;
        }
    }
    Ok(log)
}

/// What the field was told by its log, a line for each thing, and how many things that were.
pub fn told_in(alloc: Global, log: &FieldLog) -> Result<(String, u64), Fail> {
    let mut text = String::new(alloc);
    let mut things = 0u64;
    for entry in log.as_slice() {
        if let FieldEntry::Own(_) = entry {
            continue;
        }
        things = things.saturating_add(1);
        text.push_str(format!(in alloc; "{entry:?}\n")?.as_str())?;
    }
    Ok((text, things))
}
