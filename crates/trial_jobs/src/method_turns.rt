//! The method takes what is stored for it, and sends what that asks for.
ghost use Rattle.std.specs.Prelude.{◌≡◌, ◌≤◌, Bool, true, false, List, length, Ok};
ghost use Rattle.trial_field.specs.Log.{Batch};
ghost use Rattle.client_side.specs.Messages as messages;
ghost use Rattle.trial_client_logs.specs.MethodLogs.{method_log};
ghost use Rattle.hub_lock.specs.Passes.{journal_seen};
ghost use Rattle.trial_run.specs.declared.typist.TrialTypist.{TrialTypist};
ghost use Rattle.trial_jobs.specs.MethodHearing.{HearsPiece};
ghost use Rattle.trial_jobs.specs.MethodGoing.{IsMethodOf, MethodKeeps, IsMethodGoing, TookPiece};
ghost use Rattle.trial_jobs.specs.MethodGoing.{IsMethodAt, MethodSends, MethodTurns, MethodGoes};

use crate::method_job::MethodJob;
use client_side::{ClientFault, MethodClient};
use hub_calls::{Piece, Sent, submit_messages, take_piece};
use hub_lock::Hub;
use std::alloc::Global;
use std::sync::Wait;
use trial_client_logs::{MethodLog, hear_method};
use trial_run::TrialTypist;
use trial_typing::{JobEnd, Turn};

/// What waits is submitted.
pub(crate) fn send<R: Wait>(
    rt: &R,
    alloc: Global,
    hub: &Hub,
    job: &mut MethodJob,
) -> Result<Sent, JobEnd>
    requires of { IsMethodOf hub.now job.old }
    ensures keeps { MethodKeeps hub.now.limits job.old job.new }
    ensures sends { (typist : TrialTypist) (own : List Batch) (waits : List messages.Sent)
        (quiet : Bool) → IsMethodGoing hub.now.limits typist job.old own waits quiet →
        MethodSends hub.now.limits typist job.new own quiet result }
{
    let answer = submit_messages(rt, alloc, hub, &mut job.reader, job.client.to_send())?;
    job.client.sent();
    Ok(answer)
}

// The client hears a piece, and its log has the events.
fn hear(
    alloc: Global,
    client: &mut MethodClient<TrialTypist>,
    log: &mut MethodLog,
    piece: &[u8],
) -> Result<(), JobEnd>
    ensures { HearsPiece client.old client.new
        (method_log log.old) (method_log log.new) piece.now result }
{
    match hear_method(alloc, client, log, piece) {
        Ok(()) => Ok(()),
        Err(ClientFault::BadEvent) => Err(JobEnd::BadEvent),
        Err(ClientFault::NoMemory) => Err(JobEnd::NoMemory),
    }
}

// What came is heard, and what that asks for is sent.
fn answer_piece<R: Wait>(
    rt: &R,
    alloc: Global,
    hub: &Hub,
    job: &mut MethodJob,
    piece: &[u8],
) -> Result<Turn, JobEnd>
    requires of { IsMethodOf hub.now job.old }
    ensures keeps { MethodKeeps hub.now.limits job.old job.new }
    ensures turns { (typist : TrialTypist) (own : List Batch) →
        TookPiece hub.now.limits typist job.old own piece.now →
        MethodTurns hub.now.limits typist job.new own result }
{
    hear(alloc, &mut job.client, &mut job.log, piece)?;
    match send(rt, alloc, hub, job)? {
        Sent::All => Ok(Turn::More),
        Sent::Ended(_) => Ok(Turn::Ended),
    }
}

/// The method takes once what is stored for it, and sends what that asks for.
///
/// `JournalFull` comes where the journal is full for a take or a message, `BadEvent` where the
/// method was told what its client can't read, `NoMemory` may come. (Wait: it promises what it does
/// if it returns.)
pub fn answer_method<R: Wait>(
    rt: &R,
    alloc: Global,
    hub: &Hub,
    job: &mut MethodJob,
) -> Result<Turn, JobEnd>
    requires of { IsMethodOf hub.now job.old }
    ensures keeps { MethodKeeps hub.now.limits job.old job.new }
    ensures turns { (typist : TrialTypist) (own : List Batch) →
        IsMethodAt hub.now.limits typist job.old own false true →
        MethodTurns hub.now.limits typist job.new own result }
{
    let mut bytes = [0; 4096];
    match take_piece(rt, hub, &mut job.writer, &mut bytes)? {
        Piece::Bytes(count) => answer_piece(rt, alloc, hub, job, &bytes[..count]),
        Piece::Empty => Ok(Turn::Quiet),
        Piece::Closed => Ok(Turn::Ended),
    }
}

/// Where its peer goes on, the method takes and answers until nothing is stored in a journal of at
/// least so many entries. Says whether the peer still goes on.
///
/// `JournalFull` comes where the journal is full for a take or a message, `BadEvent` where the
/// method was told what its client can't read, `NoMemory` may come. (Wait: it promises what it does
/// if it returns.)
pub fn answer_all<R: Wait>(
    rt: &R,
    alloc: Global,
    hub: &Hub,
    job: &mut MethodJob,
    goes_on: bool,
    least: u32,
) -> Result<bool, JobEnd>
    requires of { IsMethodOf hub.now job.old }
    ensures keeps { MethodKeeps hub.now.limits job.old job.new }
    ensures goes { (typist : TrialTypist) (own : List Batch) →
        IsMethodAt hub.now.limits typist job.old own false goes_on →
        MethodGoes hub.now.limits typist job.new own true result }
    ensures least { result ≡ Ok true → least ≤ length (journal_seen job.new.writer.seat) }
{
    if !goes_on {
        return Ok(false);
    }
    for _ in rt.forever() {
        match answer_method(rt, alloc, hub, job)? {
            Turn::More => {}
            Turn::Quiet => {
                if job.writer.seen() >= least {
                    return Ok(true);
                }
            }
            Turn::Ended => return Ok(false),
        }
    }
    unreachable!()
}
