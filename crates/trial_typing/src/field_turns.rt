//! A field takes what is stored for it, and sends what that asks for.
ghost use Rattle.std.specs.Prelude.{◌≡◌, List, true, Ok, OnOk, OnErr};
ghost use Rattle.trial_field.specs.Log.{Entry};
ghost use Rattle.client_side.specs.Messages as messages;
ghost use Rattle.trial_client_logs.specs.Logs.{field_log};
ghost use Rattle.trial_typing.specs.FieldHearing.{HeardOn, HeardPart};
ghost use Rattle.trial_typing.specs.Sending.{IsPast};
ghost use Rattle.trial_typing.specs.FieldGoing.{IsFieldOf, FieldKeeps, IsFieldGoing, TookPiece, IsFieldAt};
ghost use Rattle.trial_typing.specs.FieldGoing.{FieldSends, FieldTurns, FieldRests};

use crate::field_job::FieldJob;
use crate::job_end::JobEnd;
use crate::turn::Turn;
use client_side::{ClientFault, FieldClient};
use hub_calls::{Piece, Sent, submit_messages, take_piece};
use hub_lock::Hub;
use std::alloc::Global;
use std::sync::Wait;
use trial_client_logs::{FieldLog, hear_field};
use wl_wire::NoMemory;

/// What waits is submitted.
pub(crate) fn send<R: Wait>(
    rt: &R,
    alloc: Global,
    hub: &Hub,
    job: &mut FieldJob,
) -> Result<Sent, JobEnd>
    requires of { IsFieldOf hub.now job.old }
    ensures keeps { FieldKeeps hub.now.limits job.old job.new }
    ensures sends { (own : List Entry) (waits : List messages.Sent) →
        IsFieldGoing hub.now.limits job.old own waits →
        FieldSends hub.now.limits job.new own result }
{
    let answer = submit_messages(rt, alloc, hub, &mut job.reader, job.client.to_send())?;
    job.client.sent();
    Ok(answer)
}

// The client hears a piece, and its log has what that made happen. Where the events go wrong it
// hears nothing more.
fn hear(
    alloc: Global,
    client: &mut FieldClient,
    log: &mut FieldLog,
    piece: &[u8],
) -> Result<(), NoMemory>
    ensures ok { OnOk result (HeardOn client.old client.new
        (field_log log.old) (field_log log.new) piece.now) }
    ensures err { OnErr result (HeardPart client.old client.new
        (field_log log.old) (field_log log.new) piece.now) }
{
    match hear_field(alloc, client, log, piece) {
        Ok(()) => Ok(()),
        Err(ClientFault::BadEvent) => Ok(()),
        Err(ClientFault::NoMemory) => Err(NoMemory),
    }
}

// What came is heard, and what that asks for is sent.
fn answer_piece<R: Wait>(
    rt: &R,
    alloc: Global,
    hub: &Hub,
    job: &mut FieldJob,
    piece: &[u8],
) -> Result<Turn, JobEnd>
    requires of { IsFieldOf hub.now job.old }
    ensures keeps { FieldKeeps hub.now.limits job.old job.new }
    ensures turns { (own : List Entry) → TookPiece hub.now.limits job.old own piece.now →
        FieldTurns hub.now.limits job.new own result }
{
    hear(alloc, &mut job.client, &mut job.log, piece)?;
    match send(rt, alloc, hub, job)? {
        Sent::All => Ok(Turn::More),
        Sent::Ended(_) => Ok(Turn::Ended),
    }
}

/// A field takes once what is stored for it, and sends what that asks for.
///
/// `JournalFull` comes where the journal is full for a take or a message, `NoMemory` may come;
/// `BadEvent` doesn't. (Wait: it promises what it does if it returns.)
pub fn answer_field<R: Wait>(
    rt: &R,
    alloc: Global,
    hub: &Hub,
    job: &mut FieldJob,
) -> Result<Turn, JobEnd>
    requires of { IsFieldOf hub.now job.old }
    ensures keeps { FieldKeeps hub.now.limits job.old job.new }
    ensures turns { (own : List Entry) → IsFieldAt hub.now.limits job.old own true →
        FieldTurns hub.now.limits job.new own result }
{
    let mut bytes = [0; 4096];
    match take_piece(rt, hub, &mut job.writer, &mut bytes)? {
        Piece::Bytes(count) => answer_piece(rt, alloc, hub, job, &bytes[..count]),
        Piece::Empty => Ok(Turn::Quiet),
        Piece::Closed => Ok(Turn::Ended),
    }
}

/// Where its peer goes on, a field takes and answers until nothing is stored in a journal of at
/// least so many entries, and no shorter than the one that its reader's pass has seen. Says whether
/// the peer still goes on.
///
/// `JournalFull` comes where the journal is full for a take or a message, `NoMemory` may come;
/// `BadEvent` doesn't. (Wait: it promises what it does if it returns.)
pub fn answer_all<R: Wait>(
    rt: &R,
    alloc: Global,
    hub: &Hub,
    job: &mut FieldJob,
    goes_on: bool,
    least: u32,
) -> Result<bool, JobEnd>
    requires of { IsFieldOf hub.now job.old }
    ensures keeps { FieldKeeps hub.now.limits job.old job.new }
    ensures rests { (own : List Entry) → IsFieldAt hub.now.limits job.old own goes_on →
        FieldRests hub.now.limits job.new own result }
    ensures least { result ≡ Ok true → IsPast job.new.reader job.new.writer least }
{
    if !goes_on {
        return Ok(false);
    }
    for _ in rt.forever() {
        match answer_field(rt, alloc, hub, job)? {
            Turn::More => {}
            Turn::Quiet => {
                let seen = job.writer.seen();
                if seen >= least && seen >= job.reader.seen() {
                    return Ok(true);
                }
            }
            Turn::Ended => return Ok(false),
        }
    }
    unreachable!()
}
