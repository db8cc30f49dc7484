//! Why a run isn't as it should be.
ghost use Rattle.std.specs.Prelude.{◌≡◌, ℕ};
ghost use Rattle.serve_jobs.specs.Tags.End.{read, wrote, ordered};
ghost use Rattle.serve_jobs.specs.LinkTags.{done_report};
ghost use Rattle.serve_run.specs.Refused.{IsStoppedBy, stopped};
ghost use Rattle.serve_run.specs.Started.{IsRefusal};
ghost use Rattle.serve_run.specs.Statuses.{brought_by, worse, status_by, status_with};

use crate::status::ServeStatus;
use broker_core::JoinRefusal;
use peer_link::{ReadEnd, ShellEnd, WriteEnd};
use serve_jobs::LinkDone;
use serve_net::LinkSink;
use serve_record::RecordStop;
use thiserror::Error;
use wio_core::Source;

/// Why no further links are accepted.
#[derive(Clone, Copy, Debug, PartialEq, Eq, Error)]
pub enum Stop {
    /// There was no memory for a link.
    #[error("there was no memory")]
    NoMemory,
    /// The journal was full for a link's join.
    #[error("the journal is full")]
    JournalFull,
    /// A door did not open, or gave no link.
    #[error("the doors failed")]
    NetFault,
    /// The system started no further thread.
    #[error("no further thread starts")]
    NoThread,
}

/// What the results of jobs brought, the worst of it.
#[derive(Clone, Copy, Debug, PartialEq, Eq)]
pub enum Trouble {
    /// None of them failed for want of memory or of room in the journal.
    None,
    /// One met a full journal; none was without memory.
    JournalFull,
    /// One was without memory.
    NoMemory,
}

// A join is refused where 64 peers are alive, which they aren't: an order has 64 letters at most.
pub(crate) fn refused(why: JoinRefusal) -> Stop
    requires few { (n : ℕ) → why ≡ JoinRefusal.TooManyPeers n → ⊥ }
    ensures refusal { IsRefusal result }
    ensures is { IsStoppedBy why (stopped result) }
{
    match why {
        JoinRefusal::JournalFull(_) => Stop::JournalFull,
        JoinRefusal::NoMemory => Stop::NoMemory,
        JoinRefusal::TooManyPeers(_) => unreachable!(),
    }
}

fn read_trouble(end: ReadEnd) -> Trouble
    ensures { result ≡ brought_by (read end) }
{
    match end {
        ReadEnd::JournalFull(_) => Trouble::JournalFull,
        ReadEnd::NoMemory => Trouble::NoMemory,
        ReadEnd::Closed
        | ReadEnd::Torn(_)
        | ReadEnd::BadFrame(_, _)
        | ReadEnd::ReadFault
        | ReadEnd::Ended(_) => Trouble::None,
    }
}

fn write_trouble(end: WriteEnd) -> Trouble
    ensures { result ≡ brought_by (wrote end) }
{
    match end {
        WriteEnd::JournalFull(_) => Trouble::JournalFull,
        WriteEnd::NoMemory => Trouble::NoMemory,
        WriteEnd::Closed | WriteEnd::WriteFault => Trouble::None,
    }
}

fn shell_trouble(end: ShellEnd) -> Trouble
    ensures { result ≡ brought_by (ordered end) }
{
    match end {
        ShellEnd::JournalFull(_) => Trouble::JournalFull,
        ShellEnd::NoMemory => Trouble::NoMemory,
        ShellEnd::Closed | ShellEnd::BadLine(_) | ShellEnd::ReadFault | ShellEnd::WriteFault => {
            Trouble::None
        }
    }
}

/// What a result brings. A link's fault, its torn frame or its bad line ends that link alone.
pub(crate) fn trouble_of<S: Source + Drop, K: LinkSink>(done: &LinkDone<S, K>) -> Trouble
    ensures { result ≡ brought_by (done_report done.now).end }
{
    match done {
        LinkDone::Reader(done) => read_trouble(done.end),
        LinkDone::Writer(done) => write_trouble(done.end),
        LinkDone::Shell(done) => shell_trouble(done.end),
    }
}

impl Trouble {
    /// The worse of two.
    pub(crate) fn and(self, other: Trouble) -> Trouble
        ensures { result ≡ worse self other }
    {
        match (self, other) {
            (Trouble::NoMemory, _) | (_, Trouble::NoMemory) => Trouble::NoMemory,
            (Trouble::JournalFull, _) | (_, Trouble::JournalFull) => Trouble::JournalFull,
            (Trouble::None, Trouble::None) => Trouble::None,
        }
    }
}

/// The status of a run whose session was written: that with the lowest number.
pub(crate) fn status_of(accepted: Result<(), Stop>, trouble: Trouble) -> ServeStatus
    ensures { result ≡ status_by accepted trouble }
{
    match (accepted, trouble) {
        (Err(Stop::NoMemory), _) | (_, Trouble::NoMemory) => ServeStatus::NoMemory,
        (Err(Stop::JournalFull), _) | (_, Trouble::JournalFull) => ServeStatus::JournalFull,
        (Err(Stop::NetFault), Trouble::None) => ServeStatus::NetFault,
        (Err(Stop::NoThread), Trouble::None) => ServeStatus::NoThread,
        (Ok(()), Trouble::None) => ServeStatus::Ok,
    }
}

/// The status of a run whose record ended so.
pub(crate) fn status_with(
    written: Result<(), RecordStop>,
    accepted: Result<(), Stop>,
    trouble: Trouble,
) -> ServeStatus
    ensures { result ≡ status_with written accepted trouble }
{
    match written {
        Ok(()) => status_of(accepted, trouble),
        Err(RecordStop::WriteFault) => ServeStatus::WriteFault,
        Err(RecordStop::NoMemory) => ServeStatus::NoMemory,
    }
}
