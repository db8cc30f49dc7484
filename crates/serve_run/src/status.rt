//! How a run of the server ended.
ghost use Rattle.std.specs.Prelude.{◌≡◌};
ghost use Rattle.serve_run.specs.Statuses.{number_of};

/// The end of a run of the server, which the program exits with as its number. Where several came,
/// it is the one with the lowest number.
#[derive(Clone, Copy, Debug, PartialEq, Eq)]
pub enum ServeStatus {
    /// Every letter had its link, every link was served to its end, and the session is written.
    Ok,
    /// The words are in no grammar. Nothing was done.
    BadWords,
    /// The output failed. What was written is a front of the session.
    WriteFault,
    /// There was no memory. What was written is a front of the session.
    NoMemory,
    /// The journal was full for a join, or for a step of a link.
    JournalFull,
    /// A door couldn't be opened, or a link couldn't be accepted.
    NetFault,
    /// A job couldn't be started.
    NoThread,
}

impl ServeStatus {
    /// The number that the program exits with.
    pub fn number(self) -> u8
        ensures { result ≡ number_of self }
    {
        match self {
            ServeStatus::Ok => 0,
            ServeStatus::BadWords => 2,
            ServeStatus::WriteFault => 5,
            ServeStatus::NoMemory => 6,
            ServeStatus::JournalFull => 7,
            ServeStatus::NetFault => 8,
            ServeStatus::NoThread => 9,
        }
    }
}
