//! How a run ended.
ghost use Rattle.std.specs.Prelude.{◌≡◌};
ghost use Rattle.program_run.specs.Statuses.{number_of};

/// The end of a run, which the program exits with as its number.
#[derive(Clone, Copy, Debug, PartialEq, Eq)]
pub enum Status {
    /// The whole input up to its line `end` was read, and the whole output written.
    Ok,
    /// The words are in no grammar. Nothing was read or written.
    BadWords,
    /// A line is outside its grammar, or the input ended before `end`.
    BadSession,
    /// The input failed.
    ReadFault,
    /// The output failed. What was written is a front of the output.
    WriteFault,
    /// There was no memory. What was written is a front of the output.
    NoMemory,
    /// A step met a journal that is full for it.
    JournalFull,
    /// The limit of input bytes was taken, and no line in them decided.
    InputLong,
    /// What an audited broker sent isn't what it owes.
    AuditNo,
}

impl Status {
    /// The number that the program exits with.
    pub fn number(self) -> u8
        ensures { result ≡ number_of self }
    {
        match self {
            Status::Ok => 0,
            Status::BadWords => 2,
            Status::BadSession => 3,
            Status::ReadFault => 4,
            Status::WriteFault => 5,
            Status::NoMemory => 6,
            Status::JournalFull => 7,
            Status::InputLong => 11,
            Status::AuditNo => 12,
        }
    }
}
