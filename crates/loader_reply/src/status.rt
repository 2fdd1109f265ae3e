// The exit statuses of the program.
ghost use Rattle.std.specs.Prelude.{◌≡◌};
ghost use Rattle.loader_reply.specs.Ending.{status_code};

/// How a run ended, without what was found out.
#[derive(Clone, Copy, Debug, PartialEq, Eq)]
pub enum Status {
    /// The whole text that the words ask for was written.
    Answered,
    /// The words were refused.
    Refused,
    /// The file could not be opened or read.
    ReadFault,
    /// The load ended with its first error.
    FirstError,
    /// The words don't fit what was found in the file.
    Mismatch,
    /// The text could not be written whole.
    WriteFault,
    /// No memory could be had.
    NoMemory,
    /// The input is over its limit.
    TooLarge,
    /// There are more faults of rows than the words allow.
    TooManyFaults,
}

impl Status {
    /// The exit status of the program.
    pub fn code(self) -> u8
        ensures { result ≡ status_code self }
    {
        match self {
            Status::Answered => 0,
            Status::Refused => 1,
            Status::ReadFault => 2,
            Status::FirstError => 3,
            Status::Mismatch => 4,
            Status::WriteFault => 5,
            Status::NoMemory => 6,
            Status::TooLarge => 7,
            Status::TooManyFaults => 9,
        }
    }
}
