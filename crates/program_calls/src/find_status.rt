ghost use Rattle.std.specs.Prelude.{◌≡◌};
ghost use Rattle.program_calls.specs.ExitNumbers.{exit_number};

/// How a call of the program ended.
#[derive(Clone, Copy)]
pub enum Status {
    /// All runs of the test that were made have all that is claimed.
    Holds,
    /// The words of the command line are outside their grammar. Nothing was read.
    BadWords,
    /// What came is no test, or is longer than a test may be.
    BadTest,
    /// A schedule was found, and its trace does not come to its end within the steps of the test.
    Unfinished,
    /// The source failed.
    ReadFault,
    /// The sink failed.
    WriteFault,
    /// Memory was refused.
    NoMemory,
    /// A run was found of which an assertion does not hold. Its trace was written.
    Fails,
    /// A run was found in which a thread would go back to the beginning of a loop once more than it may. Its trace was written.
    Stuck,
}

impl Status {
    /// The number with which the program ends: those of `shenrun`, and 10 and 11 where a run was found.
    pub fn number(self) -> u8
        ensures { result ≡ exit_number self }
    {
        match self {
            Status::Holds => 0,
            Status::BadWords => 2,
            Status::BadTest => 3,
            Status::Unfinished => 4,
            Status::ReadFault => 5,
            Status::WriteFault => 6,
            Status::NoMemory => 7,
            Status::Fails => 10,
            Status::Stuck => 11,
        }
    }
}
