/// How a call of the program ended.
#[derive(Clone, Copy)]
pub enum Status {
    /// All events were listed, to the last.
    Ok,
    /// The words of the command line are outside their grammar. Nothing was read.
    BadWords,
    /// What came is no trace, or is longer than a trace may be.
    BadTrace,
    /// A machine still had work after the steps that were allowed.
    Unfinished,
    /// The source failed.
    ReadFault,
    /// The sink failed.
    WriteFault,
    /// Memory was refused.
    NoMemory,
}

impl Status {
    /// The number with which the program ends, as that of `shenrun`: 0, and 2 to 7 in the order in which the statuses are listed.
    pub fn number(self) -> u8 {
        match self {
            Status::Ok => 0,
            Status::BadWords => 2,
            Status::BadTrace => 3,
            Status::Unfinished => 4,
            Status::ReadFault => 5,
            Status::WriteFault => 6,
            Status::NoMemory => 7,
        }
    }
}
