use crate::Why;

/// Why no trace was read.
#[derive(Clone, Copy, PartialEq, Eq)]
pub enum TraceFault {
    /// This line of the bytes, counted from 1, is the first that is outside the grammar, and why.
    BadLine { line: u64, why: Why },
    /// There are more bytes than a trace may have. So many were read.
    TooLong { bytes: u64 },
    /// The source failed.
    ReadFault,
    /// Memory was refused.
    NoMemory,
}

/// Why a line was not taken.
#[derive(Clone, Copy)]
pub(crate) enum NotTaken {
    /// No line of the kind stands there.
    Refused,
    /// Memory was refused.
    NoMemory,
}
