ghost use Rattle.std.specs.Prelude.{◌≡◌};
ghost use Rattle.find_play.specs.TestFaults.{why_text};

use trace_reading::Why;

/// Why a line of a test is refused.
#[derive(Clone, Copy, PartialEq, Eq)]
pub enum TestWhy {
    /// The cause is one of those of a trace: any in the head; in other lines that a line has no end, or that a word is no
    /// number, or none in its range.
    Trace(Why),
    /// No line begins with this word, or it has another number of words: `line wanted`.
    Line,
    /// The line may not stand here: `out of place`.
    Place,
    /// A word is no name of its kind: `name wanted`.
    Name,
    /// A word is no reply: `reply wanted`.
    Reply,
    /// A word is no name, or one that is taken: `new name wanted`.
    Fresh,
    /// The input ends before all threads have begun, or within a block: `more wanted`.
    More,
}

impl TestWhy {
    /// What is said of the line.
    pub fn text(self) -> &'static [u8]
        ensures { result.now ≡ why_text self }
    {
        match self {
            TestWhy::Trace(why) => why.text(),
            TestWhy::Line => b"line wanted",
            TestWhy::Place => b"out of place",
            TestWhy::Name => b"name wanted",
            TestWhy::Reply => b"reply wanted",
            TestWhy::Fresh => b"new name wanted",
            TestWhy::More => b"more wanted",
        }
    }
}

/// Why no test was read.
#[derive(Clone, Copy, PartialEq, Eq)]
pub enum TestFault {
    /// This line of the bytes, counted from 1, is the first that is outside the grammar, and why.
    BadLine { line: u64, why: TestWhy },
    /// There are more bytes than a test may have. So many were read.
    TooLong { bytes: u64 },
    /// The source failed.
    ReadFault,
    /// Memory was refused.
    NoMemory,
}
