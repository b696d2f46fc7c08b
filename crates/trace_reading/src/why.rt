ghost use Rattle.std.specs.Prelude.{◌≡◌};
ghost use Rattle.trace_reading.specs.Why.{text_of};

/// Why a line of a trace or of a dump is refused, or one of what stands behind a trace.
#[derive(Clone, Copy, PartialEq, Eq)]
pub enum Why {
    /// The input ends within the line, or where a line of the head is to come: `end of line wanted`.
    EndOfLine,
    /// A line of the head has another first word or another number of words: `header wanted`.
    Header,
    /// A line that is none of the schedule stands behind one of the schedule: `schedule is last`.
    ScheduleLast,
    /// There is no command behind the thread, or it has another number of words: `command wanted`.
    Command,
    /// A line of the schedule has no item, or a word that has none of the three forms: `item wanted`.
    Item,
    /// A word is no number where one is to stand: `number wanted`.
    Number,
    /// A number is outside its range: `out of range`.
    Range,
    /// A line `answer` is to come behind the trace: `answer wanted`.
    AnswerWanted,
    /// A line `history` is to come behind the body: `history wanted`.
    HistoryWanted,
    /// A line of the history is none of an entry: `entry wanted`.
    EntryWanted,
    /// A line of a dump is outside its form, its ranges or the order of names, or the dump does not list what its roots lead to:
    /// `dump wanted`.
    DumpWanted,
}

impl Why {
    /// What is said of the line.
    pub fn text(self) -> &'static [u8]
        ensures { result.now ≡ text_of self }
    {
        match self {
            Why::EndOfLine => b"end of line wanted",
            Why::Header => b"header wanted",
            Why::ScheduleLast => b"schedule is last",
            Why::Command => b"command wanted",
            Why::Item => b"item wanted",
            Why::Number => b"number wanted",
            Why::Range => b"out of range",
            Why::AnswerWanted => b"answer wanted",
            Why::HistoryWanted => b"history wanted",
            Why::EntryWanted => b"entry wanted",
            Why::DumpWanted => b"dump wanted",
        }
    }
}
