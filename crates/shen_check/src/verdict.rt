/// What is said of a history, and of the body that is to answer for it.
#[derive(Clone, Copy)]
pub enum Verdict {
    /// A heap may have this history for the trace, whole, and the body is the text that answers for it.
    Yes,
    /// The entry at this place, counted from 0, is the first that may not follow those before it: its command is not the next
    /// of its thread's script, or its reply is not legal, or it is `Full` and nothing crowded it out.
    Entry { at: u64 },
    /// All entries may follow, and this thread, counted from 1, is the first with a command left.
    Script { thread: u32 },
    /// All is answered, and the body is another text.
    Text,
}
