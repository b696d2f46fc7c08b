use crate::wanted::Wanted;
use shen_graph::Command;

/// A statement of a thread's program. "The last reply" is that of the thread's last command.
#[derive(Clone, Copy, PartialEq, Eq)]
pub enum Statement {
    /// A command of the heap.
    Run(Command),
    /// Notes the last reply under the note of this number, counted from 0.
    Keep { note: usize },
    /// A loop begins.
    Loop,
    /// Leaves the innermost loop round it if the last reply is such.
    Until(Wanted),
    /// Does the statements up to `Else` or `End` if the last reply is such, and otherwise those behind the `Else`.
    If(Wanted),
    /// Between the two parts of an `If`.
    Else,
    /// An `If` ends.
    End,
    /// A loop ends: from here its statements are done again. `first` is the number of the one behind its `Loop`, counted
    /// from 0 in the program.
    Again { first: usize },
}
