use crate::command::Command;

/// What a machine of a heap is to do next, beside what it does by itself.
#[derive(Clone, Copy)]
pub enum Order {
    /// Nothing: it goes on with what it does, or rests.
    Nothing,
    /// Of a mutator that takes commands: it begins this one.
    Begin(Command),
    /// Of a mutator that takes commands: it ends, and takes no order any more.
    End,
    /// Of a helper or the control that is about to claim a unit of marking: it looks at the word that has the mark of this
    /// address of the heap first, and claims none.
    Hint(u64),
}
