use crate::wanted::Wanted;

/// A line of what a test claims of a run. Each `Assert` begins an assertion, and all assertions are to hold. An assertion
/// is alternatives with an `Or` between; it holds if all facts of one of them hold. Notes are numbered from 0, places
/// from 0, which is the hub. A note is empty until a line notes a reply under it.
#[derive(Clone, Copy, PartialEq, Eq)]
pub enum Claim {
    /// An assertion begins.
    Assert,
    /// Another alternative begins.
    Or,
    /// The note has a reply, and it is such.
    Is {
        wanted: Wanted,
        note: usize,
    },
    /// The note has a reply, and it is not such.
    Isnt {
        wanted: Wanted,
        note: usize,
    },
    /// No reply of any command is such.
    Never {
        wanted: Wanted,
    },
    /// As many notes as that have such a reply.
    Count {
        wanted: Wanted,
        count: u64,
    },
    /// Both notes have a reply, and they are equal.
    Alike {
        a: usize,
        b: usize,
    },
    /// Both notes have a reply, and they differ.
    Differ {
        a: usize,
        b: usize,
    },
    /// The object at the place has this number there in the last graph.
    Number {
        place: usize,
        index: u32,
        value: u64,
    },
    /// The place is there in the last graph, and the reference is null.
    Null {
        place: usize,
    },
    /// The place is there, and from its reference on, along this field, there are so many objects, and then null.
    Chain {
        place: usize,
        field: u32,
        length: u64,
    },
    /// Both places are there, and their references are equal.
    Same {
        a: usize,
        b: usize,
    },
}
