use std::fmt;
use std::fmt::{Debug, Formatter, Write};

/// The name of an object: the thread that made it, counted from 1, and which of that thread's allocations it was,
/// counted from 1. The object that each trace begins with, the hub, is `0.1`.
#[derive(Clone, Copy, PartialEq, Eq, PartialOrd, Ord)]
pub struct Name {
    /// The thread, from 1; 0 for the hub.
    pub thread: u32,
    /// The allocation of that thread, from 1.
    pub count: u32,
}

/// Written as in a graph, `1.3` for the third allocation of thread 1.
impl Debug for Name {
    fn fmt<W: Write>(&self, f: &mut Formatter<W>) -> fmt::Result {
        write!(f, "{}.{}", self.thread, self.count)
    }
}

impl Name {
    /// The object that each trace begins with: 16 references, no number.
    pub const HUB: Name = Name {
        thread: 0,
        count: 1,
    };
}
