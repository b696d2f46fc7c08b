//! What the pauses of marking make of the words of a heap by their names, and that they keep the graph: laws, as theorems
//! and no code.

ghost use Rattle.cycle_words.specs.Marking.Laws.{InitMarks, ClosingTraces, ClosingKeeps, DeadIsDead, EndKeeps};

/// A law: the beginning of marking keeps the graph, and what holds while marking runs holds after it.
pub fn init_marks()
    ensures { InitMarks }
{}

/// A law: closing the marks makes black exactly what was black and what tracing comes to, and grey exactly the latter.
pub fn closing_traces()
    ensures { ClosingTraces }
{}

/// A law: once the marks are closed, the words stand for the same graph, each object that can be reached is kept, and each
/// field of a kept object is null or names a kept object.
pub fn closing_keeps()
    ensures { ClosingKeeps }
{}

/// A law: a region that the test of dead regions tells is in use, neither pinned nor current, without an object that is new, and
/// without a mark; and it tells each such region.
pub fn dead_is_dead()
    ensures { DeadIsDead }
{}

/// A law: once the dead regions are freed too, the words stand for the same graph without the pieces of these regions, each
/// object that can be reached is kept, and each field of a kept object is null or names a kept object.
pub fn end_keeps()
    ensures { EndKeeps }
{}
