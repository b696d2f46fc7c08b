//! What the pauses that begin and end marking leave of the words of a heap: they keep the graph. Laws, as theorems and no code.

ghost use Rattle.cycle_pauses.specs.Marking.Laws.{MarkingStands, ReachableAreMarked, BeginningRepresents, EndGives};

/// A law: words that represent a graph while objects are marked hold it, and marking comes to each object that can be reached.
pub fn marking_stands()
    ensures { MarkingStands }
{}

/// A law: once the marks are closed, each object that can be reached is marked or has been allocated since mark start.
pub fn reachable_are_marked()
    ensures { ReachableAreMarked }
{}

/// A law: the words of a heap in which nothing runs and nobody asks represent the same graph once marking has begun.
pub fn beginning_represents()
    ensures { BeginningRepresents }
{}

/// A law: once marking has ended, the words represent the same graph as before, and each object is marked or has been
/// allocated since mark start. From there evacuation begins.
pub fn end_gives()
    ensures { EndGives }
{}
