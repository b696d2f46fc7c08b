//! What holds of marking in every run of a heap, whatever its threads, helpers and control do and in whatever order: laws, as
//! theorems and no code.

ghost use Rattle.cycle_runs.specs.Marking.Runs.{MarkingComesInRuns, ReachableAreMarkedInRuns};

/// A law: after every list of steps, while objects are marked, each object is marked, or was allocated since, or marking comes to
/// it by a chain of objects that are not marked yet.
pub fn marking_comes_in_runs()
    ensures { MarkingComesInRuns }
{}

/// A law: in the pause that ends marking, once the marks are closed, each object that can be reached is marked or was allocated
/// since, and so is each that a field of such an object names.
pub fn reachable_are_marked_in_runs()
    ensures { ReachableAreMarkedInRuns }
{}
