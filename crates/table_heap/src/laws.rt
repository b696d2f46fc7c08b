ghost use Rattle.table_heap.specs.State.{StepsAreEvents};

/// A law: what a step promises is exactly one event. A call that makes none does not meet it, and two steps are not one.
pub fn steps_are_events()
    ensures { StepsAreEvents }
{}
