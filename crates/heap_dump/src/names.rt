//! The order of names.
ghost use Rattle.std.specs.Prelude.{◌↔◌, IsTrue};
ghost use Rattle.shen_graph.specs.Reach.{IsBefore};

use shen_graph::Name;

/// Whether a name is before another, by thread and then by count.
pub fn is_before(one: Name, other: Name) -> bool
    ensures { IsTrue result ↔ IsBefore one other }
{
    one.thread < other.thread || (one.thread == other.thread && one.count < other.count)
}
