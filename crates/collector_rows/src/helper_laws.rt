//! That a helper stays inside the table.

ghost use Rattle.collector_rows.specs.HelperReady.{AccessesAreInside, StaysReady};

/// A law: a helper's accesses are of words of the table, and so are those that follow, where the words that it finds in a unit
/// are fit.
pub fn helpers_stay_inside()
    ensures inside { AccessesAreInside }
    ensures stays { StaysReady }
{}
