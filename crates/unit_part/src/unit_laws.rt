//! That a unit stays inside the heap: a law, as a theorem and no code.

ghost use Rattle.unit_part.specs.Ready.{AccessesAreInside, StaysReady};

/// A law: the accesses of a unit are of words of the table, and so are those that follow where the words that it finds are fit.
pub fn units_stay_inside()
    ensures inside { AccessesAreInside }
    ensures stays { StaysReady }
{}
