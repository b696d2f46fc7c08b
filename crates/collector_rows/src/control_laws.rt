//! That the control stays inside the table.

ghost use Rattle.collector_rows.specs.ControlReady.{AccessesAreInside, StaysReady};

/// A law: the control's accesses are of words of the table, whatever words it finds; in a unit, where the unit can go on from them.
pub fn control_stays_inside()
    ensures inside { AccessesAreInside }
    ensures stays { StaysReady }
{}
