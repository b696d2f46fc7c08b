//! What the steps by which machines update references owe, beside the mutators: laws, as theorems and no code.

ghost use Rattle.cycle_steps.specs.Updating.Laws.{UpdatingSteps, FollowingSteps, UnitsAreUpdated, AllIsUpdated};

/// A law: each step of a machine that works on a unit of updating keeps what all machines share and what the others rely on, and exchanges
/// a field only for one that names the same object.
pub fn updating_steps()
    ensures { UpdatingSteps }
{}

/// A law: while references are updated, a machine that resolves an address of the collection set finds the object's current copy by the
/// header alone.
pub fn following_steps()
    ensures { FollowingSteps }
{}

/// A law: no field of a current copy in a unit that is done, or at or above its region's limit, names the collection set.
pub fn units_are_updated()
    ensures { UnitsAreUpdated }
{}

/// A law: once all regions are claimed and nobody stands in a unit, no field of a current copy names the collection set.
pub fn all_is_updated()
    ensures { AllIsUpdated }
{}
