//! When regions are given again: laws, as theorems and no code. They hold of any work that is a pause's.

ghost use Rattle.cycle_runs.specs.Recycling.Held.{FreeIsNotHeldInRuns, TakenRegionsWereFree};

/// A law: after every list of steps, no region that is free by the words that count is held: no root, answer or field of a copy, current or
/// old, names it, no machine has an address of it in hand, and no piece begins in it.
pub fn free_is_not_held_in_runs()
    ensures { FreeIsNotHeldInRuns }
{}

/// A law: a machine that takes a region, by a step other than one that writes an image back, finds in the table the words that count,
/// so that the region is free by them, and not held.
pub fn taken_regions_were_free()
    ensures { TakenRegionsWereFree }
{}
