//! That the places of packing are as packing should have them, and which requests for words find room above the tops: laws over
//! numbers alone, as theorems and no code.

ghost use Rattle.regions.specs.SlideLaws.{PackingFits, PackingFills, RequestsAreServed};

/// A law: no kept object is placed above the address where it lay, so that each one fits; they stay apart and in order,
/// each within one region.
pub fn packing_fits()
    ensures { PackingFits }
{}

/// A law: the objects of a region follow one another from its base on, and the tops of all regions are together the
/// words of the kept objects.
pub fn packing_fills()
    ensures { PackingFills }
{}

/// A law: requests are served in their order, each in the lowest region with room; one is left exactly where every
/// region has less room, and then what was kept and what was given before it crowd the regions.
pub fn requests_are_served()
    ensures { RequestsAreServed }
{}
