//! What the pauses that begin and end the updating of references leave of the words of a heap: they keep the graph. Laws, as
//! theorems and no code.

ghost use Rattle.cycle_pauses.specs.Updating.Laws.{UpdatingBegins, UpdatingEnds, SetIsFreed, NoneIsPinned};

/// A law: once all regions are claimed in phase 2, and if no copier was ever out of room, the words represent the same graph
/// where the updating of references begins.
pub fn updating_begins()
    ensures { UpdatingBegins }
{}

/// A law: once all regions are claimed in phase 3, the words represent the same graph where updating ends and the collection set
/// is freed.
pub fn updating_ends()
    ensures { UpdatingEnds }
{}

/// A law: the end of updating frees each region of the collection set, and leaves each other region of the heap as it is.
pub fn set_is_freed()
    ensures { SetIsFreed }
{}

/// A law: none of the regions that the end of updating frees is pinned.
pub fn none_is_pinned()
    ensures { NoneIsPinned }
{}
