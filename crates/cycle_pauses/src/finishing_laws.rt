//! That finishing a cycle in one pause keeps the graph, answers who waits, and frees the collection set. Laws, as theorems and
//! no code.

ghost use Rattle.cycle_pauses.specs.Finishing.Copying.{CopyingKeeps, LeftCanBeCopied};
ghost use Rattle.cycle_pauses.specs.Finishing.Laws.{WholeIsPause, ShortIsPause, SetIsFree, RepresentingCanFinish};

/// A law: words that represent a graph do so, by copies, once all that is left in the collection set was copied out, or what
/// found room. Where all did, no object has its current copy there any more, but in
/// pinned regions.
pub fn copying_keeps()
    ensures { CopyingKeeps }
{}

/// A law: while objects are evacuated what is left can be copied out, one object after the other.
pub fn left_can_be_copied()
    ensures { LeftCanBeCopied }
{}

/// A law: where each object that was left found room, and each request, finishing a cycle does what a pause owes: it keeps the
/// graph, and gives each mutator that asks what it asks for.
pub fn whole_is_pause()
    ensures { WholeIsPause }
{}

/// A law: where something found no room, the words that finishing a cycle leaves hold the same graph, and a full collection
/// of them does what a pause owes.
pub fn short_is_pause()
    ensures { ShortIsPause }
{}

/// A law: before requests are served each region of the collection set that is not pinned is free, and no word of it is in use.
pub fn set_is_free()
    ensures { SetIsFree }
{}

/// A law: words that represent a graph are such that a cycle can be finished.
pub fn representing_can_finish()
    ensures { RepresentingCanFinish }
{}
