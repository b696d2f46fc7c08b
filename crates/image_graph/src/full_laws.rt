//! That what a full collection makes of the words of an image keeps the graph, and answers who waits: laws, as theorems and no code.

ghost use Rattle.image_graph.specs.Image.{StandingHolds, PackedStands};
ghost use Rattle.image_graph.specs.Laws.{ReachableAreHeld, PackingKeepsGraph, KeptAreHeld};
ghost use Rattle.image_graph.specs.Promised.{KeptAreLive, KeptAreLiveOrPromised, OpenKeptAreFewer};
ghost use Rattle.image_graph.specs.RequestsServed.{ServingAnswers};
ghost use Rattle.image_graph.specs.Serving.{ServingStands, FullStands, FullIsCrowded};

/// A law: what root words lead to, by current copies, are exactly the current copies of the objects that the graph
/// reaches.
pub fn reachable_are_held()
    ensures { ReachableAreHeld }
{}

/// A law: packing what root words lead to, by current copies, around the regions that are shut keeps the graph that the words stand
/// for. The tops of the open regions are then together the words of the objects kept there.
pub fn packing_keeps_graph()
    ensures { PackingKeepsGraph }
{}

/// A law: the walk over the words of an image finds exactly the objects that its root words lead to, by current copies.
pub fn kept_are_held()
    ensures { KeptAreHeld }
{}

/// A law: each waiting request is answered, by an address where a region has room for it at its turn, and by 1 exactly
/// where no region has.
pub fn serving_answers()
    ensures { ServingAnswers }
{}

/// A law: what is kept has no more words than what the graph reaches.
pub fn kept_are_live()
    ensures { KeptAreLive }
{}

/// A law: where threads have objects that they have not taken yet, what is kept has no more words than what the graph
/// reaches and those objects.
pub fn kept_are_live_or_promised()
    ensures { KeptAreLiveOrPromised }
{}

/// A law: where objects are pinned, what is kept in regions without one has no more words than what the graph reaches and is
/// not pinned, and what is promised.
pub fn open_kept_are_fewer()
    ensures { OpenKeptAreFewer }
{}

/// A law: words that stand for a graph, with no old copies, hold it by current copies.
pub fn standing_holds()
    ensures { StandingHolds }
{}

/// A law: words that hold a graph by current copies stand for the same graph once what is held was packed.
pub fn packed_stands()
    ensures { PackedStands }
{}

/// A law: serving waiting requests keeps the graph. The objects that are made for them are further promises.
pub fn serving_stands()
    ensures { ServingStands }
{}

/// A law: a full collection keeps the graph that the words of an image hold by current copies.
pub fn full_stands()
    ensures { FullStands }
{}

/// A law: a request is answered that the heap is full only where live objects that are not pinned, promised ones and what was given
/// before it crowd the regions without a pinned object.
pub fn full_is_crowded()
    ensures { FullIsCrowded }
{}
