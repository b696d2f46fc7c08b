//! What a pause does: it begins marking, ends it and begins evacuation, ends that and begins the updating of references, or ends
//! that. Where a mutator waits or a copier found no room, it ends the cycle at once, and collects in full where no cycle runs or
//! ending it does not make enough room. It keeps the graph, and answers who waits. Laws, as theorems and no code.
#![tactic(auto)]

pub mod evacuation_laws;
pub mod finishing_laws;
pub mod full_laws;
pub mod marking_laws;
pub mod updating_laws;

ghost use Rattle.collector_rows.specs.ByParts.{PausesByParts};
ghost use Rattle.cycle_pauses.specs.Brief.{CollectsByPart};
ghost use Rattle.cycle_pauses.specs.Collect.{collect_image};
ghost use Rattle.cycle_pauses.specs.Laws.{EndedIsPaused, SetIsFreedFirst, RepresentingCanCollect, EndedCanBegin, RunningCanEnd, ImageIsCollected, TableIsCollected, CollectIsPause};

/// A law: a cycle that is ended in its pause is what a pause owes. It keeps the graph, and answers each mutator that asks.
pub fn ended_is_paused()
    ensures { EndedIsPaused }
{}

/// A law: where that needs no full collection, each region of the collection set that is not pinned is freed before who waits
/// is served.
pub fn set_is_freed_first()
    ensures { SetIsFreedFirst }
{}

/// A law: words of an image that represent a graph are such that a pause can collect.
pub fn representing_can_collect()
    ensures { RepresentingCanCollect }
{}

/// A law: where a pause ends marking, evacuation can begin, of the words that the end of marking leaves.
pub fn ended_can_begin()
    ensures { EndedCanBegin }
{}

/// A law: where a pause makes room while a cycle runs, the cycle can be ended.
pub fn running_can_end()
    ensures { RunningCanEnd }
{}

/// A law: the words of an image after a pause are, by their names, those that the pause makes of its words.
pub fn image_is_collected()
    ensures { ImageIsCollected }
{}

/// A law: a table that reads as a pause makes of an image is the image after it, behind words that are 0.
pub fn table_is_collected()
    ensures { TableIsCollected }
{}

/// A law: what a pause does is what a pause owes. It keeps the graph that the words represent, answers each mutator that asks,
/// and refuses an object only where live objects and objects made for others crowd the heap.
pub fn collect_is_pause()
    ensures { CollectIsPause }
{}

/// A law: where no room is needed, a pause that begins marking is made of the words off the heap, and one that begins or ends the
/// updating of references of those before the words of the mutators. Of all other words it writes only such as
/// become other than 0.
pub fn collects_by_part()
    ensures { CollectsByPart }
{}

/// A law: so a pause may load and store a part of the image: what it makes of the part that it has loaded is what it makes of
/// all of the image.
pub fn pauses_by_parts()
    ensures { PausesByParts collect_image }
{}
