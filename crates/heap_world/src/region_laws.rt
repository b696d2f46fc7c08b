//! What of a region belongs to whom.

ghost use Rattle.heap_words.specs.declared.config.Config.{Config};
ghost use Rattle.heap_world.specs.World.{World, Shared};
ghost use Rattle.heap_world.specs.Regions.{AreSharedOut};

/// A law: where words stand for a graph, as they do after every list of steps of the heap's machines, the room of two machines
/// (in hand, the free words of a buffer, or carved for one) is apart, and no room lies in a free region or in the collection set.
pub fn regions_are_shared_out()
    ensures { (config : Config) (world : World) → Shared config world → AreSharedOut config world }
{}
