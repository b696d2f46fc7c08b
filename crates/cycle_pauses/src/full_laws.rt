//! What a full collection does to a heap in a pause: it keeps the graph, and answers who waits. Laws, as theorems and no
//! code.

ghost use Rattle.cycle_pauses.specs.Full.Laws.{RepresentingHolds, RepresentingIsSized, ImageIsFull, TableIsFull, FullFromCopies, FullIsPause};

/// A law: words that represent a graph, with what mutators have asked for, hold a graph in the sense of the full collection.
pub fn representing_holds()
    ensures { RepresentingHolds }
{}

/// A law: they do so in a way in which each piece says how many words it has, and what finishing a cycle asks for holds. So the
/// single calls of a pause keep the graph, as their contracts say.
pub fn representing_is_sized()
    ensures { RepresentingIsSized }
{}

/// A law: the words of an image after a full collection are, by their names, those that a full collection makes of its
/// words.
pub fn image_is_full()
    ensures { ImageIsFull }
{}

/// A law: a table that reads as a full collection makes of an image is the image after it, behind words that are 0.
pub fn table_is_full()
    ensures { TableIsFull }
{}

/// A law: a full collection does what a pause owes also where roots name old copies of objects.
pub fn full_from_copies()
    ensures { FullFromCopies }
{}

/// A law: a full collection is a pause. It keeps the graph that the words represent, answers each mutator that asks, and
/// refuses an object only where live objects that are not pinned and objects made for other mutators crowd the regions without a
/// pinned object.
pub fn full_is_pause()
    ensures { FullIsPause }
{}
