//! Which regions are evacuated, in words and numbers: how much of a region lives, which regions are candidates, which of
//! these are chosen, and that there is room for all that lives in them. Laws, as theorems and no code.

ghost use Rattle.cycle_words.specs.Evacuation.Laws.{CandidateIsCandidate, ChosenIsTheChoice, ChoiceIsTaken, RoomIsFound, CopyingCopies, EachIsCopied, RootsAreCleared, EvacuationCanBegin, MarkedCanBegin, ObjectCanBeCopied, LiveIsMarked, ChosenAreLive, EvacuationCollects};

/// A law: the test of candidates tells a region that is in use, neither pinned nor current, without an object that is new, and
/// with garbage of a quarter of its words; and it tells each such region.
pub fn candidate_is_candidate()
    ensures { CandidateIsCandidate }
{}

/// A law: what is chosen has only candidates of the heap, with each one all that come before it, by live words and then by
/// number; its live words fit into the free regions; no other such set has a region besides, and it is the only such one.
pub fn chosen_is_the_choice()
    ensures { ChosenIsTheChoice }
{}

/// A law: the longest front that fits is what is taken candidate by candidate, in their order: the empty set is a front; with
/// the next candidate, where that fits, it is one; and where the next does not fit, or there is none, it is the longest.
pub fn choice_is_taken()
    ensures { ChoiceIsTaken }
{}

/// A law: whichever marked objects of the chosen regions are copied, each once and in whatever order, to the lowest region
/// outside the chosen ones that has room: each finds room.
pub fn room_is_found()
    ensures { RoomIsFound }
{}

/// A law: an object of the collection set for which a region has room is copied to the top of the lowest one outside the set:
/// its words stand there, its old copy is forwarded, and no word changes but those, the region's top and the free word.
pub fn copying_copies()
    ensures { CopyingCopies }
{}

/// A law: whichever marked objects of the chosen regions are copied out, each once and in whatever order: each is copied.
pub fn each_is_copied()
    ensures { EachIsCopied }
{}

/// A law: in the beginning of evacuation each object of the chosen regions that a root or an answer names is copied, and no other;
/// the root or answer names the copy then, so that none of them names an object of those regions.
pub fn roots_are_cleared()
    ensures { RootsAreCleared }
{}

/// A law: where marking has run and is ended, what beginning evacuation asks for holds.
pub fn evacuation_can_begin()
    ensures { EvacuationCanBegin }
{}

/// A law: evacuation can begin wherever the words hold a graph, no region is collected, what can be reached is kept, and what is
/// marked is an object.
pub fn marked_can_begin()
    ensures { MarkedCanBegin }
{}

/// A law: an object of the collection set can be copied out, where the words hold a graph and each piece says how many words it has.
pub fn object_can_be_copied()
    ensures { ObjectCanBeCopied }
{}

/// A law: the live words of a region are those of the pieces there that are marked.
pub fn live_is_marked()
    ensures { LiveIsMarked }
{}

/// A law: what can be reached in the chosen regions is marked, so that it counts as live there.
pub fn chosen_are_live()
    ensures { ChosenAreLive }
{}

/// A law: once marking was ended and evacuation begun, by the one call and then the other, the words hold the same graph, and are
/// such that finishing the cycle keeps it.
pub fn evacuation_collects()
    ensures { EvacuationCollects }
{}
