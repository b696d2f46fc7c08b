//! What holds of evacuation and of updating in every run of a heap, whatever its threads, helpers and control do and in whatever order: laws, as
//! theorems and no code. They hold of any work that is a pause's.

ghost use Rattle.cycle_runs.specs.Evacuation.Runs.{HeadersLeadInRuns, CopiesAreSpared, AllIsForwardedInRuns};
ghost use Rattle.cycle_runs.specs.Evacuation.OneEvent.{EventsSpareCopies};
ghost use Rattle.cycle_runs.specs.Evacuation.Due.{PausesComeWhenDue, EvacuationIsWhole, ImagesAreEvacuated, UpdatingIsWhole};

/// A law: after every list of steps each old copy of an object lies in the collection set, and its header leads to the object's one
/// current copy, which lies outside and has the header of an object that has not moved.
pub fn headers_lead_in_runs()
    ensures { HeadersLeadInRuns }
{}

/// A law: after every list of steps, the next access of a machine, where it is of a word of a copy in the collection set, current or
/// old, is a load; or it exchanges the copy's header to publish another copy, whose words are those of the object; or nobody copies any
/// more, and a mutator writes a field or a number of the object at its current copy. It says nothing of the control while it writes an
/// image back. What a step makes of the words is `events_spare_copies`.
pub fn copies_are_spared()
    ensures { CopiesAreSpared }
{}

/// A law: after every list of steps one more, of any machine, keeps this of the words that count, unless by it the words that a pause has
/// computed begin to count. Where a copier found no room and nobody copies any more, it stays so. The header of an object, live, dead or
/// moved, stays, or it was that of an object that has not moved and leads to a copy then, which the step publishes whole. And the words behind
/// the header stay of an object of the collection set that may still be copied, of the old copy of one that has moved, of an object that is
/// promised, of a dead one, and of words that only fill.
pub fn events_spare_copies()
    ensures { EventsSpareCopies }
{}

/// A law: in a pause in phase 2, once all regions are claimed and if there was always room, each marked object of the collection set is
/// forwarded.
pub fn all_is_forwarded_in_runs()
    ensures { AllIsForwardedInRuns }
{}

/// A law: in phases 2 and 3 the control begins a pause only once all regions are claimed, or where an allocation waits; and so it is still
/// when it reads the image in that pause.
pub fn pauses_come_when_due()
    ensures { PausesComeWhenDue }
{}

/// A law: where the control reads the image in a pause in phase 2 for which no allocation waits, and there was always room, each marked
/// object of the collection set is forwarded.
pub fn evacuation_is_whole()
    ensures { EvacuationIsWhole }
{}

/// A law: and where it reads all of the image in such a pause, as wherever regions are no larger than those of a trace, so it is of the image
/// itself, with the last word that it finds: each marked object of the collection set was copied before the updating of references begins.
pub fn images_are_evacuated()
    ensures { ImagesAreEvacuated }
{}

/// A law: where the control reads the image in a pause in phase 3 for which no allocation waits, no root, no answer and no field of a
/// current copy names the collection set.
pub fn updating_is_whole()
    ensures { UpdatingIsWhole }
{}
