//! What finishing a cycle in one pause makes of the words of an image: what is left of the collection set is copied out, all
//! references are updated, the set is freed, and who waits is served. Definitions, and laws as theorems and no code.

ghost use Rattle.cycle_words.specs.Finishing.Laws.{StopsForRoom, ServingServesAll, KeptFieldsAreFields, ReferencesCanBeUpdated, CollectingCanFinish, NoneLeftInside, UpdatedNamesNothing};

/// A law: where copying ends early an object is left for which no region outside the collection set has room.
pub fn stops_for_room()
    ensures { StopsForRoom }
{}

/// A law: nobody waits after requests were served exactly where each found room at its turn.
pub fn serving_serves_all()
    ensures { ServingServesAll }
{}

/// A law: the fields that updating all references changes are exactly the references of kept objects that stay,
/// where the words hold a graph and each piece says how many words it has.
pub fn kept_fields_are_fields()
    ensures { KeptFieldsAreFields }
{}

/// A law: then references can be updated.
pub fn references_can_be_updated()
    ensures { ReferencesCanBeUpdated }
{}

/// A law: and the cycle can be finished, where a set of the heap's regions is collected so that finishing keeps the graph.
pub fn collecting_can_finish()
    ensures { CollectingCanFinish }
{}

/// A law: where no object is left in the set, nothing that can be reached lies there, but in pinned regions.
pub fn none_left_inside()
    ensures { NoneLeftInside }
{}

/// A law: then nothing names what goes once all references were updated.
pub fn updated_names_nothing()
    ensures { UpdatedNamesNothing }
{}
