//! What the pause that ends marking and begins evacuation leaves of the words of a heap: it keeps the graph. Laws, as theorems
//! and no code.

ghost use Rattle.cycle_pauses.specs.Evacuation.Laws.{EvacuationRepresents, EvacuationAloneRepresents, EvacuationBegins};

/// A law: the words that the pause leaves represent the same graph as before, with what mutators have asked for, also where one
/// of them waits. Where roots and answers named objects in the regions that it chose, they name their copies outside.
pub fn evacuation_represents()
    ensures { EvacuationRepresents }
{}

/// A law: so do the words that the beginning of evacuation leaves by itself, of any words that the end of marking may leave.
pub fn evacuation_alone_represents()
    ensures { EvacuationAloneRepresents }
{}

/// A law: where no mutator waits, so that nobody has to be answered, this is what a pause owes.
pub fn evacuation_begins()
    ensures { EvacuationBegins }
{}
