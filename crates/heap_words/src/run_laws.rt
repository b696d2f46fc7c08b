//! Runs of machines over words: an event is one access of one word by one machine. The laws here hold of every kind of
//! machine, whatever its words mean.

ghost use Rattle.heap_words.specs.Steps.{MachineKind, RunsAdd, EventsAreSmall};

/// A law: events one after another are one run.
pub fn runs_add<R, O>()
    ensures { (kind : MachineKind R O) → RunsAdd kind }
{}

/// A law: an event is one access of one word, and changes no machine but its own.
pub fn events_are_small<R, O>()
    ensures { (kind : MachineKind R O) → EventsAreSmall kind }
{}
