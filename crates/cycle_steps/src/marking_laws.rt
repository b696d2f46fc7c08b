//! What the steps of recording and of scanning owe, where objects are marked from a snapshot beside the machines that change
//! references: laws, as theorems and no code.

ghost use Rattle.cycle_steps.specs.Laws.{RecordingSteps, ScanningSteps};
ghost use Rattle.cycle_steps.specs.Chains.{MarkingComes};

/// A law: each step of a mutator that records an address keeps what all machines share and what the others rely on, and
/// the address is noted from the first step on.
pub fn recording_steps()
    ensures { RecordingSteps }
{}

/// A law: each step of a machine that scans a unit of marking keeps what all machines share and what the others rely on.
pub fn scanning_steps()
    ensures { ScanningSteps }
{}

/// A law: while objects are marked, whoever scans and records, each object is marked, or was allocated since, or marking comes to it
/// by a chain of objects that are not marked yet.
pub fn marking_comes()
    ensures { MarkingComes }
{}
