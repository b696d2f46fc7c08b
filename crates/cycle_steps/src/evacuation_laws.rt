//! What the steps by which machines evacuate the collection set owe, unit by unit, beside the mutators: laws, as theorems and no
//! code.

ghost use Rattle.cycle_steps.specs.Evacuation.Laws.{EvacuatingSteps, SweptIsForwarded, AllIsForwarded};

/// A law: each step of a machine that works on a unit of evacuation keeps what all machines share and what the others rely on, and a
/// unit that it ends is swept: each object there is forwarded, or there was no room.
pub fn evacuating_steps()
    ensures { EvacuatingSteps }
{}

/// A law: in a region that is swept each marked object of the collection set is forwarded, if there was always room.
pub fn swept_is_forwarded()
    ensures { SweptIsForwarded }
{}

/// A law: once all units are claimed and nobody works on one, each marked object of the collection set is forwarded, if there was
/// always room.
pub fn all_is_forwarded()
    ensures { AllIsForwarded }
{}
