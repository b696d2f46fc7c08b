//! The load barrier of concurrent evacuation (load reference barriers, as in Shenandoah from JDK 13 on): a reference that was
//! loaded and names an object of the collection set is resolved before it is used, to the address of the object's current copy.
//!
//! An object that was not copied yet is copied by whoever meets it first, a mutator or a machine that evacuates a region. All
//! that meet it at once copy it, each into room of its own, and one exchange of the old header decides whose copy is the
//! object: the others give their room back, and go on with the copy that the header names. Whoever finds no room stops all
//! copying by the protocol of `evac_room`.
//!
//! A machine that resolves an address stands at a `ResolveSpot`, with a taking of room and the spots of the protocol inside; one
//! that evacuates a region at an `EvacSpot`, with a resolving inside. Each of their steps is one access; the rows in `specs/`
//! say for each spot which access it makes and what follows.
#![tactic(auto)]

mod copying;
mod evac_spot;
mod evac_unit;
mod resolve;
mod set;
mod spot;

ghost use Rattle.load_barrier.specs.Alone.{AnswersAreCurrent};

pub use copying::CopySpot;
pub use evac_spot::EvacSpot;
pub use evac_unit::EvacUnit;
pub use resolve::Resolve;
pub use set::must_resolve;
pub use spot::ResolveSpot;

/// A law: whatever others do that leave the object as the protocol has it, the answer is the object's current copy, from the
/// moment on at which it is there, and a copy that is about to be published is whole.
pub fn answers_are_current()
    ensures { AnswersAreCurrent }
{}
