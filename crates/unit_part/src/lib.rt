//! The units of a cycle, as one part: a machine claims a unit of the phase and works on it, of marking, of evacuation or of
//! updating. Helpers and the control have it inside, and differ only in what they do once a unit is done or none was left.
//!
//! Scanning while objects are marked beside the mutators: a machine claims a unit, one word of grey bits, and looks at each
//! address of it that is grey and not black. It makes the address black, loads the references of the object there, and makes
//! each of them grey. Helpers and the control share the units; one exchange of the claim word decides who has the next one.
//!
//! A machine that scans stands at a `ScanSpot`, and each of its steps is one access; the rows in `specs/ScanRows.antt` say for each
//! spot which access it makes and what follows.
//!
//! Updating of references beside the mutators: once all objects of the collection set are copied, a machine claims a unit, one
//! region outside of the set, and goes over its objects from the base up to its limit. Each reference to an object that has been
//! copied is exchanged for one to the copy. Helpers and the control share the units; one exchange of the claim word decides who has
//! the next one, and one exchange of the field whether the reference is still the one that was loaded.
//!
//! A machine that updates stands at an `UpdateSpot`, and each of its steps is one access; the rows in `specs/UpdateRows.antt` say for
//! each spot which access it makes and what follows.
//!
//! A machine that works on a unit stands at a `UnitSpot`, and each of its steps is one access; the rows in `specs/UpdateRows.antt` say for
//! each spot which access it makes and what follows.
#![tactic(auto)]

mod scan_spot;
mod scan_unit;
pub mod scanning_laws;
mod spot;
pub mod unit_laws;
mod update_spot;
mod update_unit;

pub use scan_spot::ScanSpot;
pub use scan_unit::ScanUnit;
pub use spot::UnitSpot;
pub use update_spot::{UpdateSpot, Visit, Walk};
pub use update_unit::UpdateUnit;
