//! What the steps of a cycle owe beside the mutators: recording and scanning, where objects are marked from a snapshot while references
//! change; and those by which objects are moved: resolving an address, a unit of evacuation, and a unit of updating. Laws, as theorems
//! and no code.
#![tactic(auto)]

pub mod evacuation_laws;
pub mod marking_laws;
pub mod resolving_laws;
pub mod updating_laws;
