//! What holds of marking, of evacuation and updating, and of regions that are used again, in every run of a heap, whatever its
//! threads, helpers and control do and in whatever order. Laws, as theorems and no code.
#![tactic(auto)]

pub mod evacuation_laws;
pub mod marking_laws;
pub mod recycling_laws;
