//! What the pauses of a cycle make of the words of a heap, by their names: marking begins and ends, regions are chosen and
//! evacuation begins, updating begins and ends, and a cycle is finished at once. Definitions, and laws as theorems and no code.
#![tactic(auto)]

pub mod evacuation_laws;
pub mod finishing_laws;
pub mod marking_laws;
pub mod updating_laws;
