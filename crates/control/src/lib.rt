//! The control of a heap: a machine that takes the steps of a cycle, or makes room, in pauses, in which no mutator and no helper is
//! in the heap. While objects are marked or evacuated, or references updated, it works on units as the helpers do.
#![tactic(auto)]

mod collect;
mod machine;
mod pause;
mod starts;

pub use machine::Control;
