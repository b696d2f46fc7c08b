//! The full collection: keeps exactly the objects that roots, answers and pin slots lead to, packs them in the order of their
//! addresses, around the regions where objects are pinned, and serves the mutators that wait for an object, or answers that the heap is full.
#![tactic(auto)]

mod calm;
mod collect;
mod pack;
mod refuse;
mod renew;
mod walk;

pub use collect::full;
