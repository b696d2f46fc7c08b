//! Ending a cycle in one pause, over an image: what is left of the collection set is copied out, all references are updated,
//! the set is freed, and who waits is served. It hands on the other calls of a cycle that stand below it: choosing the set, and beginning
//! and ending the updating of references.
#![tactic(auto)]

mod copies;
mod cycle;
mod fields;
mod update;

pub use cset_choice::{begin_evac, choose};
pub use cycle::{Finished, finish};
pub use update::update_all;
pub use update_refs::{final_update, init_update};
