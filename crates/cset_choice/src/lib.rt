//! The collection set, over an image: how much of a region lives, the choice of the regions to evacuate, copying an object
//! out of them, and the beginning of evacuation.
#![tactic(auto)]

mod begin;
mod choice;
mod copy;
mod live;

pub use begin::{begin_evac, is_collected};
pub use choice::choose;
pub use copy::copy_out;
pub use live::live_words;
