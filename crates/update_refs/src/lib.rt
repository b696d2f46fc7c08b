//! The pauses that begin and end the updating of references, over an image.
#![tactic(auto)]

mod begin;
mod end;

pub use begin::init_update;
pub use end::{end_updating, final_update, free_set};
pub use unit_part::UpdateUnit;
