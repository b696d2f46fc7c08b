//! The pauses of marking over an image: its beginning, the closing of the marks, and its end. Freeing a region.
#![tactic(auto)]

mod begin;
mod clear;
mod close;
mod colour;
mod dead;
mod end;
mod look;
mod trace;

pub use begin::{init_mark, init_mark_by_part};
pub use close::close_marks;
pub use dead::free_region;
pub use end::final_mark;
pub use look::{is_black, next_black};
pub use unit_part::ScanUnit;
