//! Places the objects of a graph's text in a heap that nothing has happened in yet, as they are named or named anew. A run can begin from
//! there.
//!
//! `place` puts them in the order of their names, one behind the other, in regions 0 upward, each within one region. `renew` names them
//! anew before, as if each thread had only made the objects that are left of it: each name keeps its thread and its place in the order,
//! and those of a thread are counted from 1.
#![tactic(auto)]

mod addresses;
mod counts;
mod free;
mod names;
mod objects;
mod pins;
mod placing;
pub mod placing_laws;
pub mod renewal_laws;
mod renewing;
mod roots;
mod rows;

pub use placing::{Placed, place};
pub use renewing::{Renewed, renew};
