//! The heap as a library for C: what C holds of a heap is a handle for each seat, and each function here is a call on one of them.
//! Nothing here waits, starts a thread or takes a lock.
#![tactic(auto)]

mod asked;
mod border;
mod closing;
mod handle;
mod mutators;
mod opening;
mod parts;
mod renewing;
mod workers;

pub use border::{Configuration, Told, Value};
pub use handle::Handle;
