//! The heap on one thread: words and machines in memory, and any schedule of their atomic steps. A schedule is run, or walked event by event:
//! then it is told whose turn it is, and what that machine's step was, as memory saw it. The events of a walk are those that a run makes.
//!
//! Renews a heap on one thread that rests: its graph is read, its objects are named anew, and a heap begins from them in which each thread has
//! only made the objects that are left of it. So a program that goes on for long does not run out of names.
#![tactic(auto)]

mod plain;
mod renewing;
mod run;
mod seen;
mod walk;

pub use heap_machines::Stepped;
pub use plain::Plain;
pub use renewing::{Renewal, renew_heap};
pub use run::Ran;
pub use seen::{Seen, turn_seen};
pub use walk::Walk;
