//! The queue of Michael and Scott ("Simple, Fast, and Practical Non-Blocking and Blocking Concurrent Queue Algorithms",
//! PODC 1996) as a container of the managed heap: it is written in the commands of the graph alone. The collector is what
//! makes its nodes safe to use again, so there is no hazard pointer and no counter.
//!
//! An anchor (two references, the head and the tail) stands in field 0 of the hub and in root 1 of each user. A node has
//! one reference (the next node) and one number. `specs/Spots` has the commands, `specs/Queue` what a queue is.
#![tactic(auto)]

pub mod laws;
mod operation;
mod spot;
mod user;

pub use operation::{Choice, Course, Put, QueueReply, Take};
pub use spot::Spot;
pub use user::{Gotten, Plan, User};
