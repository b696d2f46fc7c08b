//! The machines of a heap in memory: mutator threads, helpers and the control as one type, and what the core says of any
//! machine. The heap on one thread and the heap that threads share stand on it, and tell no role from another.
//!
//! Opens a heap again that has come to rest: of its words those of another heap are made, in which nothing has happened yet and which goes on
//! with the same graph, the same names and the same pins.
#![tactic(auto)]

mod from_image;
mod machine;
mod opening;
mod refusal;
mod reopening;
pub mod reopening_laws;
mod stepped;

// Who makes machines of its own needs it, and names no crate below for it.
pub use control::Control;
pub use from_image::{machines_from, words_from};
pub use machine::Machine;
pub use opening::open_machines;
pub use reopening::reopen_words;
pub use stepped::Stepped;
