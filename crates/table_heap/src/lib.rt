//! The heap that threads share: its words lie in a table of atomic words, and each thread makes the steps of the machines of
//! its own bundle. A step is one access of the table, and one event of the heap's machines.
//!
//! Hints for marking, in a work-stealing deque of one thread's own: the addresses that its machines have made grey. The thread takes the
//! latest first; other threads steal the oldest. A hint is only a hint: each may be lost, and whoever takes one looks at the address's
//! marks before anything else. What is known of a hint is that it is an address of the heap.
#![tactic(auto)]

mod bundle;
mod closed;
mod drive;
mod gate;
mod gathered;
mod heap;
mod hints;
mod key;
mod laws;
mod left;
mod machines;
mod parking;
mod rule;
mod run;
mod sharing;

pub use bundle::Bundle;
pub use closed::Closed;
pub use gate::{Gate, OpenGate};
pub use gathered::Gathered;
pub use heap::Heap;
pub use heap_machines::Stepped;
pub use hints::{Hints, Thief};
pub use key::HeapKey;
pub use laws::steps_are_events;
pub use left::Left;
pub use machines::{Acting, OfHeaps};
