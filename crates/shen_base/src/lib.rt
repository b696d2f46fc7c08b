//! Bytes in and bytes out, with faults that are counted, and text on its way out: what a program reads from and writes to,
//! the standard library's readers and writers behind it, and sources and sinks in memory for tests.
//!
//! A block of bytes collects what is put and goes to the sink as a whole, so that the system
//! sees blocks and not bytes. Nothing here takes memory.
#![tactic(auto)]

mod adapter;
mod block;
mod count;
mod memory;
mod number;
mod send;
mod sink;
mod source;

pub use adapter::{InSource, OutSink};
pub use block::Block;
pub use memory::{MemorySink, MemorySource, PlainSource};
pub use send::{WriteFault, write_all};
pub use sink::Sink;
pub use source::Source;

/// A read or a write did not take place, and the object that was asked counted a fault.
#[derive(Clone, Copy, PartialEq, Eq)]
pub enum Failed {
    Failed,
}

/// The allocator refused a request for memory.
#[derive(Clone, Copy, Debug)]
pub struct NoMemory;
