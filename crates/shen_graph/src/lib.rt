//! The graph that a heap stands for: names, commands and replies, scripts and what they were answered, the plain graph
//! that a heap is judged by, and the rows of a graph that is to be written.
//!
//! The definitions that the whole project is believed by stand in `specs/`: the graph and the step of each command
//! (`Graph`, `Step`), histories (`History`), reachability (`Reach`) and crowding (`Crowd`).
#![tactic(auto)]

use std::alloc::{AllocError, AllocFailed};

mod command;
mod driver;
mod found;
mod graph_text;
mod history;
mod name;
mod object;
mod order;
mod pin;
mod plain_graph;
mod roots;
mod script;
mod work;

pub use command::{Command, Reply};
pub use driver::Driver;
pub use graph_text::GraphText;
pub use history::{Entry, History};
pub use name::Name;
pub use order::Order;
pub use pin::Pinned;
pub use plain_graph::PlainGraph;
pub use script::Script;
pub use work::{Replies, Work};

/// Memory was refused. Nothing was changed.
#[derive(Clone, Copy, Debug)]
pub struct NoMemory;

impl From<AllocError> for NoMemory {
    fn from(_: AllocError) -> NoMemory {
        NoMemory
    }
}

impl<T: Drop> From<AllocFailed<T>> for NoMemory {
    fn from(_: AllocFailed<T>) -> NoMemory {
        NoMemory
    }
}
