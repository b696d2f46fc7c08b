//! What it means that the words of a heap stand for a graph: pieces of regions, the facts that all machines share, what
//! machines rely on, and the moves that several of their steps make; and that graph itself, by the current copies of its objects.
#![tactic(auto)]

pub mod graph_laws;
pub mod region_laws;
mod rows;
mod walk;
mod write;

pub use walk::{forget, take_down};
pub use write::write_graph;
