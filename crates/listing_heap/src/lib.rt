//! The heap and the object graph as a listing shows them: as lines, as what has changed, and as objects of JSON.
#![tactic(auto)]

mod changes;
mod graph;
mod heap;
mod heap_objects;

pub use changes::Change;
pub use graph::{json_graph, put_graph};
pub use heap::put_heap;
pub use heap_objects::json_heap;
