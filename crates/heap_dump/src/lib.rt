//! Heap dumps: a heap written down as a graph of objects, as text, with the sizes of its heap; read again, with the commands and the schedule
//! that are to run from it; and placed in a new heap from which a run goes on.
//!
//! `Dump::of` makes the dump of a graph, `dump_of` that to which a history leads, and `write_dump` writes it. `read_dump` reads a dump, the
//! line `trace`, and the lines that are to run from it: what `write_dump` wrote is read as the same dump (`written_dumps_are_read`), and
//! bytes within the limit are a dump in this sense or are refused at one line for one cause (`bytes_are_a_dump_or_refused`). `place` makes
//! the heap of a dump, which `Plain::open_from` takes with its counts: the objects lie in the order of names, one behind the other, in regions
//! 0 upward, each within one region. `resume` runs a schedule in that heap, and what comes of it is the answer to a dump that was read.
#![tactic(auto)]

mod answers;
mod counts;
mod dump;
mod fields;
mod goes_on;
mod head;
mod line;
mod making;
mod making_laws;
mod names;
mod placing;
mod reached;
mod read;
mod reading_laws;
mod roots;
mod whole;
mod words;
mod write;
mod writing_laws;

pub use answers::answer_from;
pub use counts::Counts;
pub use dump::Dump;
pub use goes_on::{Continued, resume};
pub use graph_placing::Placed;
pub use making::dump_of;
pub use making_laws::graphs_of_histories_have_a_dump;
pub use names::is_before;
pub use placing::place;
pub use reached::rows_reached;
pub use read::{Resumed, read_dump};
pub use reading_laws::{
    bytes_are_a_dump_or_refused, dumps_are_read_once, dumps_are_refused_once,
    written_dumps_are_read,
};
pub use shen_base::WriteFault;
pub use write::write_dump;
pub use writing_laws::{dumps_show_their_graph, graphs_have_one_dump};
