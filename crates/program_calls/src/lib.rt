//! The calls that the programs are. `shenrun` runs a trace; `shennote` notes a trace with the schedule of its own run, `shensteps` lists the
//! events of one, and `shenfind` looks for the schedule that breaks a test. Words and a text come in, a text and what is told of it go out.
#![tactic(auto)]

mod find_status;
mod finding;
mod list;
mod list_status;
mod named;
mod note;
mod noting;
mod report;
mod running;
mod turns;
mod words;

pub use finding::shenfind;
pub use list::shensteps;
pub use noting::shennote;
pub use running::shenrun;
