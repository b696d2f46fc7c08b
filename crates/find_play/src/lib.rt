//! What a test of interleavings is: the programs of its threads, what it claims, and within which bounds it is searched. How one is read from
//! text; what its threads do along a history, and whether its claims hold of that.
#![tactic(auto)]

mod cast;
mod claim;
mod claims_hold;
mod draft;
mod fault;
mod kind;
mod laws;
mod line;
mod made;
mod names;
mod read;
mod rows;
mod slot;
mod statement;
mod test;
mod thread;
mod verdict;
mod wanted;
mod words;

pub use cast::{Cast, played};
pub use claim::Claim;
pub use claims_hold::{broken, places_of};
pub use fault::{TestFault, TestWhy};
pub use kind::LineKind;
pub use laws::{bytes_are_a_test_or_refused, lines_are_of_their_words, tests_are_read_once};
pub use names::Names;
pub use read::{read_test, test_of};
pub use slot::{Slot, Value};
pub use statement::Statement;
pub use test::{Bounds, Place, Program, Test};
pub use thread::{Move, Next, Part, Thread};
pub use verdict::{Verdict, verdict_on};
pub use wanted::Wanted;
