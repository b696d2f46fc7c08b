//! The judge of histories: whether entries that somebody claims are a history of a trace that a heap may have, and whether a
//! body of text answers for it.
#![tactic(auto)]

mod checking;
mod crowd;
mod judge;
mod kept;
mod laws;
mod verdict;

pub use checking::check;
pub use laws::{one_verdict, read_traces_can_be_judged};
pub use verdict::Verdict;
