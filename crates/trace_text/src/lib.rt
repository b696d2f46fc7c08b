//! Traces as text: answers, the line that stands where there is none, and traces are written; a trace is read together with an answer and a
//! history that somebody claims for it, or by its lines behind its head, one after the other. What a trace is, and how one is read or refused,
//! it hands on from the crate that does so.
#![tactic(auto)]

mod answer;
mod body;
mod entries;
mod history;
mod line_cuts;
mod line_laws;
mod lines;
mod message;
mod pair;
mod pair_laws;
mod replies;
mod trace;

pub use answer::{Answer, put_objects, put_roots, write_answer};
pub use body::Body;
pub use churn::Summary;
pub use history::write_history;
pub use line_laws::lines_taken_are_read;
pub use lines::{LineFault, TraceLines};
pub use message::{Line, write_line};
pub use pair::{Pair, read_pair};
pub use pair_laws::{histories_can_be_read, pairs_are_read_once, pairs_are_read_or_refused};
pub use shen_base::WriteFault;
pub use trace::{put_title, read_traces_can_be_written, write_trace};
pub use trace_reading::{
    CommandKind, Scripts, Trace, TraceFault, Why, bytes_are_read_or_refused, read_trace,
    traces_are_read_once,
};
