//! How a trace is spelled, its lines and the laws about them; and reading one from bytes, or saying why a line is refused. To refuse takes no
//! memory, and each byte is looked at a few times at most.
#![tactic(auto)]

mod body;
mod fault;
mod head;
mod items;
mod kind;
mod kind_scan;
mod laws;
mod line;
mod numbers;
mod parts;
mod read;
mod refusal_laws;
mod refused_items;
mod scan;
mod schedule_lines;
mod source_bytes;
mod trace;
mod why;

pub use body::{body_refusal, text_cause};
pub use fault::TraceFault;
pub use head::{Refusal, head_refusal, line_at};
pub use kind::{CommandKind, kinds_of};
pub use kind_scan::kind_at;
pub use laws::traces_are_read_once;
pub use line::command_at;
pub use numbers::{is_number, number_cause};
pub use parts::{cut, next_word};
pub use read::{head_at, read_trace, trace_behind, trace_of};
pub use refusal_laws::bytes_are_read_or_refused;
pub use scan::{
    digits_at, is_numeral, number_at, number_in, numbers_at, positive_at, text_at, value_of,
};
pub use source_bytes::all_bytes;
pub use trace::{Scripts, Trace};
pub use why::Why;
