//! The listing, from its head to where each machine stands at its end: a line an event, in columns, under headings for the parts of the
//! schedule, or an object of JSON for each; the replies so far; and whether the schedule goes on. And what the words of the command line
//! ask a listing for: which events are listed, and how.
#![tactic(auto)]

mod columns;
mod course;
mod ending;
mod event_lines;
mod filter;
mod hands;
mod headings;
mod heaps;
mod json_lines;
mod pause_lines;
mod pen;
mod said;
mod scout;
mod standing;
mod tally;
mod text_lines;
mod words;
mod words_now;

pub use course::Listing;
pub use filter::{Filter, Needle, Stranger};
pub use scout::{event_of, is_stalled, item_at_work, limit_of};
pub use standing::{
    json_command, json_end, json_reply, json_seat, json_stuck, machine_of, put_end, put_stuck,
    write_head,
};
pub use words::{Asked, FORM, PauseForm, Refusal, Wanted, asked_by};
