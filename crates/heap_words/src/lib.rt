//! The words of the heap's table: where each one stands, how numbers are written into it, what an
//! access makes of it, and the names of the places at which a machine can stand.
//!
//! Runs of machines over words: an event is one access of one word by one machine. The laws here hold of every kind of
//! machine, whatever its words mean.
#![tactic(auto)]

mod access;
mod config;
mod encoding;
mod name;
pub mod phase;
mod place;
pub mod run_laws;
mod schedule;
mod table;
mod words;

pub use access::{Access, Took, Unit};
pub use config::{BadConfig, Config};
pub use encoding::{
    buffer, count_of, end_of, filler, filler_words, forwarded, forwardee, header_to, name_word,
    next_of, nums_of, readers_undo, refs_of, request_count, request_shape, request_word, shape_of,
    thread_of, words_of,
};
pub use name::{WordName, words_named};
pub use place::Place;
pub use schedule::{Item, NoMemory, Schedule};
pub use table::make_access;
pub use words::{heap_in, pins_in, roots_in, words_apart};
