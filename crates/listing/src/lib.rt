//! What the events of a heap look like: words by their names, values as they are read, copies by their places, pauses as
//! one line, runs of like events, and all of that as text and as JSON. It is handed the events and steps no machine.
#![tactic(auto)]

mod called;
mod commands;
mod copies;
mod event;
mod fold;
mod json;
mod line;
mod pauses;
mod pieces;
mod row;
mod stall;
mod table;
mod terms;
mod view;

pub use commands::put_command;
pub use event::Event;
pub use fold::Folds;
pub use json::{
    json_access, json_field_lists, json_flag, json_key, json_number, json_object_at, json_pause,
    json_place_of, json_reference, json_regions, json_text, json_value,
};
pub use line::NUMBER;
pub use pauses::{Cause, Pauses, Told, put_pause};
pub use pieces::{Kind, Piece, piece_at, region_of_buffer, shared_region, used};
pub use row::Row;
pub use stall::Stall;
pub use table::{Room, Table};
pub use terms::{
    Within, look_within, put_access, put_item, put_machine, put_name, put_place, put_reference,
    put_regions, put_reply, put_value,
};
pub use view::{Reading, base, heap_word, name_at, top};
