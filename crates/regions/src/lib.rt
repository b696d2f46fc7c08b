//! The regions of the heap (those of Shenandoah, JEP 189), and packing over them: where each one lies, sets of them such as the collection
//! set, how much room they have left above their tops, the walk from object to object in one, and where a full collection moves objects.
//!
//! Packing goes in the order of addresses: where the objects go that a sliding full collection keeps, how full each region is
//! then, and which requests for words find room above the tops; and sliding, which moves the objects down to these places.
//!
//! The places are numbers alone, with laws, each a theorem and no code. Sliding is over slices: a table with one word for each
//! heap word says where each object goes, so that no header of the heap has to hold that and no word that no object covers is
//! written. `assign` fills the table and the tops, `follow` gives each old copy the place of its current copy, and `slide` moves
//! the words and renews the references. Each is one sweep over the addresses and takes no memory. The idea of sliding
//! compaction is that of the LISP 2 collector; what is different here is that references are renewed while an object
//! moves, so that words left behind show no renewed reference. `compact_marked` is all three in turn.
//!
//! And where the mark of an object stands: which bit of the words of grey bits, and of black ones, its address has.
#![tactic(auto)]

mod compact;
mod copies;
mod mark_bits;
mod moves;
pub mod packing_laws;
mod place;
mod places;
mod rooms;
mod sets;
mod walk;

pub use compact::compact_marked;
pub use copies::follow;
pub use mark_bits::{
    black_access, grey_access, is_marked_in, lowest_address, mark_mask, mark_word, mark_words,
    marks_are_apart,
};
pub use moves::{renew, slide, slides_to_one_heap};
pub use place::{base, region_of, regions_tile};
pub use places::{assign, is_shut, place_around, place_behind};
pub use rooms::{first_with_room, room};
pub use sets::{all_but, is_in, lowest, size};
pub use walk::{next_object, walks_meet_each};
