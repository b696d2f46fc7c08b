//! All words of a heap in a pause: the image that a pause works on while no machine of the heap makes a step. And what a pause makes of
//! these words, by their names, of the buffers of seats, and in a full collection of all: that they represent the same graph afterwards,
//! and who waits is answered.
//!
//! Whether the words of an image stand for a graph, told by looking at all of them: the check that collectors call a heap
//! verifier. It is for images that are built word by word, in tests and measurements of collections.
#![tactic(auto)]

pub mod buffer_laws;
mod buffers;
pub mod buffers_kept;
mod check;
mod found;
pub mod full_laws;
mod image;
pub mod image_laws;
mod kept;
mod leftovers;
mod objects;
mod pack;
mod rest;
mod serve;
mod sets;

pub use check::stands;
pub use image::Image;
pub use leftovers::Leftover;
pub use sets::with_if;
