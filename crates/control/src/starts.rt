//! Where in the image the free words of buffers begin. A pause that leaves out the words of the heap writes no others of them.

ghost use Rattle.std.specs.Prelude.{ℕ, ◌≡◌, ◌≢◌, ◌<◌, if◌then◌else◌, slice_index};
ghost use Rattle.image_graph.specs.SeatBuffers.{IsInside, AreInside};
ghost use Rattle.heap_world.specs.Walk.{has};
ghost use Rattle.heap_world.specs.Change.{image_words};
ghost use Rattle.image_graph.specs.State.{config_of, memory_of};
ghost use Rattle.collector_rows.specs.Extent as extents;
ghost use Rattle.collector_rows.specs.Extent.{next_stored};
ghost use Rattle.control.specs.Clear.{IsClear};
ghost use Rattle.control.specs.Image.{image_in, image_shown};
ghost use Rattle.control.specs.Starts as starts;
ghost use Rattle.control.specs.Starts.{AreStarts, IsHeapIndex, AreHeapIndices};

use crate::pause::put_word;
use collector_rows::Extent;
use heap_words::{Config, end_of, next_of};
use image_graph::Image;

// Where in the image the words of the heap begin.
fn heap_index(config: Config) -> usize
    ensures { result ≡ extents.heap_index config }
{
    config.heap_start() - config.image_start()
}

// Where in the image the free words of a buffer begin, by its word; where it has none, where the words of the heap begin.
fn start_of(config: Config, word: u64) -> usize
    requires { word ≢ 0 → IsInside config word }
    ensures value { result ≡ starts.start_index config word }
    ensures heap { IsHeapIndex config result }
{
    let next = next_of(word);
    let end = end_of(word);
    if next < end {
        config.heap_at(next) - config.image_start()
    } else {
        heap_index(config)
    }
}

/// Where those of each seat begin, where no seat has a buffer.
pub(crate) fn no_starts(config: Config) -> [usize; 12]
    ensures { AreHeapIndices config result }
{
    [heap_index(config); 12]
}

/// Where those of each seat begin, in the order of seats.
pub(crate) fn starts_in(image: &Image) -> [usize; 12]
    requires { AreInside (config_of image.now) (memory_of image.now) }
    ensures are { AreStarts (config_of image.now) (memory_of image.now) result }
    ensures heap { AreHeapIndices (config_of image.now) result }
{
    let config = image.config();
    let mut starts = no_starts(config);
    for seat in 0..config.seats() {
        starts[seat] = start_of(config, image.word(config.cur_at(seat)));
    }
    starts
}

/// Makes the words there 0.
pub(crate) fn clear_starts(image: &mut Image, starts: &[usize])
    requires heap { AreHeapIndices (config_of image.old) starts.now }
    requires clear { IsClear image.old }
    ensures config { config_of image.new ≡ config_of image.old }
    ensures image { (index : ℕ) → slice_index (image_in image.new) index ≡ (if has starts.now index then 0 else slice_index (image_in image.old) index) }
    ensures clear { IsClear image.new }
{
    for number in 0..starts.len() {
        put_word(image, starts[number], 0);
    }
}

// The lesser of two indices of the image, where the one lies behind an index and its word is not 0; else the other.
fn lesser(image: &Image, index: usize, next: usize, start: usize) -> usize
    requires { start < image_words (config_of image.now) }
    ensures start { index < start → start < next → slice_index (image_in image.now) start ≢ 0 → result ≡ start }
    ensures next { (index < start → start < next → slice_index (image_in image.now) start ≡ 0) → result ≡ next }
{
    if start <= index || next <= start {
        return next;
    }
    if image.word(image.config().image_start() + start) == 0 {
        next
    } else {
        start
    }
}

/// The index of the word of the new image that is stored behind another one.
pub(crate) fn next_stored(image: &Image, starts: &[usize], index: usize, extent: Extent) -> usize
    requires heap { AreHeapIndices (config_of image.now) starts.now }
    requires index { index < image_words (config_of image.now) }
    ensures { result ≡ next_stored (config_of image.now) extent (image_shown (config_of image.now) extent starts.now (image_in image.now)) index }
{
    let mut next = extent.next(image.config(), index);
    for number in 0..starts.len() {
        next = lesser(image, index, next, starts[number]);
    }
    next
}
