//! How much of the image a pause loads and stores.

ghost use Rattle.std.specs.Prelude.{◌≡◌, ◌+◌, ◌<◌, ◌&&◌, nat_le, nat_lt, if◌then◌else◌};
ghost use Rattle.heap_words.specs.Words.{heap_size};
ghost use Rattle.heap_world.specs.Change.{image_words};
ghost use Rattle.collector_rows.specs.Extent as extents;

use heap_words::Config;
use heap_words::phase::{EVACUATION, IDLE, MARKING};

// The most words of a region in a heap that is not wide.
const NARROW_WORDS: usize = 1024;

// Where in the image the words of the copiers and of what is asked for stand, counted from 0.
const EVAC_INDEX: usize = 3;

const ASK_INDEX: usize = 5;

// The bit of what is asked for that says that a mutator waits for room.
const ROOM: u32 = 1;

// The bit of the word of the copiers that says that one of them found no room.
const OUT_OF_ROOM: u32 = 63;

/// How much of the image a pause loads and stores. It stores besides the headers of free words that only fill from then on.
#[derive(Clone, Copy)]
pub enum Extent {
    /// All of it.
    Whole,
    /// All but the words of the heap: where marking begins in a wide heap, and no room is needed.
    OffHeap,
    /// The words before those of the mutators: where the updating of references begins or ends in a wide heap, and no room is
    /// needed.
    Ahead,
}

/// How many words the image has.
pub fn image_words(config: Config) -> usize
    ensures { result ≡ image_words config }
{
    config.table_words() - config.image_start()
}

// Where in the image the words of the mutators begin.
fn roots_index(config: Config) -> usize
    ensures { result ≡ extents.roots_index config }
{
    config.roots_start() - config.image_start()
}

// Where in the image the words of the heap begin.
fn heap_index(config: Config) -> usize
    ensures { result ≡ extents.heap_index config }
{
    config.heap_start() - config.image_start()
}

/// The extent with which a pause begins, by the phase before it.
pub(crate) fn first_extent(config: Config, phase: u64) -> Extent
    ensures { result ≡ extents.first_extent config phase }
{
    if config.region_words() <= NARROW_WORDS {
        return Extent::Whole;
    }
    match phase {
        IDLE => Extent::OffHeap,
        MARKING => Extent::Whole,
        _ => Extent::Ahead,
    }
}

// Whether a word of the image says that room is needed, by its index.
fn says_room(phase: u64, index: usize, word: u64) -> bool
    ensures { result ≡ extents.says_room phase index word }
{
    match index {
        EVAC_INDEX => phase == EVACUATION && word >= 1 << OUT_OF_ROOM,
        ASK_INDEX => word >> ROOM & 1 == 1,
        _ => false,
    }
}

impl Extent {
    /// The extent once a word of the image was loaded: where that says that room is needed it is all of the image.
    pub fn after(self, phase: u64, index: usize, word: u64) -> Extent
        ensures { result ≡ extents.extent_after phase index self word }
    {
        if says_room(phase, index, word) {
            Extent::Whole
        } else {
            self
        }
    }

    /// The index of the next word of the extent behind an index of the image; behind the last one that of the image's end.
    pub fn next(self, config: Config, index: usize) -> usize
        requires { index < image_words config }
        ensures { result ≡ extents.next_loaded config self index }
    {
        let next = index + 1;
        match self {
            Extent::Whole => next,
            Extent::OffHeap => behind_heap(config, next),
            Extent::Ahead => before_roots(config, next),
        }
    }
}

// An index of the image, or where the heap ends, if it lies in the heap.
fn behind_heap(config: Config, index: usize) -> usize
    ensures { result ≡ (if nat_le (extents.heap_index config) index && nat_lt index (extents.heap_index config + heap_size config) then extents.heap_index config + heap_size config else index) }
{
    let start = heap_index(config);
    let end = start + config.heap_size();
    if start <= index && index < end {
        end
    } else {
        index
    }
}

// An index of the image, or the image's end, if it does not lie before the words of the mutators.
fn before_roots(config: Config, index: usize) -> usize
    ensures { result ≡ (if nat_lt index (extents.roots_index config) then index else image_words config) }
{
    if index < roots_index(config) {
        index
    } else {
        image_words(config)
    }
}
