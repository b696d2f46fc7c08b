ghost use Rattle.std.specs.Prelude.{◌≡◌, ◌+◌, ◌^◌, ◌<◌, ◌≤◌, ℕ, length, slice_index};
ghost use Rattle.heap_words.specs.Encoding.{refs_in, object_words};
ghost use Rattle.regions.specs.Slide.{placed_word, IsSlidTo, IsOneHeap};
ghost use Rattle.regions.specs.Table.{word_of, kept_of, IsMarkedHeap, IsPlacing, IsInTable, AreInTable, IsMovedTo, from_table};

use heap_words::{refs_of, words_of};

/// The new word of a reference, by the table of new places, which has an entry for each address from `first` on. Null, 0,
/// stays null.
pub fn renew(first: u64, places: &[u64], word: u64) -> u64
    requires { IsInTable first places.now word }
    ensures { result ≡ from_table first places.now word }
{
    if word == 0 {
        0
    } else {
        places[(word - first) as usize]
    }
}

// What the word at an index of an object with so many references becomes.
fn placed_word(first: u64, places: &[u64], refs: usize, index: usize, word: u64) -> u64
    requires few { refs < 256 }
    requires table { 3 ≤ index → index < 3 + refs → IsInTable first places.now word }
    ensures { result ≡ placed_word (from_table first places.now) refs index word }
{
    if index == 0 {
        1
    } else if 3 <= index && index < 3 + refs {
        renew(first, places, word)
    } else {
        word
    }
}

// Moves an object down, word by word, from its lowest word on.
fn slide_object(first: u64, places: &[u64], from: usize, to: usize, heap: &mut [u64])
    requires down { to ≤ from }
    requires inside { from + object_words (slice_index heap.old (from + 1)) ≤ length heap.old }
    requires small { length heap.old ≤ 2 ^ 32 }
    requires table { (field : ℕ) → field < refs_in (slice_index heap.old (from + 1))
        → IsInTable first places.now (slice_index heap.old (from + (3 + field))) }
    ensures { IsMovedTo (from_table first places.now) from to heap.old heap.new }
{
    let shape = heap[from + 1];
    let refs = refs_of(shape) as usize;
    let words = words_of(shape) as usize;
    for index in 0..words {
        heap[to + index] = placed_word(first, places, refs, index, heap[from + index]);
    }
}

/// Moves each marked object down to its new place, in the order of addresses, and renews its references by the table of
/// new places. `heap`, `marks` and `places` have an entry for each address from `region_words` on. No other word is written.
pub fn slide(region_words: u64, places: &[u64], marks: &[bool], heap: &mut [u64])
    requires marked { IsMarkedHeap region_words heap.old marks.now }
    requires table { length places.now ≡ length heap.old }
    requires places { IsPlacing region_words (kept_of region_words heap.old marks.now) places.now }
    requires closed { AreInTable region_words (kept_of region_words heap.old marks.now) (word_of region_words heap.old) places.now }
    ensures { IsSlidTo (region_words + length heap.old) region_words (word_of region_words places.now) (kept_of region_words heap.old marks.now) (from_table region_words places.now)
        (word_of region_words heap.old) (word_of region_words heap.new) }
{
    for (index, marked) in marks.iter().enumerate() {
        if *marked {
            let to = (places[index] - region_words) as usize;
            slide_object(region_words, places, index, to, heap);
        }
    }
}

/// A law: sliding has exactly one result.
pub fn slides_to_one_heap()
    ensures { IsOneHeap }
{}
