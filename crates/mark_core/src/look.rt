//! Looks up the mark bits of addresses.

ghost use Rattle.std.specs.Prelude.{ℕ, ◌≡◌, ◌+◌, ◌*◌, ◌<◌, ◌≤◌, slice_index, true, false};
ghost use Rattle.heap_words.specs.Words.{Heap, IsWord, bit_words, table_words};
ghost use Rattle.regions.specs.Marks.{mark_at};
ghost use Rattle.image_graph.specs.State.{config_of, words_of, memory_of};
ghost use Rattle.cycle_words.specs.Marking.Marks as marks;

use image_graph::Image;
use regions::{is_marked_in, mark_word};

/// Whether an address is black: what begins there is marked.
pub fn is_black(image: &Image, address: u64) -> bool
    requires { IsWord (config_of image.now) (Heap address) }
    ensures { result ≡ marks.is_black (config_of image.now) (memory_of image.now) address }
{
    let config = image.config();
    let word = image.word(config.black_at(mark_word(config, address)));
    is_marked_in(config, address, word)
}

// The first address from one on and below another whose bit is set in a row of words of marks that begins at an index of the
// table, and that other address where none is. Where no bit of a word is set, its 64 addresses are passed over at once.
fn next_marked(image: &Image, row: usize, from: u64, end: u64) -> u64
    requires row { row + bit_words (config_of image.now) ≤ table_words (config_of image.now) }
    requires above { (config_of image.now).region_words ≤ from }
    requires before { from ≤ end }
    requires inside { end ≤ ((config_of image.now).regions + 1) * (config_of image.now).region_words }
    ensures from { from ≤ result }
    ensures end { result ≤ end }
    ensures none { (address : ℕ) → from ≤ address → address < result → mark_at (config_of image.now) (λ index. slice_index (words_of image.now) (row + index)) address ≡ 0 }
    ensures marked { result < end → mark_at (config_of image.now) (λ index. slice_index (words_of image.now) (row + index)) result ≡ 1 }
{
    let config = image.config();
    let first = config.region_words() as u64;
    let mut at = from;
    while at < end {
        let place = (at - first) % 64;
        let bits = image.word(row + mark_word(config, at)) >> place;
        if bits != 0 {
            return end.min(at + bits.trailing_zeros() as u64);
        }
        at += 64 - place;
    }
    end
}

/// The first grey address from one on and below another, and that other one where none is grey.
pub(crate) fn next_grey(image: &Image, from: u64, end: u64) -> u64
    requires above { (config_of image.now).region_words ≤ from }
    requires before { from ≤ end }
    requires inside { end ≤ ((config_of image.now).regions + 1) * (config_of image.now).region_words }
    ensures from { from ≤ result }
    ensures end { result ≤ end }
    ensures none { (address : ℕ) → from ≤ address → address < result → marks.is_grey (config_of image.now) (memory_of image.now) address ≡ false }
    ensures grey { result < end → marks.is_grey (config_of image.now) (memory_of image.now) result ≡ true }
{
    next_marked(image, image.config().grey_at(0), from, end)
}

/// The first black address from one on and below another, so where the next marked object begins, as Shenandoah's mark bitmap gives it;
/// where none is black, that other address. It may be the end of the heap's addresses. Takes time linear in the words of marks between them.
pub fn next_black(image: &Image, from: u64, end: u64) -> u64
    requires above { (config_of image.now).region_words ≤ from }
    requires before { from ≤ end }
    requires inside { end ≤ ((config_of image.now).regions + 1) * (config_of image.now).region_words }
    ensures from { from ≤ result }
    ensures end { result ≤ end }
    ensures none { (address : ℕ) → from ≤ address → address < result → marks.is_black (config_of image.now) (memory_of image.now) address ≡ false }
    ensures black { result < end → marks.is_black (config_of image.now) (memory_of image.now) result ≡ true }
{
    next_marked(image, image.config().black_at(0), from, end)
}
