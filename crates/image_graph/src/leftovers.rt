//! What is left over in regions where objects stay: it becomes words that only fill.

ghost use Rattle.std.specs.Prelude.{◌≡◌, ◌+◌, ◌<◌, ◌==◌, ◌&&◌, false};
ghost use Rattle.heap_words.specs.Words.{Heap, IsWord, write};
ghost use Rattle.heap_words.specs.Encoding.{filler_header, object_words};
ghost use Rattle.regions.specs.Walk.{is_filler, stride_at};
ghost use Rattle.image_graph.specs.Pinned.{CanFill, filled_in, is_filled_from};
ghost use Rattle.image_graph.specs.State.{config_of, memory_of, found_of, marks_of, places_of, AreFound};
ghost use Rattle.image_graph.specs.Leftovers.{is_left_over};

use crate::image::Image;
use heap_words::{filler, filler_words, forwarded, words_of};
use regions::{base, next_object};

// Whether a header is that of words that only fill.
fn is_filler(header: u64) -> bool
    ensures { result ≡ is_filler header }
{
    header % 4 == 2
}

/// Which objects are left over.
#[derive(Clone, Copy)]
pub enum Leftover {
    /// Those that have moved.
    Moved,
    /// Those that were not found.
    NotFound,
}

impl Image {
    /// The header of an object, or of words that only fill, and the shape word if it is an object's; 0 where it is not, for the
    /// words that only fill may end before it.
    pub fn header_and_shape(&self, object: u64) -> (u64, u64)
        requires header { IsWord (config_of self.now) (Heap object) }
        requires shape { is_filler (memory_of self.now (Heap object)) ≡ false → IsWord (config_of self.now) (Heap (object + 1)) }
        ensures header { result.0 ≡ memory_of self.now (Heap object) }
        ensures shape { is_filler (memory_of self.now (Heap object)) ≡ false → result.1 ≡ memory_of self.now (Heap (object + 1)) }
    {
        let header = self.word(self.config.heap_at(object));
        if filler_words(header).is_some() {
            return (header, 0);
        }
        (header, self.word(self.config.heap_at(object + 1)))
    }

    /// Whether an object, or words that only fill, end at an address.
    pub fn ends_at(&self, object: u64, address: u64) -> bool
        requires header { IsWord (config_of self.now) (Heap object) }
        requires shape { is_filler (memory_of self.now (Heap object)) ≡ false → IsWord (config_of self.now) (Heap (object + 1)) }
        ensures { result ≡ (object + stride_at (λ any_address. memory_of self.now (Heap any_address)) object == address) }
    {
        let (header, shape) = self.header_and_shape(object);
        next_object(object, header, shape) == address
    }

    // Whether the object at an address is left over. Words that only fill are none.
    fn is_left_over(&self, left: Leftover, address: u64) -> bool
        requires inside { IsWord (config_of self.now) (Heap address) }
        requires found { left ≡ Leftover.NotFound → AreFound self.now }
        ensures { result ≡ is_left_over (memory_of self.now) (found_of self.now) left address }
    {
        let header = self.word(self.config.heap_at(address));
        match left {
            Leftover::Moved => forwarded(header),
            Leftover::NotFound => !is_filler(header) && !self.is_found(address),
        }
    }

    // Makes the words of an object words that only fill.
    fn fill_object(&mut self, address: u64)
        requires header { IsWord (config_of self.old) (Heap address) }
        requires shape { IsWord (config_of self.old) (Heap (address + 1)) }
        ensures config { config_of self.new ≡ config_of self.old }
        ensures places { places_of self.new ≡ places_of self.old }
        ensures found { found_of self.new ≡ found_of self.old }
        ensures marks { marks_of self.new ≡ marks_of self.old }
        ensures words { memory_of self.new ≡ write (memory_of self.old) (Heap address) (filler_header (object_words (memory_of self.old (Heap (address + 1))))) }
    {
        let config = self.config;
        let words = words_of(self.word(config.heap_at(address + 1)));
        self.set_word(config.heap_at(address), filler(words));
    }

    // Makes the words of an object words that only fill, if it begins at an address and is left over.
    fn fill_if_left(&mut self, left: Leftover, object: u64, address: u64)
        requires inside { IsWord (config_of self.old) (Heap address) }
        requires shape { object ≡ address → is_filler (memory_of self.old (Heap address)) ≡ false → IsWord (config_of self.old) (Heap (address + 1)) }
        requires found { left ≡ Leftover.NotFound → AreFound self.old }
        ensures config { config_of self.new ≡ config_of self.old }
        ensures places { places_of self.new ≡ places_of self.old }
        ensures found { found_of self.new ≡ found_of self.old }
        ensures marks { marks_of self.new ≡ marks_of self.old }
        ensures words { memory_of self.new ≡ is_filled_from (config_of self.old) (λ any_address. (object == any_address) && is_left_over (memory_of self.old) (found_of self.old) left any_address) address (memory_of self.old) }
    {
        if object != address {
            return;
        }
        if self.is_left_over(left, address) {
            self.fill_object(address);
        }
    }

    /// Makes the words of each object of a region that is left over words that only fill. Nothing else changes. Each object
    /// begins where the one before it ends, or words that only fill. Takes no memory, and time linear in the words of a region.
    pub fn fill_leftovers(&mut self, left: Leftover, region: usize)
        requires region { region < (config_of self.old).regions }
        requires can { CanFill (config_of self.old) (memory_of self.old) region }
        requires found { left ≡ Leftover.NotFound → AreFound self.old }
        ensures config { config_of self.new ≡ config_of self.old }
        ensures places { places_of self.new ≡ places_of self.old }
        ensures found { found_of self.new ≡ found_of self.old }
        ensures marks { marks_of self.new ≡ marks_of self.old }
        ensures words { memory_of self.new ≡ filled_in (config_of self.old) (λ any_region. any_region == region) (is_left_over (memory_of self.old) (found_of self.old) left) (memory_of self.old) }
    {
        let first = base(self.config, region);
        let top = self.top(region);
        let mut object = first;
        for offset in 0..top {
            if self.ends_at(object, first + offset) {
                object = first + offset;
            }
            self.fill_if_left(left, object, first + offset);
        }
    }
}
