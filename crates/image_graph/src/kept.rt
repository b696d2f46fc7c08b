//! The words of the heap as they were at some time, in the room where packing notes new places.

ghost use Rattle.std.specs.Prelude.{◌≡◌};
ghost use Rattle.heap_words.specs.Words.{Heap, IsWord, heap_in};
ghost use Rattle.regions.specs.Table.{now_of};
ghost use Rattle.image_graph.specs.State.{config_of, words_of, marks_of, found_of, places_of, IsUnchanged};

use crate::image::Image;
use heap_words::{forwarded, forwardee, heap_in};

impl Image {
    /// Keeps the words of the heap as they are now. Takes no memory, and time linear in them.
    pub fn keep_heap(&mut self)
        ensures unchanged { IsUnchanged self.old self.new }
        ensures found { found_of self.new ≡ found_of self.old }
        ensures marks { marks_of self.new ≡ marks_of self.old }
        ensures kept { places_of self.new ≡ heap_in (config_of self.old) (words_of self.old) }
    {
        self.places
            .copy_from_slice(heap_in(self.config, &self.words));
    }

    /// The address of the current copy of the object at an address, by the words that were kept.
    pub fn kept_copy(&self, address: u64) -> u64
        requires { IsWord (config_of self.now) (Heap address) }
        ensures { result ≡ now_of (config_of self.now).region_words (places_of self.now) address }
    {
        let header = self.places[(address - self.config.region_words() as u64) as usize];
        if forwarded(header) {
            forwardee(header)
        } else {
            address
        }
    }
}
