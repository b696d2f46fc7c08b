ghost use Rattle.std.specs.Prelude.{◌≡◌, ◌≤◌, length, vec_capacity};
ghost use Rattle.heap_words.specs.Words.{table_words, heap_size};
ghost use Rattle.heap_world.specs.Walk.{IsMarked};

use heap_words::{Config, NoMemory, end_of, forwarded, forwardee, heap_in, pins_in, roots_in};
use heap_world::write_graph;
use regions::base;
use shen_graph::GraphText;
use std::alloc::Global;

/// The words of a heap, and where a collection of all of it works. Only `open` takes memory.
#[derive(Drop)]
pub struct Image {
    pub(crate) config: Config,
    pub(crate) words: Vec<u64>,
    // For each word of the heap a word of a second heap and a flag, and room for as many addresses, which are numbers of 32 bits: the
    // mark stack. The flags say which addresses it has, so that it is forgotten in the time of what it has.
    pub(crate) places: Vec<u64>,
    pub(crate) marks: Vec<bool>,
    pub(crate) addresses: Vec<u32>,
    ghost all_words: { length words.items ≡ table_words config },
    ghost all_places: { length places.items ≡ heap_size config },
    ghost all_marks: { length marks.items ≡ heap_size config },
    ghost enough_addresses: { heap_size config ≤ vec_capacity addresses },
    ghost all_found: { ∥ IsMarked config.region_words marks.items addresses.items ∥₁ },
}

impl Image {
    ghost use Rattle.std.specs.Prelude.{ℕ, ◌<◌, true, false, slice_set, slice_index, Option, IfOk};
    ghost use Rattle.heap_words.specs.Words.{Word, Top, Heap, IsWord, word_at, write};
    ghost use Rattle.heap_words.specs.Ranges.{seat_count};
    ghost use Rattle.image_graph.specs.Full.{now_in};
    ghost use Rattle.image_graph.specs.Pinned.{lies_in, has_pin, is_pinned};
    ghost use Rattle.image_graph.specs.State.{config_of, words_of, memory_of, marks_of, found_of, places_of, IsUnchanged, EndsIn, IsSomeSeats};
    ghost use Rattle.image_graph.specs.Left.{StandsForSome, ShowsTheGraph};

    /// An image of this configuration whose words are all 0. The error is that memory was refused.
    pub fn open(alloc: Global, config: Config) -> Result<Image, NoMemory>
        ensures config { IfOk result (λ image. config_of image ≡ config) }
        ensures words { IfOk result (λ image. (word : Word) → memory_of image word ≡ 0) }
    {
        let Ok(words) = vec![in alloc; 0u64; config.table_words()] else {
            return Err(NoMemory);
        };
        let Ok(places) = vec![in alloc; 0u64; config.heap_size()] else {
            return Err(NoMemory);
        };
        let Ok(marks) = vec![in alloc; false; config.heap_size()] else {
            return Err(NoMemory);
        };
        let Ok(addresses) = Vec::with_capacity(alloc, config.heap_size()) else {
            return Err(NoMemory);
        };
        Ok(Image {
            config,
            words,
            places,
            marks,
            addresses,
        })
    }

    /// The heap's configuration.
    pub fn config(&self) -> Config
        ensures { result ≡ config_of self.now }
    {
        self.config
    }

    /// The word at an index of the table.
    pub fn word(&self, at: usize) -> u64
        requires { at < table_words (config_of self.now) }
        ensures value { result ≡ slice_index (words_of self.now) at }
        ensures named { (word : Word) → IsWord (config_of self.now) word → word_at (config_of self.now) word ≡ at → result ≡ memory_of self.now word }
    {
        self.words[at]
    }

    /// Puts a value at an index of the table. No other word changes, nor which objects were found, nor their new places.
    pub fn set_word(&mut self, at: usize, value: u64)
        requires { at < table_words (config_of self.old) }
        ensures config { config_of self.new ≡ config_of self.old }
        ensures words { words_of self.new ≡ slice_set (words_of self.old) at value }
        ensures places { places_of self.new ≡ places_of self.old }
        ensures found { found_of self.new ≡ found_of self.old }
        ensures marks { marks_of self.new ≡ marks_of self.old }
        ensures named { (word : Word) → IsWord (config_of self.old) word → word_at (config_of self.old) word ≡ at → memory_of self.new ≡ write (memory_of self.old) word value }
    {
        self.words[at] = value;
    }

    // The top of each region.
    pub(crate) fn tops(&self) -> &[u64]
        ensures count { length result.now ≡ (config_of self.now).regions }
        ensures tops { (region : ℕ) → region < (config_of self.now).regions → slice_index result.now region ≡ memory_of self.now (Top region) }
    {
        let start = self.config.top_at(0);
        &self.words[start..start + self.config.regions()]
    }

    /// The address of the current copy of the object at an address: the forwardee where the object is forwarded, and
    /// else the address.
    pub fn resolve(&self, address: u64) -> u64
        requires { IsWord (config_of self.now) (Heap address) }
        ensures { result ≡ now_in (memory_of self.now) address }
    {
        let header = self.word(self.config.heap_at(address));
        if forwarded(header) {
            forwardee(header)
        } else {
            address
        }
    }

    /// The top of a region: how many words from its base on are in use.
    pub fn top(&self, region: usize) -> u64
        requires { region < (config_of self.now).regions }
        ensures { result ≡ memory_of self.now (Top region) }
    {
        self.word(self.config.top_at(region))
    }

    // Whether a seat has a buffer that ends in the region.
    fn ends_in(&self, seat: usize, region: usize) -> bool
        requires seat { seat < seat_count (config_of self.now).mutators (config_of self.now).helpers }
        requires region { region < (config_of self.now).regions }
        ensures yes { result ≡ true → EndsIn (config_of self.now) (memory_of self.now) seat region }
        ensures no { result ≡ false → EndsIn (config_of self.now) (memory_of self.now) seat region → ⊥ }
    {
        let end = end_of(self.word(self.config.cur_at(seat)));
        let base = base(self.config, region);
        base < end && end <= base + self.config.region_words() as u64
    }

    /// Whether the region is shared, or some seat's buffer ends in it: what is allocated may come to lie there.
    pub fn is_current(&self, region: usize) -> bool
        requires { region < (config_of self.now).regions }
        ensures yes { result ≡ true → IsSomeSeats (config_of self.now) (memory_of self.now) region }
        ensures no { result ≡ false → IsSomeSeats (config_of self.now) (memory_of self.now) region → ⊥ }
    {
        if self.word(self.config.share_at()) == region as u64 + 1 {
            return true;
        }
        for seat in 0..self.config.seats() {
            if self.ends_in(seat, region) {
                return true;
            }
        }
        false
    }

    // Whether an address lies in a region.
    fn lies_in(&self, region: usize, address: u64) -> bool
        requires { region < (config_of self.now).regions }
        ensures { result ≡ lies_in (config_of self.now) region address }
    {
        let first = base(self.config, region);
        first <= address && address < first + self.config.region_words() as u64
    }

    // Whether a pin slot of a mutator holds an address of the region.
    fn has_pin(&self, mutator: usize, region: usize) -> bool
        requires mutator { mutator < (config_of self.now).mutators }
        requires region { region < (config_of self.now).regions }
        ensures { result ≡ has_pin (config_of self.now) (memory_of self.now) region mutator }
    {
        for slot in 0..4 {
            let word = self.word(self.config.pin_at(mutator, slot));
            if self.lies_in(region, word) {
                return true;
            }
        }
        false
    }

    /// Whether the region is pinned: some pin slot holds an object there, so that its objects stay where they are.
    pub fn is_pinned(&self, region: usize) -> bool
        requires { region < (config_of self.now).regions }
        ensures { result ≡ is_pinned (config_of self.now) (memory_of self.now) region }
    {
        for mutator in 0..self.config.mutators() {
            if self.has_pin(mutator, region) {
                return true;
            }
        }
        false
    }

    /// Writes the graph that the words of heap, roots and pin slots stand for, as those of an image that holds a graph do: the objects
    /// that the roots and pin slots lead to, by their current copies, in the order of their names, and the roots and pin slots
    /// of each mutator. Answers are no roots here: what is promised is of no graph yet. What the text held before is gone. It was opened for at least
    /// as many words as the heap has, and for the heap's mutators. No word of the image changes, and no memory is taken.
    pub fn answer_graph(&mut self, text: &mut GraphText)
        requires room { heap_size (config_of self.old) ≤ text.old.room }
        requires threads { length text.old.roots ≡ (config_of self.old).mutators }
        requires stand { StandsForSome (config_of self.old) (words_of self.old) }
        ensures unchanged { IsUnchanged self.old self.new }
        ensures shows { ShowsTheGraph (config_of self.old) (words_of self.old) text.new }

        // The same text serves again.
        ensures same_room { text.new.room ≡ text.old.room }
        ensures same_threads { length text.new.roots ≡ length text.old.roots }
    {
        write_graph(
            self.config.region_words() as u64,
            heap_in(self.config, &self.words),
            roots_in(self.config, &self.words),
            pins_in(self.config, &self.words),
            &mut self.marks,
            &mut self.addresses,
            text,
        );
    }
}
