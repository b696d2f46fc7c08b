//! Serves the mutators that wait for an object.

ghost use Rattle.std.specs.Prelude.{ℕ, ◌≡◌, ◌≢◌, ◌+◌, ◌<◌, ◌≤◌, ◌↔◌, true, false};
ghost use Rattle.heap_words.specs.Words.{Cset, Top, Wait};
ghost use Rattle.heap_words.specs.Encoding.{object_words, request_shape_in};
ghost use Rattle.regions.specs.ServedRooms.{lowest_room, NoneHasRoom};
ghost use Rattle.image_graph.specs.Full.{made_in, served, served_in, room_for};
ghost use Rattle.image_graph.specs.State.{config_of, memory_of};
ghost use Rattle.image_graph.specs.Holds.{HoldsSome};
ghost use Rattle.image_graph.specs.Left.{IsLeft, IsServedGraph, ServingHolds};
ghost use Rattle.image_graph.specs.Make.{heap_cleared, AreInHeap, AreWithin};

use crate::image::Image;
use heap_words::{name_word, request_count, request_shape, words_of};
use regions::{all_but, base, first_with_room};

impl Image {
    // Puts 0 into so many words of the heap, from an address on.
    fn clear(&mut self, address: u64, words: u64)
        requires inside { AreInHeap (config_of self.old) address words }
        ensures config { config_of self.new ≡ config_of self.old }
        ensures words { memory_of self.new ≡ heap_cleared address words (memory_of self.old) }
    {
        let config = self.config();
        for index in 0..words {
            self.set_word(config.heap_at(address + index), 0);
        }
    }

    // Makes the object that a mutator waits for at the top of a region, and gives its address as the answer.
    fn make_object(&mut self, mutator: usize, region: usize)
        requires mutator { mutator < (config_of self.old).mutators }
        requires region { region < (config_of self.old).regions }
        requires room { memory_of self.old (Top region) + object_words (request_shape_in (memory_of self.old (Wait mutator))) ≤ (config_of self.old).region_words }
        ensures config { config_of self.new ≡ config_of self.old }
        ensures words { memory_of self.new ≡ made_in (config_of self.old) (memory_of self.old) mutator region }
    {
        let config = self.config();
        let request = self.word(config.wait_at(mutator));
        let shape = request_shape(request);
        let top = self.word(config.top_at(region));
        let free = self.word(config.free_at());
        let address = base(config, region) + top;
        let name = name_word(mutator as u32 + 1, request_count(request));
        self.clear(address, words_of(shape));
        self.set_word(config.heap_at(address), 1);
        self.set_word(config.heap_at(address + 1), shape);
        self.set_word(config.heap_at(address + 2), name);
        self.set_word(config.top_at(region), top + words_of(shape));
        self.set_word(config.free_at(), free & all_but(region));
        self.set_word(config.answer_at(mutator), address);
        self.set_word(config.wait_at(mutator), 0);
    }

    // The lowest region that has room for so many words above its top, or nothing where each has less.
    fn room_for(&self, words: u64) -> Option<usize>
        requires { AreWithin (config_of self.now) (memory_of self.now) }
        ensures { result ≡ lowest_room (config_of self.now).region_words (λ region. memory_of self.now (Top region)) words (config_of self.now).regions }
    {
        first_with_room(self.config(), self.tops(), 0, words)
    }

    // Gives a mutator its turn: if it waits, its object is made where there is room. False where there is none.
    fn serve_one(&mut self, mutator: usize) -> bool
        requires mutator { mutator < (config_of self.old).mutators }
        requires within { AreWithin (config_of self.old) (memory_of self.old) }
        ensures config { config_of self.new ≡ config_of self.old }
        ensures within { AreWithin (config_of self.new) (memory_of self.new) }
        ensures idle { memory_of self.old (Wait mutator) ≡ 0 → memory_of self.new ≡ memory_of self.old }
        ensures waits { memory_of self.old (Wait mutator) ≢ 0 → memory_of self.new ≡ served_in (config_of self.old) (memory_of self.old) mutator (room_for (config_of self.old) (memory_of self.old) mutator) }
        ensures left { result ≡ false ↔ ((memory_of self.old (Wait mutator) ≢ 0) × NoneHasRoom (config_of self.old).region_words (λ region. memory_of self.old (Top region)) (object_words (request_shape_in (memory_of self.old (Wait mutator)))) (config_of self.old).regions) }
    {
        let config = self.config();
        let request = self.word(config.wait_at(mutator));
        if request == 0 {
            return true;
        }
        match self.room_for(words_of(request_shape(request))) {
            Some(region) => {
                self.make_object(mutator, region);
                true
            }
            None => false,
        }
    }

    /// Gives each mutator that waits its turn, one after the other: its object is made in the lowest region that has room
    /// for it, whatever is kept in reserve. A request that finds no room is left as it is, and the later ones have their
    /// turns all the same. False where a request was left.
    pub fn give_turns(&mut self) -> bool
        requires { AreWithin (config_of self.old) (memory_of self.old) }
        ensures config { config_of self.new ≡ config_of self.old }
        ensures words { memory_of self.new ≡ served (config_of self.old) (memory_of self.old) (config_of self.old).mutators }
        ensures left { result ≡ false → (mutator : ℕ) × IsLeft (config_of self.old) (memory_of self.old) mutator }
        ensures served { result ≡ true → (mutator : ℕ) → IsLeft (config_of self.old) (memory_of self.old) mutator → ⊥ }
    {
        let mut all = true;
        for mutator in 0..self.config().mutators() {
            if !self.serve_one(mutator) {
                all = false;
            }
        }
        all
    }

    /// Gives each mutator that waits its object, one after the other: in the lowest region that has room for it, whatever
    /// is kept in reserve. A request that finds no room is left as it is, and the later ones are served all the same.
    /// False where a request was left. The image holds a graph, and no region is in the collection set. The words stand
    /// for the same graph afterwards: the objects that were made are promised to their threads, and of no graph yet.
    pub fn serve(&mut self) -> bool
        requires holds { HoldsSome (config_of self.old) (memory_of self.old) }
        requires calm { memory_of self.old Cset ≡ 0 }
        ensures config { config_of self.new ≡ config_of self.old }
        ensures words { memory_of self.new ≡ served (config_of self.old) (memory_of self.old) (config_of self.old).mutators }
        ensures graph { IsServedGraph (config_of self.old) (memory_of self.old) (memory_of self.new) }
        ensures holds { ServingHolds (config_of self.old) (memory_of self.old) (memory_of self.new) }
        ensures left { result ≡ false → (mutator : ℕ) × IsLeft (config_of self.old) (memory_of self.old) mutator }
        ensures served { result ≡ true → (mutator : ℕ) → IsLeft (config_of self.old) (memory_of self.old) mutator → ⊥ }
    {
        self.give_turns()
    }
}
