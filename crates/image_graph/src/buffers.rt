//! Buffers of seats in a pause: which ones end at the top of their region, and what becomes of them.

ghost use Rattle.std.specs.Prelude.{◌≡◌, ◌≢◌, ◌-◌, ◌<◌, ◌&&◌, nat_lt, if◌then◌else◌};
ghost use Rattle.heap_words.specs.Ranges.{seat_count};
ghost use Rattle.heap_words.specs.Words.{Current};
ghost use Rattle.heap_words.specs.Encoding.{next_in};
ghost use Rattle.regions.specs.Place.{base_of};
ghost use Rattle.image_graph.specs.SeatBuffers as buffers;
ghost use Rattle.image_graph.specs.SeatBuffers.{IsInside, AreInside, filled_over};
ghost use Rattle.image_graph.specs.Settled.{settled_at, buffers_settled};
ghost use Rattle.image_graph.specs.LetGo.{given_back, let_go_at, let_go};
ghost use Rattle.image_graph.specs.Edge as edges;
ghost use Rattle.image_graph.specs.State.{config_of, memory_of};
ghost use Rattle.image_graph.specs.Buffers.{SettlingHolds, LettingGoHolds};

use crate::image::Image;
use heap_words::{Config, end_of, filler, next_of};
use regions::base;

// The number of the region of a buffer, by its word.
fn region_of_buffer(config: Config, word: u64) -> u64
    ensures { result ≡ buffers.buffer_region config word }
{
    let last = end_of(word).saturating_sub(1);
    (last / config.region_words() as u64).saturating_sub(1)
}

impl Image {
    // Whether a buffer ends at the top of its region, by its word.
    fn is_last(&self, word: u64) -> bool
        requires { buffers.buffer_region (config_of self.now) word < (config_of self.now).regions }
        ensures { result ≡ buffers.is_last (config_of self.now) (memory_of self.now) word }
    {
        let region = region_of_buffer(self.config, word) as usize;
        let base = base(self.config, region);
        let end = end_of(word);
        base <= end && end - base == self.top(region)
    }

    // Whether a seat has a buffer in a region that ends at its top.
    fn is_last_in(&self, region: usize, seat: usize) -> bool
        requires region { region < (config_of self.now).regions }
        requires seat { seat < seat_count (config_of self.now).mutators (config_of self.now).helpers }
        ensures { result ≡ edges.is_last_in (config_of self.now) (memory_of self.now) region seat }
    {
        let word = self.word(self.config.cur_at(seat));
        if word == 0 || region_of_buffer(self.config, word) != region as u64 {
            return false;
        }
        self.is_last(word)
    }

    // The lesser of an edge, and of where the free words of a seat's buffer begin, if it ends at the top of the region.
    fn edge_with(&self, region: usize, seat: usize, edge: u64) -> u64
        requires region { region < (config_of self.now).regions }
        requires seat { seat < seat_count (config_of self.now).mutators (config_of self.now).helpers }
        ensures { result ≡ (if edges.is_last_in (config_of self.now) (memory_of self.now) region seat && nat_lt (next_in (memory_of self.now (Current seat)) - base_of (config_of self.now) region) edge then next_in (memory_of self.now (Current seat)) - base_of (config_of self.now) region else edge) }
    {
        if !self.is_last_in(region, seat) {
            return edge;
        }
        let next = next_of(self.word(self.config.cur_at(seat)));
        edge.min(next.saturating_sub(base(self.config, region)))
    }

    /// The edge of a region: how many words from its base on are in use, but for the free words of a buffer that ends at its
    /// top. Takes time linear in the number of seats.
    pub fn edge(&self, region: usize) -> u64
        requires { region < (config_of self.now).regions }
        ensures { result ≡ edges.edge (config_of self.now) (memory_of self.now) region }
    {
        let mut edge = self.top(region);
        for seat in 0..self.config.seats() {
            edge = self.edge_with(region, seat, edge);
        }
        edge
    }

    // Makes the free words of a buffer, if it has some, words that only fill.
    fn fill(&mut self, word: u64)
        requires { IsInside (config_of self.old) word }
        ensures config { config_of self.new ≡ config_of self.old }
        ensures words { memory_of self.new ≡ filled_over (memory_of self.old) word }
    {
        let next = next_of(word);
        let end = end_of(word);
        if next < end {
            let at = self.config.heap_at(next);
            self.set_word(at, filler(end - next));
        }
    }

    // Gives back the free words of a buffer that ends at the top of its region.
    fn give_back(&mut self, word: u64)
        requires { IsInside (config_of self.old) word }
        ensures config { config_of self.new ≡ config_of self.old }
        ensures words { memory_of self.new ≡ given_back (config_of self.old) (memory_of self.old) word }
    {
        let config = self.config;
        let region = region_of_buffer(config, word) as usize;
        self.set_word(config.top_at(region), next_of(word) - base(config, region));
    }

    // Settles the buffer of a seat, if it has one.
    fn settle_one(&mut self, seat: usize)
        requires seat { seat < seat_count (config_of self.old).mutators (config_of self.old).helpers }
        requires inside { memory_of self.old (Current seat) ≢ 0 → IsInside (config_of self.old) (memory_of self.old (Current seat)) }
        ensures config { config_of self.new ≡ config_of self.old }
        ensures words { memory_of self.new ≡ settled_at (config_of self.old) (memory_of self.old) seat }
    {
        let at = self.config.cur_at(seat);
        let word = self.word(at);
        if word == 0 || self.is_last(word) {
            return;
        }
        self.fill(word);
        self.set_word(at, 0);
    }

    /// Settles the buffers of seats, before a part of the cycle tells what was allocated since by its region's edge: a buffer
    /// that ends at the top of its region stays; of any other the free words only fill from now on, and its seat has none. Where
    /// the image holds a graph, it holds the same graph afterwards. Takes no memory, and time linear in the number of seats.
    pub fn settle(&mut self)
        requires { AreInside (config_of self.old) (memory_of self.old) }
        ensures config { config_of self.new ≡ config_of self.old }
        ensures words { memory_of self.new ≡ buffers_settled (config_of self.old) (memory_of self.old) }
        ensures holds { SettlingHolds (config_of self.old) (memory_of self.old) (memory_of self.new) }
    {
        for seat in 0..self.config.seats() {
            self.settle_one(seat);
        }
    }

    // Lets go the buffer of a seat, if it has one.
    fn let_go_one(&mut self, seat: usize)
        requires seat { seat < seat_count (config_of self.old).mutators (config_of self.old).helpers }
        requires inside { memory_of self.old (Current seat) ≢ 0 → IsInside (config_of self.old) (memory_of self.old (Current seat)) }
        ensures config { config_of self.new ≡ config_of self.old }
        ensures words { memory_of self.new ≡ let_go_at (config_of self.old) (memory_of self.old) seat }
    {
        let at = self.config.cur_at(seat);
        let word = self.word(at);
        if word == 0 {
            return;
        }
        if self.is_last(word) {
            self.give_back(word);
        } else {
            self.fill(word);
        }
        self.set_word(at, 0);
    }

    /// Lets the buffers of all seats go, one after the other, before a cycle ends at once or the heap is collected in full: the
    /// free words of one that ends at the top of its region are given back, and those of any other only fill from now on. Where
    /// the image holds a graph, it holds the same graph afterwards. Takes no memory, and time linear in the number of seats.
    pub fn let_go(&mut self)
        requires { AreInside (config_of self.old) (memory_of self.old) }
        ensures config { config_of self.new ≡ config_of self.old }
        ensures words { memory_of self.new ≡ let_go (config_of self.old) (memory_of self.old) }
        ensures holds { LettingGoHolds (config_of self.old) (memory_of self.old) (memory_of self.new) }
    {
        for seat in 0..self.config.seats() {
            self.let_go_one(seat);
        }
    }
}
