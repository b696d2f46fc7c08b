//! Which objects of an image a walk has found: each once, with a flag at its address.

ghost use Rattle.std.specs.Prelude.{◌≡◌, ◌≢◌, ◌+◌, ◌<◌, [], slice_get};
ghost use Rattle.heap_words.specs.Words.{Heap, IsWord};
ghost use Rattle.heap_world.specs.Walk.{has, with_address};
ghost use Rattle.image_graph.specs.State.{config_of, found_of, AreFound, IsUnchanged};

use crate::image::Image;
use heap_world::{forget, take_down};

impl Image {
    /// Forgets which objects were found. Takes time linear in these.
    pub fn forget_found(&mut self)
        ensures unchanged { IsUnchanged self.old self.new }
        ensures found { AreFound self.new }
        ensures none { found_of self.new ≡ [] }
    {
        let first = self.config.region_words() as u64;
        forget(first, &mut self.marks, &mut self.addresses);
    }

    /// Notes that the object at an address was found, unless that was noted before. Null, 0, is no object.
    pub fn find(&mut self, address: u64)
        requires found { AreFound self.old }
        requires inside { address ≢ 0 → IsWord (config_of self.old) (Heap address) }
        ensures unchanged { IsUnchanged self.old self.new }
        ensures found { AreFound self.new }
        ensures noted { found_of self.new ≡ with_address (found_of self.old) address }
    {
        let first = self.config.region_words() as u64;
        take_down(first, address, &mut self.marks, &mut self.addresses);
    }

    /// The address of the object that was found at a turn, counted from 0, if so many were found.
    pub fn found_at(&self, turn: usize) -> Option<u64>
        ensures { result ≡ slice_get (found_of self.now) turn }
    {
        match self.addresses.get(turn) {
            Some(address) => Some(*address as u64),
            None => None,
        }
    }

    /// Whether the object at an address was found.
    pub fn is_found(&self, address: u64) -> bool
        requires { AreFound self.now }
        ensures { result ≡ has (found_of self.now) address }
    {
        let first = self.config.region_words() as u64;
        if address < first {
            return false;
        }
        let index = (address - first) as usize;
        index < self.marks.len() && self.marks[index]
    }
}
