//! Copying an object out of the collection set.

ghost use Rattle.std.specs.Prelude.{ℕ, ◌≡◌, ◌+◌, ◌<◌, ◌≤◌, ◌⊎◌, nat_le};
ghost use Rattle.heap_words.specs.Words.{Cset, Top};
ghost use Rattle.regions.specs.ServedRooms.{lowest_room};
ghost use Rattle.image_graph.specs.State.{config_of, memory_of};
ghost use Rattle.image_graph.specs.Make.{AreInHeap, AreWithin};
ghost use Rattle.cycle_words.specs.Evacuation.Live.{words_at};
ghost use Rattle.cycle_words.specs.Evacuation.Copying.{tops_outside};
ghost use Rattle.regions.specs.Sets.{IsOutside};
ghost use Rattle.cycle_words.specs.Evacuation.Copied.{CanCopyOut, copy_address, top_address, copied_out, copied_to};
ghost use Rattle.cycle_words.specs.StillHolds.{CopyingHolds};
ghost use Rattle.cset_choice.specs.Steps.{words_copied};

use heap_words::{header_to, words_of};
use image_graph::Image;
use regions::{all_but, base, is_in};

// Whether a region is outside the collection set and has room for so many words.
fn has_room(image: &Image, region: usize, words: u64) -> bool
    requires region { region < (config_of image.now).regions }
    requires within { AreWithin (config_of image.now) (memory_of image.now) }
    requires some { 0 < words }
    ensures { result ≡ nat_le (tops_outside (config_of image.now).region_words (memory_of image.now Cset) (λ any_region. memory_of image.now (Top any_region)) region + words) (config_of image.now).region_words }
{
    let config = image.config();
    if is_in(image.word(config.cset_at()), region) {
        return false;
    }
    words <= config.region_words() as u64 - image.top(region)
}

// The lowest region outside the collection set that has room for so many words, or nothing where each has less.
fn room_outside(image: &Image, words: u64) -> Option<usize>
    requires within { AreWithin (config_of image.now) (memory_of image.now) }
    requires some { 0 < words }
    ensures { result ≡ lowest_room (config_of image.now).region_words (tops_outside (config_of image.now).region_words (memory_of image.now Cset) (λ region. memory_of image.now (Top region))) words (config_of image.now).regions }
{
    for region in 0..image.config().regions() {
        if has_room(image, region, words) {
            return Some(region);
        }
    }
    None
}

// Copies so many words of the heap from one address to another; the two parts lie apart.
fn copy_words(image: &mut Image, from: u64, to: u64, words: u64)
    requires from { AreInHeap (config_of image.old) from words }
    requires to { AreInHeap (config_of image.old) to words }
    requires apart { (from + words ≤ to) ⊎ (to + words ≤ from) }
    ensures config { config_of image.new ≡ config_of image.old }
    ensures words { memory_of image.new ≡ words_copied from to words (memory_of image.old) }
{
    let config = image.config();
    for index in 0..words {
        let word = image.word(config.heap_at(from + index));
        image.set_word(config.heap_at(to + index), word);
    }
}

// Copies an object out to a region that has room for it, and gives the address of the copy.
fn copy_to(image: &mut Image, address: u64, region: usize) -> u64
    requires can { CanCopyOut (config_of image.old) (memory_of image.old) address }
    requires region { region < (config_of image.old).regions }
    requires outside { IsOutside (memory_of image.old Cset) region }
    requires room { memory_of image.old (Top region) + words_at (memory_of image.old) address ≤ (config_of image.old).region_words }
    ensures config { config_of image.new ≡ config_of image.old }
    ensures words { memory_of image.new ≡ copied_to (config_of image.old) (memory_of image.old) address region }
    ensures address { result ≡ top_address (config_of image.old) (memory_of image.old) region }
{
    let config = image.config();
    let words = words_of(image.word(config.heap_at(address + 1)));
    let top = image.top(region);
    let free = image.word(config.free_at());
    let copy = base(config, region) + top;
    copy_words(image, address, copy, words);
    image.set_word(config.heap_at(copy), 1);
    image.set_word(config.top_at(region), top + words);
    image.set_word(config.free_at(), free & all_but(region));
    image.set_word(config.heap_at(address), header_to(copy));
    copy
}

/// Copies the object at an address out of the collection set, to the top of the lowest region outside that has room for it,
/// and gives the address of the copy. The old header names the copy then. Where no such region has room, nothing changes.
/// The object lies in one region, which is of the collection set. Where the image holds a graph, and the address is that of an
/// object that has not moved and that no pin slot holds, it holds the same graph afterwards, and finishing the cycle still keeps it. Takes no memory.
pub fn copy_out(image: &mut Image, address: u64) -> Option<u64>
    requires { CanCopyOut (config_of image.old) (memory_of image.old) address }
    ensures config { config_of image.new ≡ config_of image.old }
    ensures words { memory_of image.new ≡ copied_out (config_of image.old) (memory_of image.old) address }
    ensures copy { result ≡ copy_address (config_of image.old) (memory_of image.old) address }
    ensures holds { CopyingHolds (config_of image.old) (memory_of image.old) (memory_of image.new) address }
{
    let words = words_of(image.word(image.config().heap_at(address + 1)));
    match room_outside(image, words) {
        Some(region) => Some(copy_to(image, address, region)),
        None => None,
    }
}
