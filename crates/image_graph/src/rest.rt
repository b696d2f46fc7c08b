//! Checks of regions, seats and mutators.

ghost use Rattle.std.specs.Prelude.{ℕ, ◌≡◌, ◌<◌, ◌^◌, None, IsTrue};
ghost use Rattle.heap_words.specs.Ranges.{seat_count};
ghost use Rattle.heap_words.specs.Words.{Cset, Free, Current, Root, Share, Pin};
ghost use Rattle.heap_world.specs.World.{ShareIsOpen};
ghost use Rattle.image_graph.specs.State.{config_of, memory_of};
ghost use Rattle.image_graph.specs.Laid.{IsReference, IsRegionRight, IsMutatorRight};

use crate::Image;
use crate::objects::{is_among, is_reference, is_shape};
use heap_words::{request_count, request_shape};
use regions::{base, is_in};

// Whether a region has at most as many words in use as it has, an object at its base where it has some, and none where it
// is free.
fn is_region_right(image: &Image, objects: &[u64], region: usize) -> bool
    requires { region < (config_of image.now).regions }
    ensures { IsTrue result → IsRegionRight (config_of image.now) (memory_of image.now) objects.now region }
{
    let config = image.config();
    let top = image.word(config.top_at(region));
    if top == 0 {
        return true;
    }
    top <= config.region_words() as u64
        && !is_in(image.word(config.free_at()), region)
        && is_among(objects, base(config, region))
}

/// Whether each region is right.
pub(crate) fn are_regions_right(image: &Image, objects: &[u64]) -> bool
    ensures { IsTrue result → (region : ℕ) → region < (config_of image.now).regions → IsRegionRight (config_of image.now) (memory_of image.now) objects.now region }
{
    for region in 0..image.config().regions() {
        if !is_region_right(image, objects, region) {
            return false;
        }
    }
    true
}

/// Whether the free word has no bit above the regions.
pub(crate) fn is_free_word_right(image: &Image) -> bool
    ensures { IsTrue result → memory_of image.now Free < 2 ^ (config_of image.now).regions }
{
    let config = image.config();
    let free = image.word(config.free_at());
    config.regions() >= 64 || free < 1 << config.regions()
}

/// Whether no seat has a buffer.
pub(crate) fn has_no_buffers(image: &Image) -> bool
    ensures { IsTrue result → (seat : ℕ) → seat < seat_count (config_of image.now).mutators (config_of image.now).helpers → memory_of image.now (Current seat) ≡ 0 }
{
    let config = image.config();
    for seat in 0..config.seats() {
        if image.word(config.cur_at(seat)) != 0 {
            return false;
        }
    }
    true
}

/// Whether no region is shared, or one that is in use, and not in the collection set.
pub(crate) fn is_share_right(image: &Image) -> bool
    ensures { IsTrue result → ShareIsOpen (config_of image.now) (memory_of image.now Share) (memory_of image.now Free) (memory_of image.now Cset) (λ region. None) }
{
    let config = image.config();
    let share = image.word(config.share_at());
    if share == 0 {
        return true;
    }
    if share > config.regions() as u64 {
        return false;
    }
    let region = share as usize - 1;
    !is_in(image.word(config.free_at()), region) && !is_in(image.word(config.cset_at()), region)
}

// Whether the roots of a mutator are null or name objects.
fn are_roots_right(image: &Image, objects: &[u64], mutator: usize) -> bool
    requires { mutator < (config_of image.now).mutators }
    ensures { IsTrue result → (index : ℕ) → index < 16 → IsReference objects.now (memory_of image.now (Root mutator index)) }
{
    let config = image.config();
    for index in 0..16 {
        if !is_reference(objects, image.word(config.root_at(mutator, index))) {
            return false;
        }
    }
    true
}

// Whether the pin slots of a mutator are empty.
fn are_slots_empty(image: &Image, mutator: usize) -> bool
    requires { mutator < (config_of image.now).mutators }
    ensures { IsTrue result → (index : ℕ) → index < 4 → memory_of image.now (Pin mutator index) ≡ 0 }
{
    let config = image.config();
    for slot in 0..4 {
        if image.word(config.pin_at(mutator, slot)) != 0 {
            return false;
        }
    }
    true
}

// Whether a mutator's roots are right, its pin slots are empty, nothing was made for it, and it asks for an object that can be, if it
// asks.
fn is_mutator_right(image: &Image, objects: &[u64], mutator: usize) -> bool
    requires { mutator < (config_of image.now).mutators }
    ensures { IsTrue result → IsMutatorRight (memory_of image.now) objects.now mutator }
{
    let config = image.config();
    let answer = image.word(config.answer_at(mutator));
    let request = image.word(config.wait_at(mutator));
    if answer > 1 || !are_roots_right(image, objects, mutator) || !are_slots_empty(image, mutator) {
        return false;
    }
    request == 0 || (answer == 0 && request_count(request) > 0 && is_shape(request_shape(request)))
}

/// Whether each mutator is right.
pub(crate) fn are_mutators_right(image: &Image, objects: &[u64]) -> bool
    ensures { IsTrue result → (mutator : ℕ) → mutator < (config_of image.now).mutators → IsMutatorRight (memory_of image.now) objects.now mutator }
{
    for mutator in 0..image.config().mutators() {
        if !is_mutator_right(image, objects, mutator) {
            return false;
        }
    }
    true
}
