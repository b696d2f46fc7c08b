//! Checks of objects.

ghost use Rattle.std.specs.Prelude.{ℕ, ◌≡◌, ◌+◌, ◌*◌, ◌^◌, ◌<◌, ◌≤◌, IsTrue, length, slice_index};
ghost use Rattle.heap_words.specs.Words.{Top, Heap, IsWord};
ghost use Rattle.heap_words.specs.Encoding.{refs_in};
ghost use Rattle.heap_world.specs.Walk.{has};
ghost use Rattle.image_graph.specs.State.{config_of, memory_of};
ghost use Rattle.image_graph.specs.Laid.{laid_words, IsReference, LiesRight, IsNamedRight, IsShape, ReadsRight, AreInOrder};

use crate::Image;
use heap_words::{count_of, nums_of, refs_of, request_count, shape_of, thread_of, words_of};
use regions::{base, region_of};

/// Whether an address is one of a list.
pub(crate) fn is_among(objects: &[u64], address: u64) -> bool
    ensures { result ≡ has objects.now address }
{
    objects.iter().any(|object| address == *object)
}

/// Whether a word is null or names an object.
pub(crate) fn is_reference(objects: &[u64], word: u64) -> bool
    ensures { IsTrue result → IsReference objects.now word }
{
    word == 0 || is_among(objects, word)
}

/// Whether a shape word is one.
pub(crate) fn is_shape(shape: u64) -> bool
    ensures { IsTrue result → IsShape shape }
{
    let refs = refs_of(shape);
    let nums = nums_of(shape);
    refs <= 16 && nums <= 16 && shape == shape_of(refs, nums)
}

// Whether an object lies where it may.
fn lies_right(image: &Image, objects: &[u64], address: u64) -> bool
    requires { (region : ℕ) → region < (config_of image.now).regions → memory_of image.now (Top region) ≤ (config_of image.now).region_words }
    ensures { IsTrue result → LiesRight (config_of image.now) (memory_of image.now) objects.now address }
{
    let config = image.config();
    let first = config.region_words() as u64;
    let last = first + config.heap_size() as u64;
    if address < first || address >= last || last - address < 3 {
        return false;
    }
    let behind = address + words_of(image.word(config.heap_at(address + 1)));
    let region = region_of(config, address);
    let end = base(config, region) + image.word(config.top_at(region));
    behind <= end && (behind == end || is_among(objects, behind))
}

/// Whether each object lies where it may.
pub(crate) fn lie_right(image: &Image, objects: &[u64]) -> bool
    requires { (region : ℕ) → region < (config_of image.now).regions → memory_of image.now (Top region) ≤ (config_of image.now).region_words }
    ensures { IsTrue result → (index : ℕ) → index < length objects.now → LiesRight (config_of image.now) (memory_of image.now) objects.now (slice_index objects.now index) }
{
    for address in objects {
        if !lies_right(image, objects, *address) {
            return false;
        }
    }
    true
}

/// Whether objects are in the order of their addresses and of their names, and share no word.
pub(crate) fn are_in_order(image: &Image, objects: &[u64]) -> bool
    requires { (index : ℕ) → index < length objects.now → LiesRight (config_of image.now) (memory_of image.now) objects.now (slice_index objects.now index) }
    ensures { IsTrue result → AreInOrder (memory_of image.now) objects.now }
{
    let config = image.config();
    for index in 1..objects.len() {
        let before = objects[index - 1];
        let here = objects[index];
        let behind = before + words_of(image.word(config.heap_at(before + 1)));
        if behind > here
            || image.word(config.heap_at(before + 2)) >= image.word(config.heap_at(here + 2))
        {
            return false;
        }
    }
    true
}

// Whether a name word is one that a thread of the heap has given, and none that it asks for.
fn is_named_right(image: &Image, name: u64) -> bool
    ensures { IsTrue result → IsNamedRight (config_of image.now) (memory_of image.now) name }
{
    let config = image.config();
    let thread = thread_of(name) as usize;
    if thread == 0 {
        return true;
    }
    if thread > config.mutators() {
        return false;
    }
    let request = image.word(config.wait_at(thread - 1));
    request == 0 || count_of(name) < request_count(request)
}

// Whether the references of an object name objects.
fn are_fields_right(image: &Image, objects: &[u64], address: u64, refs: u64) -> bool
    requires inside { (field : ℕ) → field < refs → IsWord (config_of image.now) (Heap (address + 3 + field)) }
    requires small { address + 3 + refs < 2 ^ 32 }
    ensures { IsTrue result → (field : ℕ) → field < refs → IsReference objects.now (memory_of image.now (Heap (address + 3 + field))) }
{
    let config = image.config();
    for index in 0..refs {
        if !is_reference(objects, image.word(config.heap_at(address + 3 + index))) {
            return false;
        }
    }
    true
}

// Whether the words of an object are those of one.
fn reads_right(image: &Image, objects: &[u64], address: u64) -> bool
    requires lies { LiesRight (config_of image.now) (memory_of image.now) objects.now address }
    requires inside { address + laid_words (memory_of image.now) address ≤ ((config_of image.now).regions + 1) * (config_of image.now).region_words }
    ensures { IsTrue result → ReadsRight (config_of image.now) (memory_of image.now) objects.now address }
{
    let config = image.config();
    let shape = image.word(config.heap_at(address + 1));
    if image.word(config.heap_at(address)) != 1 {
        return false;
    }
    if !is_shape(shape) {
        return false;
    }
    if !is_named_right(image, image.word(config.heap_at(address + 2))) {
        return false;
    }
    are_fields_right(image, objects, address, refs_of(shape))
}

/// Whether the words of each object are those of one.
pub(crate) fn read_right(image: &Image, objects: &[u64]) -> bool
    requires tops { (region : ℕ) → region < (config_of image.now).regions → memory_of image.now (Top region) ≤ (config_of image.now).region_words }
    requires lie { (index : ℕ) → index < length objects.now → LiesRight (config_of image.now) (memory_of image.now) objects.now (slice_index objects.now index) }
    ensures { IsTrue result → (index : ℕ) → index < length objects.now → ReadsRight (config_of image.now) (memory_of image.now) objects.now (slice_index objects.now index) }
{
    for address in objects {
        if !reads_right(image, objects, *address) {
            return false;
        }
    }
    true
}
