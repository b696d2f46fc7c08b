//! Finds what marking has still to come to.

ghost use Rattle.std.specs.Prelude.{ℕ, ◌≡◌, ◌+◌, ◌*◌, ◌<◌, map, true, false};
ghost use Rattle.std.specs.List.{range_with_len};
ghost use Rattle.heap_words.specs.Words.{Count, Buffer, Heap, IsWord, heap_size};
ghost use Rattle.heap_world.specs.Walk.{with_address, with_addresses};
ghost use Rattle.image_graph.specs.Full.{field_words};
ghost use Rattle.image_graph.specs.State.{config_of, memory_of, found_of, AreFound, IsUnchanged};
ghost use Rattle.cycle_words.specs.Marking.Marks as marks;
ghost use Rattle.cycle_words.specs.Marking.Close.{IsTraced, greys_below, entries_below, open_fields, traced_in};
ghost use Rattle.mark_core.specs.Trace.{CanTrace};

use crate::look::{is_black, next_grey};
use heap_words::refs_of;
use image_graph::Image;

// Notes the grey addresses.
fn find_greys(image: &mut Image)
    requires { AreFound image.old }
    ensures unchanged { IsUnchanged image.old image.new }
    ensures found { AreFound image.new }
    ensures noted { found_of image.new ≡ with_addresses (found_of image.old) (greys_below (config_of image.old) (memory_of image.old) (heap_size (config_of image.old))) }
{
    let config = image.config();
    let first = config.region_words() as u64;
    let end = first + config.heap_size() as u64;
    let mut address = next_grey(image, first, end);
    while address < end {
        image.find(address);
        address = next_grey(image, address + 1, end);
    }
}

// Notes the entries of the buffer of a mutator.
fn find_entries(image: &mut Image, mutator: usize)
    requires mutator { mutator < (config_of image.old).mutators }
    requires can { CanTrace (config_of image.old) (memory_of image.old) }
    requires found { AreFound image.old }
    ensures unchanged { IsUnchanged image.old image.new }
    ensures found { AreFound image.new }
    ensures noted { found_of image.new ≡ with_addresses (found_of image.old) (map (λ entry. memory_of image.old (Buffer mutator entry)) (range_with_len 0 (memory_of image.old (Count mutator)))) }
{
    let config = image.config();
    let count = image.word(config.count_at(mutator));
    for entry in 0..count {
        let word = image.word(config.buffer_at(mutator, entry as usize));
        image.find(word);
    }
}

// Notes the entries of all buffers.
fn find_all_entries(image: &mut Image)
    requires can { CanTrace (config_of image.old) (memory_of image.old) }
    requires found { AreFound image.old }
    ensures unchanged { IsUnchanged image.old image.new }
    ensures found { AreFound image.new }
    ensures noted { found_of image.new ≡ with_addresses (found_of image.old) (entries_below (memory_of image.old) (config_of image.old).mutators) }
{
    let config = image.config();
    for mutator in 0..config.mutators() {
        find_entries(image, mutator);
    }
}

// Notes what the references of an object name that is not black.
fn find_fields(image: &mut Image, address: u64)
    requires can { CanTrace (config_of image.old) (memory_of image.old) }
    requires found { AreFound image.old }
    requires traced { IsTraced (config_of image.old) (memory_of image.old) address }
    requires open { marks.is_black (config_of image.old) (memory_of image.old) address ≡ false }
    ensures unchanged { IsUnchanged image.old image.new }
    ensures found { AreFound image.new }
    ensures noted { found_of image.new ≡ with_addresses (found_of image.old) (field_words (memory_of image.old) address) }
{
    let config = image.config();
    let refs = refs_of(image.word(config.heap_at(address + 1)));
    for index in 0..refs {
        let word = image.word(config.heap_at(address + 3 + index));
        image.find(word);
    }
}

// Gives an address its turn: what its references name is noted, unless it is black.
fn trace_one(image: &mut Image, address: u64)
    requires can { CanTrace (config_of image.old) (memory_of image.old) }
    requires found { AreFound image.old }
    requires traced { IsTraced (config_of image.old) (memory_of image.old) address }
    ensures unchanged { IsUnchanged image.old image.new }
    ensures found { AreFound image.new }
    ensures noted { found_of image.new ≡ with_addresses (found_of image.old) (open_fields (config_of image.old) (memory_of image.old) address) }
{
    if is_black(image, address) {
        return;
    }
    find_fields(image, address);
}

/// Finds what is grey, what buffers have, and what the references of found objects name that are not black.
pub(crate) fn find_traced(image: &mut Image)
    requires { CanTrace (config_of image.old) (memory_of image.old) }
    ensures unchanged { IsUnchanged image.old image.new }
    ensures found { AreFound image.new }
    ensures traced { found_of image.new ≡ traced_in (config_of image.old) (memory_of image.old) }
{
    image.forget_found();
    find_greys(image);
    find_all_entries(image);
    let mut turn = 0;
    while let Some(address) = image.found_at(turn) {
        trace_one(image, address);
        turn += 1;
    }
}
