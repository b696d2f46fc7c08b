//! The beginning of evacuation.

ghost use Rattle.std.specs.Prelude.{ℕ, ◌≡◌, ◌^◌, ◌<◌, ◌↔◌, IsTrue, true, map, slice_index};
ghost use Rattle.std.specs.List.{range_with_len};
ghost use Rattle.heap_words.specs.Words.{Word, Cset, Root, Answer, Heap, IsWord, word_at, table_words};
ghost use Rattle.image_graph.specs.Full.{now_in};
ghost use Rattle.image_graph.specs.State.{config_of, words_of, memory_of};
ghost use Rattle.cycle_words.specs.Evacuation.Choice.{chosen};
ghost use Rattle.cycle_words.specs.Evacuation.Begun as begun;
ghost use Rattle.cycle_words.specs.Evacuation.Begun.{CanBegin, CanClear, CanClearInTurn, moved_out, cleared_at, cleared_in_turn, root_places, evac_started, evac_spared, evac_begun};
ghost use Rattle.cycle_words.specs.StillHolds.{BeginningHolds};

use crate::copy::copy_out;
use heap_words::phase::{EVACUATION, IDLE};
use heap_words::{Config, forwarded, forwardee};
use image_graph::Image;
use regions::{is_in, region_of};

// Whether a word is an address of the heap.
fn is_address(config: Config, word: u64) -> bool
    ensures { IsTrue result ↔ IsWord config (Heap word) }
{
    let first = config.region_words() as u64;
    first <= word && word < first + config.heap_size() as u64
}

/// Whether a word is an address of a region of the collection set, which has regions of the heap alone.
pub fn is_collected(image: &Image, word: u64) -> bool
    requires { memory_of image.now Cset < 2 ^ (config_of image.now).regions }
    ensures { result ≡ begun.is_collected (config_of image.now) (memory_of image.now) word }
{
    let config = image.config();
    if !is_address(config, word) {
        return false;
    }
    is_in(image.word(config.cset_at()), region_of(config, word))
}

// Copies an object out of the collection set unless it has moved before, and gives the address of its copy.
fn move_out(image: &mut Image, address: u64) -> u64
    requires can { CanClear (config_of image.old) (memory_of image.old) address }
    requires collected { begun.is_collected (config_of image.old) (memory_of image.old) address ≡ true }
    ensures config { config_of image.new ≡ config_of image.old }
    ensures words { memory_of image.new ≡ moved_out (config_of image.old) (memory_of image.old) address }
    ensures copy { result ≡ now_in (memory_of image.new) address }
{
    let header = image.word(image.config().heap_at(address));
    if forwarded(header) {
        return forwardee(header);
    }
    copy_out(image, address).unwrap()
}

// Clears the word at an index of the table: if it names an object of the collection set, it names the object's copy then.
fn clear(image: &mut Image, at: usize)
    requires at { at < table_words (config_of image.old) }
    requires can { CanClear (config_of image.old) (memory_of image.old) (slice_index (words_of image.old) at) }
    ensures config { config_of image.new ≡ config_of image.old }
    ensures words { (place : Word) → IsWord (config_of image.old) place → word_at (config_of image.old) place ≡ at → memory_of image.new ≡ cleared_at (config_of image.old) (memory_of image.old) place }
{
    let address = image.word(at);
    if !is_collected(image, address) {
        return;
    }
    let copy = move_out(image, address);
    image.set_word(at, copy);
}

// Clears the roots of a mutator.
fn clear_roots(image: &mut Image, mutator: usize)
    requires mutator { mutator < (config_of image.old).mutators }
    requires can { CanClearInTurn (config_of image.old) (memory_of image.old) (map (Root mutator) (range_with_len 0 16)) }
    ensures config { config_of image.new ≡ config_of image.old }
    ensures words { memory_of image.new ≡ cleared_in_turn (config_of image.old) (memory_of image.old) (map (Root mutator) (range_with_len 0 16)) }
{
    let config = image.config();
    for index in 0..16 {
        clear(image, config.root_at(mutator, index));
    }
}

// Clears the roots of all mutators.
fn clear_all_roots(image: &mut Image)
    requires { CanClearInTurn (config_of image.old) (memory_of image.old) (root_places (config_of image.old).mutators) }
    ensures config { config_of image.new ≡ config_of image.old }
    ensures words { memory_of image.new ≡ cleared_in_turn (config_of image.old) (memory_of image.old) (root_places (config_of image.old).mutators) }
{
    let config = image.config();
    for mutator in 0..config.mutators() {
        clear_roots(image, mutator);
    }
}

// Clears the answers of all mutators.
fn clear_answers(image: &mut Image)
    requires { CanClearInTurn (config_of image.old) (memory_of image.old) (map Answer (range_with_len 0 (config_of image.old).mutators)) }
    ensures config { config_of image.new ≡ config_of image.old }
    ensures words { memory_of image.new ≡ cleared_in_turn (config_of image.old) (memory_of image.old) (map Answer (range_with_len 0 (config_of image.old).mutators)) }
{
    let config = image.config();
    for mutator in 0..config.mutators() {
        clear(image, config.answer_at(mutator));
    }
}

// Evacuation runs: no copier is counted, and no unit is claimed.
fn start(image: &mut Image)
    ensures config { config_of image.new ≡ config_of image.old }
    ensures words { memory_of image.new ≡ evac_started (memory_of image.old) }
{
    let config = image.config();
    image.set_word(config.evac_at(), 0);
    image.set_word(config.claim_at(), 0);
    image.set_word(config.phase_at(), EVACUATION);
}

// Without a region to evacuate the cycle ends.
fn spare(image: &mut Image)
    ensures config { config_of image.new ≡ config_of image.old }
    ensures words { memory_of image.new ≡ evac_spared (memory_of image.old) }
{
    let config = image.config();
    image.set_word(config.cset_at(), 0);
    image.set_word(config.claim_at(), 0);
    image.set_word(config.phase_at(), IDLE);
}

/// Begins evacuation: the regions of a set are to be evacuated, and each object in them that a root or an answer names is
/// copied out, so that none of these names an object there. No copier is counted and no unit claimed. Without a region to
/// evacuate the cycle ends. The set is what `choose` gives, and there is room for each object that is copied. Where the image
/// holds a graph, and no region was in the collection set, it holds the same graph afterwards. Takes no memory, and time
/// linear in the words of the heap and the number of roots.
pub fn begin_evac(image: &mut Image, set: u64)
    requires set { set ≡ chosen (config_of image.old) (memory_of image.old) }
    requires can { CanBegin (config_of image.old) (memory_of image.old) }
    ensures config { config_of image.new ≡ config_of image.old }
    ensures words { memory_of image.new ≡ evac_begun (config_of image.old) (memory_of image.old) set }
    ensures holds { BeginningHolds (config_of image.old) (memory_of image.old) (memory_of image.new) }
{
    if set == 0 {
        spare(image);
        return;
    }
    image.set_word(image.config().cset_at(), set);
    clear_all_roots(image);
    clear_answers(image);
    start(image);
}
