//! Copies out what is left of the collection set.

ghost use Rattle.std.specs.Prelude.{◌≡◌, ◌*◌, true};
ghost use Rattle.heap_words.specs.Words.{Phase, Heap, IsWord};
ghost use Rattle.heap_words.specs.Phases.{evacuation_phase};
ghost use Rattle.image_graph.specs.State.{config_of, memory_of};
ghost use Rattle.cycle_words.specs.Evacuation.Copied.{CanCopyOut};
ghost use Rattle.cycle_words.specs.Finishing.Copies as left;
ghost use Rattle.cycle_words.specs.Finishing.Copies.{CanCopyFrom, copied_from, is_room_from, all_copied, is_room_for_all};
ghost use Rattle.degenerated.specs.Steps.{turn_taken, has_turn_room};

use cset_choice::copy_out;
use heap_words::forwarded;
use heap_words::phase::EVACUATION;
use image_graph::Image;
use mark_core::is_black;
use regions::{is_in, region_of};

// Whether an object is left at an address: it is marked, it is of a region of the collection set that is not pinned, and it has
// not moved.
fn is_left(image: &Image, address: u64) -> bool
    requires { IsWord (config_of image.now) (Heap address) }
    ensures { result ≡ left.is_left (config_of image.now) (memory_of image.now) address }
{
    let config = image.config();
    let region = region_of(config, address);
    if !is_in(image.word(config.cset_at()), region) || image.is_pinned(region) {
        return false;
    }
    if !is_black(image, address) {
        return false;
    }
    !forwarded(image.word(config.heap_at(address)))
}

// Copies an object out if one is left at an address. False where it finds no room.
fn copy_if_left(image: &mut Image, address: u64) -> bool
    requires inside { IsWord (config_of image.old) (Heap address) }
    requires can { left.is_left (config_of image.old) (memory_of image.old) address ≡ true → CanCopyOut (config_of image.old) (memory_of image.old) address }
    ensures config { config_of image.new ≡ config_of image.old }
    ensures words { memory_of image.new ≡ turn_taken (config_of image.old) (memory_of image.old) address }
    ensures room { result ≡ has_turn_room (config_of image.old) (memory_of image.old) address }
{
    if !is_left(image, address) {
        return true;
    }
    copy_out(image, address).is_some()
}

// Copies out what is left, up to the first object without room. False where there is one.
fn copy_set(image: &mut Image) -> bool
    requires { CanCopyFrom (config_of image.old) (memory_of image.old) (config_of image.old).region_words ((config_of image.old).regions * (config_of image.old).region_words) }
    ensures config { config_of image.new ≡ config_of image.old }
    ensures words { memory_of image.new ≡ copied_from (config_of image.old) (memory_of image.old) (config_of image.old).region_words ((config_of image.old).regions * (config_of image.old).region_words) }
    ensures room { result ≡ is_room_from (config_of image.old) (memory_of image.old) (config_of image.old).region_words ((config_of image.old).regions * (config_of image.old).region_words) }
{
    let config = image.config();
    let first = config.region_words() as u64;
    for index in 0..config.heap_size() {
        if !copy_if_left(image, first + index as u64) {
            return false;
        }
    }
    true
}

/// Copies out what is left of the collection set while objects are evacuated, in the order of addresses, up to the first
/// object that finds no room. False where there is one.
pub(crate) fn copy_rest(image: &mut Image) -> bool
    requires { memory_of image.old Phase ≡ evacuation_phase → CanCopyFrom (config_of image.old) (memory_of image.old) (config_of image.old).region_words ((config_of image.old).regions * (config_of image.old).region_words) }
    ensures config { config_of image.new ≡ config_of image.old }
    ensures words { memory_of image.new ≡ all_copied (config_of image.old) (memory_of image.old) }
    ensures room { result ≡ is_room_for_all (config_of image.old) (memory_of image.old) }
{
    let phase = image.word(image.config().phase_at());
    if phase != EVACUATION {
        return true;
    }
    copy_set(image)
}
