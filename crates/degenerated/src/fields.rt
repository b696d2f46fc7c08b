//! Updates the references of kept objects that stay: outside the collection set, or in a pinned region of it.

ghost use Rattle.std.specs.Prelude.{◌≡◌, ◌+◌, ◌^◌, ◌<◌, true, false};
ghost use Rattle.heap_words.specs.Words.{Cset, Heap, IsWord};
ghost use Rattle.regions.specs.Walk.{is_filler};
ghost use Rattle.image_graph.specs.State.{config_of, memory_of, places_of};
ghost use Rattle.cycle_words.specs.Finishing.Updated as updates;
ghost use Rattle.cycle_words.specs.Finishing.Updated.{CanUpdateAll, stays, is_staying};
ghost use Rattle.image_graph.specs.Pinned.{object_of};
ghost use Rattle.degenerated.specs.Steps.{kept_now, updated_by, fields_updated, is_at, is_of, is_of_first};

use cset_choice::is_collected;
use heap_words::{filler_words, forwarded, refs_of};
use image_graph::Image;
use mark_core::is_black;
use regions::{base, is_in, region_of};

/// What a word becomes: the address of an object of the collection set that has moved becomes that of its copy, by the header
/// as it was kept: in pinned regions of the set words change that a reference may name.
pub(crate) fn updated(image: &Image, word: u64) -> u64
    requires { memory_of image.now Cset < 2 ^ (config_of image.now).regions }
    ensures { result ≡ updated_by (config_of image.now) (kept_now image.now) (memory_of image.now) word }
{
    if is_collected(image, word) {
        image.kept_copy(word)
    } else {
        word
    }
}

// Whether an object is kept and has not moved: it is marked, or was allocated since marking began.
fn is_kept(image: &Image, object: u64) -> bool
    requires { IsWord (config_of image.now) (Heap object) }
    ensures { result ≡ updates.is_kept_here (config_of image.now) (memory_of image.now) object }
{
    let config = image.config();
    if forwarded(image.word(config.heap_at(object))) {
        return false;
    }
    if is_black(image, object) {
        return true;
    }
    let region = region_of(config, object);
    image.word(config.tams_at(region)) <= object - base(config, region)
}

// Whether an address is that of a reference of an object. Words that only fill have none.
fn is_reference(image: &Image, object: u64, address: u64) -> bool
    requires header { IsWord (config_of image.now) (Heap object) }
    requires shape { is_filler (memory_of image.now (Heap object)) ≡ false → IsWord (config_of image.now) (Heap (object + 1)) }
    ensures { result ≡ updates.is_reference (memory_of image.now) object address }
{
    let (header, shape) = image.header_and_shape(object);
    if filler_words(header).is_some() {
        return false;
    }
    object + 3 <= address && address < object + 3 + refs_of(shape)
}

// Updates the word at an address that an object has, if it is a reference of it and the object is kept.
fn update_word(image: &mut Image, object: u64, address: u64)
    requires can { CanUpdateAll (config_of image.old) (memory_of image.old) }
    requires stays { is_staying (config_of image.old) (memory_of image.old) address ≡ true }
    requires object { object ≡ object_of (config_of image.old) (memory_of image.old) address }
    ensures config { config_of image.new ≡ config_of image.old }
    ensures places { places_of image.new ≡ places_of image.old }
    ensures words { memory_of image.new ≡ fields_updated (config_of image.old) (kept_now image.old) (is_at address) (memory_of image.old) }
{
    if !is_reference(image, object, address) {
        return;
    }
    if !is_kept(image, object) {
        return;
    }
    let at = image.config().heap_at(address);
    let word = updated(image, image.word(at));
    image.set_word(at, word);
}

// Updates the references of the kept objects of a region where objects stay. Each object begins where the one before
// it ends, or words that only fill.
fn update_region(image: &mut Image, region: usize)
    requires can { CanUpdateAll (config_of image.old) (memory_of image.old) }
    requires region { region < (config_of image.old).regions }
    requires stays { stays (config_of image.old) (memory_of image.old) region ≡ true }
    ensures config { config_of image.new ≡ config_of image.old }
    ensures places { places_of image.new ≡ places_of image.old }
    ensures words { memory_of image.new ≡ fields_updated (config_of image.old) (kept_now image.old) (is_of (config_of image.old) region) (memory_of image.old) }
{
    let first = base(image.config(), region);
    let top = image.top(region);
    let mut object = first;
    for offset in 0..top {
        if image.ends_at(object, first + offset) {
            object = first + offset;
        }
        update_word(image, object, first + offset);
    }
}

// Updates the references of the kept objects of a region, unless it is of the collection set and not pinned.
fn update_if_staying(image: &mut Image, region: usize)
    requires can { CanUpdateAll (config_of image.old) (memory_of image.old) }
    requires region { region < (config_of image.old).regions }
    ensures config { config_of image.new ≡ config_of image.old }
    ensures places { places_of image.new ≡ places_of image.old }
    ensures words { memory_of image.new ≡ fields_updated (config_of image.old) (kept_now image.old) (is_of (config_of image.old) region) (memory_of image.old) }
{
    if is_in(image.word(image.config().cset_at()), region) && !image.is_pinned(region) {
        return;
    }
    update_region(image, region);
}

/// Updates the references of all kept objects that stay.
pub(crate) fn update_fields(image: &mut Image)
    requires { CanUpdateAll (config_of image.old) (memory_of image.old) }
    ensures config { config_of image.new ≡ config_of image.old }
    ensures places { places_of image.new ≡ places_of image.old }
    ensures words { memory_of image.new ≡ fields_updated (config_of image.old) (kept_now image.old) (is_of_first (config_of image.old) (config_of image.old).regions) (memory_of image.old) }
{
    let config = image.config();
    for region in 0..config.regions() {
        update_if_staying(image, region);
    }
}
