//! Ends a cycle in one pause.

ghost use Rattle.std.specs.Prelude.{◌≡◌, ◌<◌, ◌*◌, ◌↔◌, ◌&&◌, ◌==◌, true, false};
ghost use Rattle.image_graph.specs.State.{config_of, memory_of};
ghost use Rattle.heap_words.specs.Words.{Phase};
ghost use Rattle.heap_words.specs.Phases.{evacuation_phase};
ghost use Rattle.cycle_words.specs.Finishing.Copies.{CanCopyFrom, all_copied, is_room_for_all};
ghost use Rattle.cycle_words.specs.Finishing.Updated.{CanUpdateAll, all_updated};
ghost use Rattle.image_graph.specs.Pinned.{filled_in, CanFill};
ghost use Rattle.mark_core.specs.Steps.{freed_one};
ghost use Rattle.cycle_words.specs.Updating.Changes.{is_chosen};
ghost use Rattle.cycle_words.specs.Finishing.Finish.{CanFinish, CanFree, finished_from, finished, nobody_waits, is_whole, is_to_free, is_to_stay, has_moved, set_left, set_freed};
ghost use Rattle.cycle_words.specs.StillHolds.{LeavingHolds, FinishingHolds};

use crate::copies::copy_rest;
use crate::update::update_all;
use image_graph::{Image, Leftover};
use mark_core::free_region;
use regions::is_in;
use update_refs::end_updating;

/// How finishing a cycle has ended.
#[derive(Clone, Copy)]
pub enum Finished {
    /// Each object that was left was copied out, and each request served.
    Whole,
    /// An object that was left found no room, and the rest of the cycle was not done; or it was, and then a request found no
    /// room.
    Short,
}

// Frees a region of the collection set; if it is pinned, what has moved there becomes words that only fill.
fn free_or_fill(image: &mut Image, region: usize)
    requires region { region < (config_of image.old).regions }
    requires can { is_to_stay (config_of image.old) (memory_of image.old) region ≡ true → CanFill (config_of image.old) (memory_of image.old) region }
    ensures config { config_of image.new ≡ config_of image.old }
    ensures spares { is_chosen (memory_of image.old) region ≡ false → memory_of image.new ≡ memory_of image.old }
    ensures fills { is_to_stay (config_of image.old) (memory_of image.old) region ≡ true → memory_of image.new ≡ filled_in (config_of image.old) (λ any_region. any_region == region) (has_moved (memory_of image.old)) (memory_of image.old) }
    ensures frees { is_to_free (config_of image.old) (memory_of image.old) region ≡ true → memory_of image.new ≡ freed_one region (memory_of image.old) }
{
    if !is_in(image.word(image.config().cset_at()), region) {
        return;
    }
    if image.is_pinned(region) {
        image.fill_leftovers(Leftover::Moved, region);
    } else {
        free_region(image, region);
    }
}

// Frees the regions of the collection set that are not pinned; in pinned ones what has moved becomes words that only fill.
fn free_set(image: &mut Image)
    requires { CanFree (config_of image.old) (memory_of image.old) }
    ensures config { config_of image.new ≡ config_of image.old }
    ensures words { memory_of image.new ≡ set_left (config_of image.old) (memory_of image.old) }
{
    let config = image.config();
    for region in 0..config.regions() {
        free_or_fill(image, region);
    }
}

// Frees the collection set. Nothing is left of the cycle: no copier is counted, and nothing is asked for.
fn end_cycle(image: &mut Image)
    requires { CanFree (config_of image.old) (memory_of image.old) }
    ensures config { config_of image.new ≡ config_of image.old }
    ensures words { memory_of image.new ≡ set_freed (config_of image.old) (memory_of image.old) }
    ensures holds { LeavingHolds (config_of image.old) (memory_of image.old) (memory_of image.new) }
{
    free_set(image);
    end_updating(image);
    let config = image.config();
    image.set_word(config.evac_at(), 0);
    image.set_word(config.ask_at(), 0);
}

// Ends a cycle in one pause, where nobody has a buffer.
fn end(image: &mut Image) -> Finished
    requires copies { memory_of image.old Phase ≡ evacuation_phase → CanCopyFrom (config_of image.old) (memory_of image.old) (config_of image.old).region_words ((config_of image.old).regions * (config_of image.old).region_words) }
    requires updates { is_room_for_all (config_of image.old) (memory_of image.old) ≡ true → CanUpdateAll (config_of image.old) (all_copied (config_of image.old) (memory_of image.old)) }
    requires frees { is_room_for_all (config_of image.old) (memory_of image.old) ≡ true → CanFree (config_of image.old) (all_updated (config_of image.old) (all_copied (config_of image.old) (memory_of image.old))) }
    ensures config { config_of image.new ≡ config_of image.old }
    ensures words { memory_of image.new ≡ finished_from (config_of image.old) (memory_of image.old) }
    ensures whole { (result ≡ Finished.Whole) ↔ ((is_room_for_all (config_of image.old) (memory_of image.old) && nobody_waits (config_of image.old) (finished_from (config_of image.old) (memory_of image.old))) ≡ true) }
{
    if !copy_rest(image) {
        return Finished::Short;
    }
    update_all(image);
    end_cycle(image);
    if image.give_turns() {
        Finished::Whole
    } else {
        Finished::Short
    }
}

/// Ends a cycle in one pause. Buffers are let go. While objects are evacuated, what is left of the collection set is copied out: Short where an
/// object finds no room. Then all references are updated, the regions of the set that are not pinned are freed, in the others what has moved becomes words that only
/// fill, and the cycle is over. At last who waits is
/// served: Short where a request finds no room. Where the image holds a graph, it holds the same graph afterwards, whole or
/// short. Takes no memory, and time linear in the words of the heap.
pub fn finish(image: &mut Image) -> Finished
    requires { CanFinish (config_of image.old) (memory_of image.old) }
    ensures config { config_of image.new ≡ config_of image.old }
    ensures words { memory_of image.new ≡ finished (config_of image.old) (memory_of image.old) }
    ensures holds { FinishingHolds (config_of image.old) (memory_of image.old) (memory_of image.new) }
    ensures whole { (result ≡ Finished.Whole) ↔ (is_whole (config_of image.old) (memory_of image.old) ≡ true) }
{
    image.let_go();
    end(image)
}
