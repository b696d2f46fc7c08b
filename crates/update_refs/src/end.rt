//! The end of updating.

ghost use Rattle.std.specs.Prelude.{◌≡◌, ◌<◌, true, false};
ghost use Rattle.image_graph.specs.State.{config_of, memory_of};
ghost use Rattle.cycle_words.specs.Marking.Final.{freed};
ghost use Rattle.mark_core.specs.Steps.{freed_one};
ghost use Rattle.cycle_words.specs.Updating.Changes.{is_chosen, cycle_ended, final_updated};
ghost use Rattle.cycle_words.specs.StillHolds.{EndingHolds};

use heap_words::phase::IDLE;
use image_graph::Image;
use mark_core::free_region;
use regions::is_in;

// Frees a region if it is in the collection set.
fn free_if_chosen(image: &mut Image, region: usize)
    requires { region < (config_of image.old).regions }
    ensures config { config_of image.new ≡ config_of image.old }
    ensures freed { is_chosen (memory_of image.old) region ≡ true → memory_of image.new ≡ freed_one region (memory_of image.old) }
    ensures left { is_chosen (memory_of image.old) region ≡ false → memory_of image.new ≡ memory_of image.old }
{
    if is_in(image.word(image.config().cset_at()), region) {
        free_region(image, region);
    }
}

/// Frees exactly the regions of the collection set. Takes no memory, and time linear in the number of regions.
pub fn free_set(image: &mut Image)
    ensures config { config_of image.new ≡ config_of image.old }
    ensures words { memory_of image.new ≡ freed (config_of image.old) (is_chosen (memory_of image.old)) (memory_of image.old) }
{
    let config = image.config();
    for region in 0..config.regions() {
        free_if_chosen(image, region);
    }
}

/// No cycle runs: the collection set is empty, and no unit is claimed.
pub fn end_updating(image: &mut Image)
    ensures config { config_of image.new ≡ config_of image.old }
    ensures words { memory_of image.new ≡ cycle_ended (memory_of image.old) }
{
    let config = image.config();
    image.set_word(config.cset_at(), 0);
    image.set_word(config.claim_at(), 0);
    image.set_word(config.phase_at(), IDLE);
}

/// Ends the updating of references, and the cycle with it: the regions of the collection set are freed, the set is empty, and
/// no unit is claimed. All other words stay. Where the image holds a graph, and nothing names the set, no pin slot either, it holds the same graph
/// afterwards. Takes no memory, and time linear in the number of regions.
pub fn final_update(image: &mut Image)
    ensures config { config_of image.new ≡ config_of image.old }
    ensures words { memory_of image.new ≡ final_updated (config_of image.old) (memory_of image.old) }
    ensures holds { EndingHolds (config_of image.old) (memory_of image.old) (memory_of image.new) }
{
    free_set(image);
    end_updating(image);
}
