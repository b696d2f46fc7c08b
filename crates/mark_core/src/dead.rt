//! Frees the regions in which nothing lives.

ghost use Rattle.std.specs.Prelude.{ℕ, ◌≡◌, ◌<◌, true, false};
ghost use Rattle.image_graph.specs.State.{config_of, memory_of};
ghost use Rattle.cycle_words.specs.Marking.Final as final;
ghost use Rattle.mark_core.specs.Steps.{freed_one, freed_below};

use crate::look::next_black;
use image_graph::Image;
use regions::{base, is_in};

// Whether some address of a region is black.
fn has_black(image: &Image, region: usize) -> bool
    requires { region < (config_of image.now).regions }
    ensures { result ≡ final.has_black (config_of image.now) (memory_of image.now) region }
{
    let first = base(image.config(), region);
    let end = first + image.config().region_words() as u64;
    next_black(image, first, end) < end
}

// Whether a region is in use, neither current nor pinned, without a new object and without a mark.
fn is_dead(image: &Image, region: usize) -> bool
    requires { region < (config_of image.now).regions }
    ensures { result ≡ final.is_dead (config_of image.now) (memory_of image.now) region }
{
    let config = image.config();
    if is_in(image.word(config.free_at()), region) || image.is_current(region) {
        return false;
    }
    if image.is_pinned(region) {
        return false;
    }
    if image.top(region) != image.word(config.tams_at(region)) {
        return false;
    }
    !has_black(image, region)
}

/// Frees a region: it is in the set of free regions besides, and no word of it is in use. Takes no memory.
pub fn free_region(image: &mut Image, region: usize)
    requires { region < (config_of image.old).regions }
    ensures config { config_of image.new ≡ config_of image.old }
    ensures words { memory_of image.new ≡ freed_one region (memory_of image.old) }
{
    let config = image.config();
    let free = image.word(config.free_at());
    image.set_word(config.free_at(), free | 1 << region);
    image.set_word(config.top_at(region), 0);
    image.set_word(config.tams_at(region), 0);
    image.set_word(config.limit_at(region), 0);
}

// Frees a region if it is dead.
fn free_if_dead(image: &mut Image, region: usize)
    requires { region < (config_of image.old).regions }
    ensures config { config_of image.new ≡ config_of image.old }
    ensures freed { final.is_dead (config_of image.old) (memory_of image.old) region ≡ true → memory_of image.new ≡ freed_one region (memory_of image.old) }
    ensures left { final.is_dead (config_of image.old) (memory_of image.old) region ≡ false → memory_of image.new ≡ memory_of image.old }
{
    if is_dead(image, region) {
        free_region(image, region);
    }
}

/// Frees exactly the dead regions.
pub(crate) fn free_dead(image: &mut Image)
    ensures config { config_of image.new ≡ config_of image.old }
    ensures words { memory_of image.new ≡ freed_below (final.is_dead (config_of image.old) (memory_of image.old)) (config_of image.old).regions (memory_of image.old) }
{
    let config = image.config();
    for region in 0..config.regions() {
        free_if_dead(image, region);
    }
}
