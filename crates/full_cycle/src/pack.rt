//! Packs what was found, by the names of words.

ghost use Rattle.std.specs.Prelude.{ℕ, ◌≡◌, ◌<◌, ◌==◌, ◌&&◌, true};
ghost use Rattle.image_graph.specs.Full.{now_in, held_in, kept_in, place_in};
ghost use Rattle.image_graph.specs.Pinned.{is_pinned, is_pinned_below, is_row_pinned, filled_in, CanFill};
ghost use Rattle.image_graph.specs.Leftovers.{is_left_over};
ghost use Rattle.image_graph.specs.State.{config_of, memory_of, found_of, marks_of, places_of, AreFound};
ghost use Rattle.full_cycle.specs.Collect.{CanCollect, LeadsToHeld};
ghost use Rattle.full_cycle.specs.Steps.{moved_in, IsRenewedAs};

use image_graph::{Image, Leftover};

/// Packs the objects that were found, which are those that roots, answers and pin slots lead to. By the new places, each word that
/// led to one can be renewed.
pub(crate) fn pack_held(image: &mut Image)
    requires can { CanCollect (config_of image.old) (memory_of image.old) }
    requires found { AreFound image.old }
    requires held { found_of image.old ≡ held_in (config_of image.old) (memory_of image.old) }
    ensures config { config_of image.new ≡ config_of image.old }
    ensures found { found_of image.new ≡ found_of image.old }
    ensures still { AreFound image.new }
    ensures words { memory_of image.new ≡ moved_in (config_of image.old) (is_row_pinned (config_of image.old) (memory_of image.old)) (now_in (memory_of image.old)) (kept_in (config_of image.old) (memory_of image.old)) (memory_of image.old) }
    ensures renews { (word : ℕ) → LeadsToHeld (config_of image.old) (memory_of image.old) word
        → IsRenewedAs (config_of image.old).region_words (place_in (config_of image.old) (is_row_pinned (config_of image.old) (memory_of image.old)) (kept_in (config_of image.old) (memory_of image.old))) (now_in (memory_of image.old)) (places_of image.new) word }
{
    image.pack_found();
}

// Makes the objects of a region that were not found words that only fill, if it is pinned.
fn fill_if_pinned(image: &mut Image, region: usize)
    requires region { region < (config_of image.old).regions }
    requires can { is_pinned (config_of image.old) (memory_of image.old) region ≡ true → CanFill (config_of image.old) (memory_of image.old) region }
    requires found { AreFound image.old }
    ensures config { config_of image.new ≡ config_of image.old }
    ensures places { places_of image.new ≡ places_of image.old }
    ensures found { found_of image.new ≡ found_of image.old }
    ensures marks { marks_of image.new ≡ marks_of image.old }
    ensures words { memory_of image.new ≡ filled_in (config_of image.old) (λ any_region. (any_region == region) && is_pinned (config_of image.old) (memory_of image.old) any_region) (is_left_over (memory_of image.old) (found_of image.old) Leftover.NotFound) (memory_of image.old) }
{
    if image.is_pinned(region) {
        image.fill_leftovers(Leftover::NotFound, region);
    }
}

/// Makes the objects of pinned regions that were not found words that only fill.
pub(crate) fn fill_unkept(image: &mut Image)
    requires can { (region : ℕ) → region < (config_of image.old).regions → is_pinned (config_of image.old) (memory_of image.old) region ≡ true → CanFill (config_of image.old) (memory_of image.old) region }
    requires found { AreFound image.old }
    ensures config { config_of image.new ≡ config_of image.old }
    ensures places { places_of image.new ≡ places_of image.old }
    ensures words { memory_of image.new ≡ filled_in (config_of image.old) (is_pinned_below (config_of image.old) (memory_of image.old) (config_of image.old).regions) (is_left_over (memory_of image.old) (found_of image.old) Leftover.NotFound) (memory_of image.old) }
{
    let config = image.config();
    for region in 0..config.regions() {
        fill_if_pinned(image, region);
    }
}
