//! Renews roots and answers once the objects were packed.

ghost use Rattle.std.specs.Prelude.{ℕ, ◌≡◌, ◌<◌, ◌≤◌, slice_index};
ghost use Rattle.heap_words.specs.Words.{Root, Answer, table_words};
ghost use Rattle.regions.specs.Table.{IsInTable};
ghost use Rattle.image_graph.specs.State.{config_of, words_of, memory_of, places_of};
ghost use Rattle.full_cycle.specs.Steps.{renewed_by, roots_renewed, IsChanged};

use image_graph::Image;

// What a root or an answer becomes.
fn renewed(image: &Image, word: u64) -> u64
    requires { 1 < word → IsInTable (config_of image.now).region_words (places_of image.now) word }
    ensures { result ≡ renewed_by (config_of image.now).region_words (places_of image.now) word }
{
    if word <= 1 { word } else { image.renewed(word) }
}

// Renews the addresses among the words of a range of places.
fn renew_words(image: &mut Image, from: usize, to: usize)
    requires order { from ≤ to }
    requires inside { to ≤ table_words (config_of image.old) }
    requires table { (index : ℕ) → from ≤ index → index < to → 1 < slice_index (words_of image.old) index → IsInTable (config_of image.old).region_words (places_of image.old) (slice_index (words_of image.old) index) }
    ensures config { config_of image.new ≡ config_of image.old }
    ensures places { places_of image.new ≡ places_of image.old }
    ensures words { IsChanged from to (renewed_by (config_of image.old).region_words (places_of image.old)) (words_of image.old) (words_of image.new) }
{
    for at in from..to {
        let place = renewed(image, image.word(at));
        image.set_word(at, place);
    }
}

/// Renews the roots and the answers that are addresses. 0 and 1 are no address, and stay.
pub(crate) fn renew_roots(image: &mut Image)
    requires roots { (mutator index : ℕ) → mutator < (config_of image.old).mutators → index < 16 → IsInTable (config_of image.old).region_words (places_of image.old) (memory_of image.old (Root mutator index)) }
    requires answers { (mutator : ℕ) → mutator < (config_of image.old).mutators → 1 < memory_of image.old (Answer mutator) → IsInTable (config_of image.old).region_words (places_of image.old) (memory_of image.old (Answer mutator)) }
    ensures config { config_of image.new ≡ config_of image.old }
    ensures words { memory_of image.new ≡ roots_renewed (config_of image.old) (places_of image.old) (memory_of image.old) }
{
    let config = image.config();
    renew_words(image, config.root_at(0, 0), config.count_at(0));
    renew_words(image, config.answer_at(0), config.grey_at(0));
}
