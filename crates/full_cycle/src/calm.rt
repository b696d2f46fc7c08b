//! Ends what is left of a collection in progress.

ghost use Rattle.std.specs.Prelude.{◌≡◌, ◌<◌, ◌≤◌, ◌*◌, ◌^◌, ◌==◌, if◌then◌else◌};
ghost use Rattle.heap_words.specs.Words.{Top, Free, table_words, write};
ghost use Rattle.image_graph.specs.Full.{empty_regions};
ghost use Rattle.image_graph.specs.State.{config_of, words_of, memory_of};
ghost use Rattle.full_cycle.specs.Steps.{calm, IsChanged};

use image_graph::Image;

// Puts 0 into a range of places.
fn clear_words(image: &mut Image, from: usize, to: usize)
    requires order { from ≤ to }
    requires inside { to ≤ table_words (config_of image.old) }
    ensures config { config_of image.new ≡ config_of image.old }
    ensures words { IsChanged from to (λ word. 0) (words_of image.old) (words_of image.new) }
{
    for at in from..to {
        image.set_word(at, 0);
    }
}

/// Puts 0 into the words of a collection in progress: the phase, the collection set, what is claimed and asked for, the
/// tops that collections noted, the shared region, buffers, counts of SATB buffers, and mark words.
pub(crate) fn clear_collection(image: &mut Image)
    ensures config { config_of image.new ≡ config_of image.old }
    ensures words { memory_of image.new ≡ calm (memory_of image.old) }
{
    let config = image.config();
    clear_words(image, config.phase_at(), config.free_at());
    clear_words(image, config.evac_at(), config.top_at(0));
    clear_words(image, config.tams_at(0), config.root_at(0, 0));
    clear_words(image, config.count_at(0), config.buffer_at(0, 0));
    clear_words(image, config.grey_at(0), config.heap_start());
    image.set_word(config.share_at(), 0);
}

// The set of a region, if its top is 0, and else no set.
fn set_if_empty(region: usize, top: u64) -> u64
    requires { region < 64 }
    ensures { result ≡ (if top == 0 then 1 else 0) * 2 ^ region }
{
    if top == 0 { 1 << region } else { 0 }
}

/// Makes the regions free whose top is 0, and no others.
pub(crate) fn free_empty(image: &mut Image)
    ensures config { config_of image.new ≡ config_of image.old }
    ensures words { memory_of image.new ≡ write (memory_of image.old) Free (empty_regions (λ region. memory_of image.old (Top region)) (config_of image.old).regions) }
{
    let config = image.config();
    let mut free = 0u64;
    for region in 0..config.regions() {
        free += set_if_empty(region, image.top(region));
    }
    image.set_word(config.free_at(), free);
}
