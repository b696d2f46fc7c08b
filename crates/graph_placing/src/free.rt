//! Frees the regions in which nothing was placed.

ghost use Rattle.std.specs.Prelude.{◌≡◌, ◌<◌, ◌*◌, ◌^◌, ◌==◌, if◌then◌else◌};
ghost use Rattle.heap_words.specs.Words.{Top, Free, write};
ghost use Rattle.image_graph.specs.Full.{empty_regions};
ghost use Rattle.image_graph.specs.State.{config_of, memory_of};

use image_graph::Image;

// The set of a region, if its top is 0, and else no set.
fn set_if_empty(region: usize, top: u64) -> u64
    requires { region < 64 }
    ensures { result ≡ (if top == 0 then 1 else 0) * 2 ^ region }
{
    if top == 0 { 1 << region } else { 0 }
}

/// Makes the regions free whose top is 0, and no others.
pub(crate) fn free_empty(image: &mut Image)
    ensures config { config_of image.new ≡ config_of image.old }
    ensures words { memory_of image.new ≡ write (memory_of image.old) Free (empty_regions (λ region. memory_of image.old (Top region)) (config_of image.old).regions) }
{
    let config = image.config();
    let mut free = 0u64;
    for region in 0..config.regions() {
        free += set_if_empty(region, image.top(region));
    }
    image.set_word(config.free_at(), free);
}
