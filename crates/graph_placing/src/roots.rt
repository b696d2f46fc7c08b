//! Stores the roots of a text into an image.

ghost use Rattle.std.specs.Prelude.{◌≡◌, ◌<◌};
ghost use Rattle.image_graph.specs.State.{config_of, memory_of};
ghost use Rattle.graph_placing.specs.PlaceableText.{IsPlaceable};
ghost use Rattle.graph_placing.specs.Writing.{AreAddresses, roots_stored, all_roots_stored};

use super::rows::word_for;
use image_graph::Image;
use shen_graph::GraphText;

// Stores the roots of a mutator.
fn store_roots_of(image: &mut Image, text: &GraphText, addresses: &[u64], mutator: usize)
    requires whole { IsPlaceable (config_of image.old) text.now }
    requires addresses { AreAddresses (config_of image.old) text.now addresses.now }
    requires mutator { mutator < (config_of image.old).mutators }
    ensures config { config_of image.new ≡ config_of image.old }
    ensures words { memory_of image.new ≡ roots_stored (config_of image.old) text.now mutator 16 (memory_of image.old) }
{
    let config = image.config();
    for index in 0..16 {
        let root = text.root_at(mutator as u32 + 1, index);
        let word = word_for(config, text, addresses, root);
        image.set_word(config.root_at(mutator, index), word);
    }
}

/// Stores the roots of all mutators.
pub(crate) fn store_roots(image: &mut Image, text: &GraphText, addresses: &[u64])
    requires whole { IsPlaceable (config_of image.old) text.now }
    requires addresses { AreAddresses (config_of image.old) text.now addresses.now }
    ensures config { config_of image.new ≡ config_of image.old }
    ensures words { memory_of image.new ≡ all_roots_stored (config_of image.old) text.now (config_of image.old).mutators (memory_of image.old) }
{
    for mutator in 0..image.config().mutators() {
        store_roots_of(image, text, addresses, mutator);
    }
}
