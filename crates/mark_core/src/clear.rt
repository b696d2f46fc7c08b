//! Empties the buffers of the mutators.

ghost use Rattle.std.specs.Prelude.{◌≡◌};
ghost use Rattle.image_graph.specs.State.{config_of, memory_of};
ghost use Rattle.mark_core.specs.Steps.{emptied};

use image_graph::Image;

/// No buffer has an entry any more.
pub(crate) fn empty_buffers(image: &mut Image)
    ensures config { config_of image.new ≡ config_of image.old }
    ensures words { memory_of image.new ≡ emptied (config_of image.old).mutators (memory_of image.old) }
{
    let config = image.config();
    for mutator in 0..config.mutators() {
        image.set_word(config.count_at(mutator), 0);
    }
}
