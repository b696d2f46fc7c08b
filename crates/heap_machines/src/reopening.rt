//! The words that say who is inside.

ghost use Rattle.std.specs.Prelude.{◌≡◌, ◌+◌};
ghost use Rattle.image_graph.specs.State.{config_of, memory_of};
ghost use Rattle.heap_machines.specs.Reopened.{words_reopened, words_left_out};

use heap_words::Config;
use image_graph::Image;

// Says of each mutator and each helper that it is outside.
fn leave_all(image: &mut Image, config: Config)
    requires config { config_of image.old ≡ config }
    ensures config { config_of image.new ≡ config }
    ensures words { memory_of image.new ≡ words_left_out (config.mutators + config.helpers) (memory_of image.old) }
{
    for seat in 0..config.mutators() + config.helpers() {
        image.set_word(config.state_at(seat), 0);
    }
}

/// Makes of the words of a heap at rest those of one in which nothing has happened yet: no pause is wanted, nobody has ended, and nobody is
/// inside. All other words stay.
pub fn reopen_words(image: &mut Image)
    ensures config { config_of image.new ≡ config_of image.old }
    ensures words { memory_of image.new ≡ words_reopened (config_of image.old) (memory_of image.old) }
{
    let config = image.config();
    leave_all(image, config);
    image.set_word(config.pause_at(), 0);
    image.set_word(config.left_at(), config.mutators() as u64);
    image.set_word(config.end_at(), 0);
}
