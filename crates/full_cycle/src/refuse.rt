//! Refuses the requests for which no region has room.

ghost use Rattle.std.specs.Prelude.{◌≡◌, ◌≢◌, ◌<◌};
ghost use Rattle.heap_words.specs.Words.{Wait, Answer, write};
ghost use Rattle.image_graph.specs.Full.{refused};
ghost use Rattle.image_graph.specs.State.{config_of, memory_of};

use image_graph::Image;

// Answers a mutator whose request is left by 1.
fn refuse_one(image: &mut Image, mutator: usize)
    requires { mutator < (config_of image.old).mutators }
    ensures config { config_of image.new ≡ config_of image.old }
    ensures idle { memory_of image.old (Wait mutator) ≡ 0 → memory_of image.new ≡ memory_of image.old }
    ensures waits { memory_of image.old (Wait mutator) ≢ 0 → memory_of image.new ≡ write (write (memory_of image.old) (Answer mutator) 1) (Wait mutator) 0 }
{
    let config = image.config();
    if image.word(config.wait_at(mutator)) == 0 {
        return;
    }
    image.set_word(config.answer_at(mutator), 1);
    image.set_word(config.wait_at(mutator), 0);
}

/// Answers each request that is left by 1, that the heap is full.
pub(crate) fn refuse(image: &mut Image)
    ensures config { config_of image.new ≡ config_of image.old }
    ensures words { memory_of image.new ≡ refused (memory_of image.old) }
{
    for mutator in 0..image.config().mutators() {
        refuse_one(image, mutator);
    }
}
