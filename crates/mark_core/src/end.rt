//! The end of marking.

ghost use Rattle.std.specs.Prelude.{◌≡◌};
ghost use Rattle.image_graph.specs.State.{config_of, memory_of};
ghost use Rattle.image_graph.specs.Holds.{HoldsSome};
ghost use Rattle.cycle_words.specs.Marking.Close.{closed};
ghost use Rattle.cycle_words.specs.Marking.Final.{dead_in, final_marked};
ghost use Rattle.mark_core.specs.Result.{MarksSome, EndsMarking, FreesTheDead};

use crate::close::close_marks;
use crate::dead::free_dead;
use image_graph::Image;

/// Ends marking: the marks are closed, and the regions are freed in which nothing lives. These are the regions in use that
/// are neither current nor pinned, in which nothing was allocated since marking began and nothing is marked. The image holds a
/// graph, and marking runs. The image holds the same graph afterwards, and each object that can be reached is marked or
/// new. Takes no memory, and time linear in the words of the heap.
pub fn final_mark(image: &mut Image)
    requires { MarksSome (config_of image.old) (memory_of image.old) }
    ensures config { config_of image.new ≡ config_of image.old }
    ensures words { memory_of image.new ≡ final_marked (config_of image.old) (memory_of image.old) }
    ensures freed { FreesTheDead (config_of image.old) (memory_of image.old) (closed (config_of image.old) (memory_of image.old)) (memory_of image.new) }
    ensures ends { EndsMarking (config_of image.old) (dead_in (config_of image.old) (memory_of image.old)) (memory_of image.old) (memory_of image.new) }
    ensures holds { HoldsSome (config_of image.old) (memory_of image.new) }
{
    close_marks(image);
    free_dead(image);
}
