//! The closing of the marks.

ghost use Rattle.std.specs.Prelude.{◌≡◌};
ghost use Rattle.image_graph.specs.State.{config_of, memory_of};
ghost use Rattle.image_graph.specs.Holds.{HoldsSome};
ghost use Rattle.cycle_words.specs.Marking.Close.{closed};
ghost use Rattle.mark_core.specs.Result.{MarksSome, MarksTheTraced, MarksThrough};

use crate::clear::empty_buffers;
use crate::colour::mark_found;
use crate::trace::find_traced;
use image_graph::Image;

/// Closes the marks: the entries of the buffers become grey, and as long as an object is grey and not black, it becomes
/// black, and what its references name becomes grey. The buffers are empty then. The image holds a graph, and marking
/// runs. The image holds the same graph afterwards, and each object that can be reached is marked or new. Takes no memory,
/// and time linear in the words of the heap.
pub fn close_marks(image: &mut Image)
    requires { MarksSome (config_of image.old) (memory_of image.old) }
    ensures config { config_of image.new ≡ config_of image.old }
    ensures words { memory_of image.new ≡ closed (config_of image.old) (memory_of image.old) }
    ensures traced { MarksTheTraced (config_of image.old) (memory_of image.old) (memory_of image.new) }
    ensures through { MarksThrough (config_of image.old) (memory_of image.old) (memory_of image.new) }
    ensures holds { HoldsSome (config_of image.old) (memory_of image.new) }
{
    find_traced(image);
    mark_found(image);
    empty_buffers(image);
}
