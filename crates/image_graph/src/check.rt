//! The whole check.

ghost use Rattle.std.specs.Prelude.{IsTrue};
ghost use Rattle.image_graph.specs.State.{config_of, memory_of};
ghost use Rattle.image_graph.specs.Holds.{HoldsSome, HoldsSized};

use crate::Image;
use crate::objects::{are_in_order, lie_right, read_right};
use crate::rest::{
    are_mutators_right, are_regions_right, has_no_buffers, is_free_word_right, is_share_right,
};

/// Whether the words of an image are laid out as a graph: `objects` are the addresses of all its objects, in their order,
/// in which their names go up, too. Objects fill each region from its base to its top, have plain headers and fields that
/// are null or name objects; roots are null or name objects, and pin slots are empty; who waits asks for an object that
/// can be and has the next name of its thread; nothing was made for anybody, no seat has a buffer, and a region that is
/// shared is in use and not collected. The image then holds a graph, by objects that say how many words they have. It may
/// hold one where this is false.
pub fn stands(image: &Image, objects: &[u64]) -> bool
    ensures holds { IsTrue result → HoldsSome (config_of image.now) (memory_of image.now) }
    ensures sized { IsTrue result → HoldsSized (config_of image.now) (memory_of image.now) }
{
    if !are_regions_right(image, objects) {
        return false;
    }
    if !is_free_word_right(image) {
        return false;
    }
    if !has_no_buffers(image) {
        return false;
    }
    if !is_share_right(image) {
        return false;
    }
    if !lie_right(image, objects) {
        return false;
    }
    if !are_in_order(image, objects) {
        return false;
    }
    if !read_right(image, objects) {
        return false;
    }
    are_mutators_right(image, objects)
}
