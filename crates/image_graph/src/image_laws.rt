//! All words of a heap in a pause: the image that a pause works on while no machine of the heap makes a step. And what a pause makes of
//! these words, by their names, of the buffers of seats, and in a full collection of all: that they represent the same graph afterwards,
//! and who waits is answered.

ghost use Rattle.image_graph.specs.Left.{HoldingStands};

/// A law: the words of an image that holds a graph stand for it, by current copies, in whatever way it holds it.
pub fn holding_stands()
    ensures { HoldingStands }
{}
