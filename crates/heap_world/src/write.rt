//! Writes the graph that a heap stands for.

ghost use Rattle.std.specs.Prelude.{◌≡◌, ◌+◌, ◌*◌, ◌^◌, ◌<◌, ◌≤◌, ℕ, Option, length, vec_capacity};
ghost use Rattle.shen_graph.specs.declared.name.Name.{Name};
ghost use Rattle.shen_graph.specs.Graph.{Graph};
ghost use Rattle.heap_world.specs.Walk.{IsMarked};
ghost use Rattle.heap_world.specs.Shows.{ShowsGraph, WordsStand, StandForSome};

use crate::rows::{set_pins, set_roots, write_objects};
use crate::walk::find_reachable;
use shen_graph::GraphText;

/// Writes the graph that a heap stands for: a row for each object that the roots and pin slots lead to, by its current copy, in
/// the order of names, and the roots and pin slots of each thread. What the text held before is gone.
///
/// `heap[i]` is the word of the address `first + i`. `roots` has 16 words for each thread, from thread 1 on, and `pins` 4. `marks` and
/// `order` are working memory, whatever they hold: a flag for each word of the heap, and room for as many addresses as it
/// has words, which are numbers of 32 bits; the flags say afterwards which addresses `order` has. The text was opened for at
/// least so many words, and for so many threads. No memory is taken. The time is
/// linear in the words, but for the sort of the rows.
pub fn write_graph(
    first: u64,
    heap: &[u64],
    roots: &[u64],
    pins: &[u64],
    marks: &mut [bool],
    order: &mut Vec<u32>,
    text: &mut GraphText,
)
    requires first { 1 ≤ first }
    requires marks { length marks.old ≡ length heap.now }
    requires order { length heap.now ≤ vec_capacity order.old }
    requires small { first + length heap.now ≤ 2 ^ 32 }
    requires words { length heap.now ≤ text.old.room }
    requires threads { length roots.now ≡ 16 * length text.old.roots }
    requires slots { length pins.now ≡ 4 * length text.old.roots }
    requires few { length text.old.roots < 2 ^ 32 }
    requires stand { StandForSome first heap.now roots.now pins.now }
    ensures shows { (at : ℕ → Option Name) (graph : Graph) → WordsStand first heap.now roots.now pins.now at graph → ShowsGraph text.new (length text.old.roots) graph }

    // The same memory serves again.
    ensures marks { IsMarked first marks.new order.new.items }
    ensures order { vec_capacity order.new ≡ vec_capacity order.old }
    ensures words { text.new.room ≡ text.old.room }
    ensures threads { length text.new.roots ≡ length text.old.roots }
{
    text.clear();
    find_reachable(first, heap, roots, pins, marks, order);
    write_objects(first, heap, order, text);
    set_roots(first, heap, roots, text);
    set_pins(first, heap, pins, text);
}
