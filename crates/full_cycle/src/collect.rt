//! A full collection, step by step.

ghost use Rattle.std.specs.Prelude.{◌≡◌};
ghost use Rattle.image_graph.specs.Full.{full_from, full};
ghost use Rattle.image_graph.specs.State.{config_of, memory_of};
ghost use Rattle.image_graph.specs.Holds.{HoldsSome, HoldsSized};
ghost use Rattle.full_cycle.specs.Collect.{HoldsWalked};
ghost use Rattle.full_cycle.specs.Result.{KeepsTheGraph, KeepsTheReachable, PinnedStay, RefusesTheLeft};

use crate::calm::{clear_collection, free_empty};
use crate::pack::{fill_unkept, pack_held};
use crate::refuse::refuse;
use crate::renew::renew_roots;
use crate::walk::find_held;
use image_graph::Image;

// Collects the whole heap, where nobody has a buffer.
fn collect(image: &mut Image)
    requires { HoldsWalked (config_of image.old) (memory_of image.old) }
    ensures config { config_of image.new ≡ config_of image.old }
    ensures words { memory_of image.new ≡ full_from (config_of image.old) (memory_of image.old) }
{
    find_held(image);
    pack_held(image);
    fill_unkept(image);
    renew_roots(image);
    clear_collection(image);
    free_empty(image);
    image.give_turns();
    refuse(image);
}

/// Collects the whole heap. Buffers are let go. Kept are the objects that roots, answers and pin slots lead to, packed in the order of the
/// addresses of their current copies around the pinned regions, where they stay and each other object becomes words that only fill; roots,
/// answers, references, tops and the free word follow, and nothing of a collection in progress is left. Then each waiting request is served where there is room for it, and else answered that the heap is
/// full. The image holds a graph. Takes no memory, and time linear in the words of the heap.
pub fn full(image: &mut Image)
    requires { HoldsSized (config_of image.old) (memory_of image.old) }
    ensures config { config_of image.new ≡ config_of image.old }
    ensures words { memory_of image.new ≡ full (config_of image.old) (memory_of image.old) }

    // The image holds a graph again, and the same one; what is kept is exactly what it reaches, objects of pinned regions stay, and who is refused finds no room.
    ensures holds { HoldsSome (config_of image.old) (memory_of image.new) }
    ensures graph { KeepsTheGraph (config_of image.old) (memory_of image.old) (memory_of image.new) }
    ensures kept { KeepsTheReachable (config_of image.old) (memory_of image.old) }
    ensures pinned { PinnedStay (config_of image.old) (memory_of image.old) (memory_of image.new) }
    ensures refused { RefusesTheLeft (config_of image.old) (memory_of image.old) (memory_of image.new) }
{
    image.let_go();
    collect(image);
}
