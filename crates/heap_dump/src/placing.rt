//! Places a dump in a new heap: in the order of names, one object behind the other, in regions 0 upward, each within one region. A run
//! that goes on from the dump begins there.
ghost use Rattle.std.specs.Prelude.{◌≡◌, ◌↔◌, IfOk};
ghost use Rattle.image_graph.specs.State.{config_of, memory_of};
ghost use Rattle.heap_machines.specs.FromImage.{CanBeginFrom};
ghost use Rattle.graph_placing.specs.ByName.{Fits};
ghost use Rattle.graph_placing.specs.PlacedHeap.{IsPlaced};
ghost use Rattle.graph_placing.specs.Outcome.{IfHeap};
ghost use Rattle.heap_dump.specs.Dumped.{dumped, graph_in, IsDump};

use crate::Dump;
use graph_placing::Placed;
use heap_words::NoMemory;
use std::alloc::Global;

/// The heap of a dump's sizes in which its objects were placed, or that it is too small for them. `Plain::open_from` takes the image with
/// the dump's counts, and its runs begin from the dump's graph. The error is that memory was refused, which is asked for only where the
/// objects fit.
pub fn place(alloc: Global, dump: &Dump) -> Result<Placed, NoMemory>
    requires { IsDump (dumped dump.now.config dump.now.counts dump.now.graph) }
    ensures too_small { (result ≡ Ok Placed.TooSmall) ↔ (Fits dump.now.config dump.now.graph → ⊥) }
    ensures config { IfOk result (λ placed. IfHeap placed (λ image. config_of image ≡ dump.now.config)) }
    ensures placed { IfOk result (λ placed. IfHeap placed (λ image. IsPlaced dump.now.config dump.now.graph (memory_of image))) }
    ensures begins { IfOk result (λ placed. IfHeap placed (λ image. CanBeginFrom dump.now.config (memory_of image) dump.now.counts (graph_in (dumped dump.now.config dump.now.counts dump.now.graph)))) }
{
    graph_placing::place(alloc, dump.config, &dump.graph)
}
