ghost use Rattle.std.specs.Prelude.{◌≡◌, ◌↔◌, ℕ, List, IfOk};
ghost use Rattle.shen_graph.specs.Graph.{Graph};
ghost use Rattle.heap_world.specs.Asking.{nothing};
ghost use Rattle.heap_world.specs.Represents.{Represents};
ghost use Rattle.image_graph.specs.State.{config_of, memory_of};
ghost use Rattle.graph_placing.specs.ByName.{Fits};
ghost use Rattle.graph_placing.specs.PlacedHeap.{IsPlaced};
ghost use Rattle.graph_placing.specs.PlaceableText.{IsPlaceable};
ghost use Rattle.graph_placing.specs.TextGraph.{IsGraphOf};
ghost use Rattle.graph_placing.specs.Outcome.{IfHeap};

use super::addresses::{addresses, fits};
use super::free::free_empty;
use super::objects::write_objects;
use super::roots::store_roots;
use heap_words::{Config, NoMemory};
use image_graph::Image;
use shen_graph::GraphText;
use std::alloc::Global;

/// What comes of placing a graph.
#[derive(Drop)]
pub enum Placed {
    /// A heap that the graph stands in.
    Heap(Image),
    /// The objects need more regions than the heap has.
    TooSmall,
}

/// Places the objects of a text in a heap of this configuration, in the order of names, one behind the other, in regions 0 upward, each
/// within one region. The words of the image stand for the graph, so that a run can begin from it. The error is
/// that memory was refused, which is asked for only where the objects fit.
pub fn place(alloc: Global, config: Config, text: &GraphText) -> Result<Placed, NoMemory>
    requires { IsPlaceable config text.now }
    ensures too_small { (result ≡ Ok Placed.TooSmall) ↔ (Fits config text.now → ⊥) }
    ensures config { IfOk result (λ placed. IfHeap placed (λ image. config_of image ≡ config)) }
    ensures placed { IfOk result (λ placed. IfHeap placed (λ image. IsPlaced config text.now (memory_of image))) }

    // The words stand for any graph that has the text's objects and roots, and nothing pinned.
    ensures stands { IfOk result (λ placed. IfHeap placed (λ image. (counts : List ℕ) (graph : Graph) → IsGraphOf config text.now counts graph → Represents config (memory_of image) graph (λ mutator. nothing))) }
{
    if !fits(config, text) {
        return Ok(Placed::TooSmall);
    }
    let addresses = addresses(alloc, config, text)?;
    let mut image = Image::open(alloc, config)?;
    write_objects(&mut image, text, &addresses);
    store_roots(&mut image, text, &addresses);
    free_empty(&mut image);
    image.set_word(config.left_at(), config.mutators() as u64);
    Ok(Placed::Heap(image))
}
