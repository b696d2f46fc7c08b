ghost use Rattle.std.specs.Prelude.{◌≡◌, ◌↔◌, replicate, IfOk};
ghost use Rattle.heap_world.specs.Asking.{nothing};
ghost use Rattle.heap_world.specs.Represents.{Represents};
ghost use Rattle.image_graph.specs.State.{config_of, memory_of};
ghost use Rattle.shen_graph.specs.GraphText.{names_of};
ghost use Rattle.graph_placing.specs.ByName.{Fits};
ghost use Rattle.graph_placing.specs.PlacedHeap.{IsPlaced};
ghost use Rattle.graph_placing.specs.PlaceableText.{IsPlaceable};
ghost use Rattle.graph_placing.specs.TextGraph.{text_graph};
ghost use Rattle.graph_placing.specs.NamesAnew.{text_anew};
ghost use Rattle.graph_placing.specs.Renaming.{AreOfThreads, AreCountsOf};
ghost use Rattle.graph_placing.specs.Renewed.{IfRenewed, PinsNothing};

use crate::names::write_names;
use crate::pins::is_unpinned;
use crate::{Placed, place};
use heap_words::{Config, NoMemory};
use image_graph::Image;
use shen_graph::GraphText;
use std::alloc::Global;

/// What comes of naming the objects of a graph anew.
#[derive(Drop)]
pub enum Renewed {
    /// A heap in which they stand under their new names, and how many objects each thread has made, that of thread 1 first.
    Heap(Image, Vec<u32>),
    /// An object is pinned, which may not move.
    Pinned,
    /// The objects need more regions than the heap has.
    TooSmall,
}

// No object of a thread is counted.
fn none_counted(alloc: Global, config: Config) -> Result<Vec<u32>, NoMemory>
    ensures { IfOk result (λ counts. counts.items ≡ replicate config.mutators 0) }
{
    match Vec::from_elem(alloc, 0, config.mutators()) {
        Ok(counts) => Ok(counts),
        Err(_) => Err(NoMemory),
    }
}

/// Names the objects of a text anew, and places them in a heap of this configuration: in the order of their names, one behind the other, in
/// regions 0 upward, each within one region. A run can begin from there. A pinned object is not moved: then nothing is done. The error is that memory was refused, which is asked for
/// only where no object is pinned and all fit.
pub fn renew(alloc: Global, config: Config, text: &GraphText) -> Result<Renewed, NoMemory>
    requires whole { IsPlaceable config text.now }
    requires names { AreOfThreads config.mutators (names_of text.now) }
    ensures pinned { (result ≡ Ok Renewed.Pinned) ↔ (PinsNothing text.now → ⊥) }
    ensures too_small { (result ≡ Ok Renewed.TooSmall) ↔ (PinsNothing text.now × (Fits config text.now → ⊥)) }
    ensures config { IfOk result (λ renewed. IfRenewed renewed (λ image counts. config_of image ≡ config)) }
    ensures placed { IfOk result (λ renewed. IfRenewed renewed (λ image counts. IsPlaced config (text_anew text.now) (memory_of image))) }
    ensures counts { IfOk result (λ renewed. IfRenewed renewed (λ image counts. AreCountsOf (names_of text.now) config.mutators counts)) }

    // The words stand for the graph of the text whose objects are named anew.
    ensures stands { IfOk result (λ renewed. IfRenewed renewed (λ image counts. Represents config (memory_of image) (text_graph (text_anew text.now) counts) (λ mutator. nothing))) }
{
    if !is_unpinned(text) {
        return Ok(Renewed::Pinned);
    }
    let mut image = match place(alloc, config, text)? {
        Placed::Heap(image) => image,
        Placed::TooSmall => return Ok(Renewed::TooSmall),
    };
    let mut counts = none_counted(alloc, config)?;
    write_names(&mut image, text, &mut counts);
    Ok(Renewed::Heap(image, counts))
}
