ghost use Rattle.std.specs.Prelude.{◌≡◌, length, All, IfOk};
ghost use Rattle.heap_world.specs.Shows.{ShowsGraph};
ghost use Rattle.heap_machines.specs.Pause.{pause_image};
ghost use Rattle.step_core.specs.Begins.{Run, ending, graph_after};
ghost use Rattle.shen_graph.specs.declared.order.Order.TheVariants.{Nothing};
ghost use Rattle.shen_core.specs.State.{config_of, orders_of, Shows, IsUnchanged};
ghost use Rattle.shen_core.specs.Progress.{AllRest};
ghost use Rattle.graph_placing.specs.Renewed.{HoldsNothing, DoesNotFit};
ghost use Rattle.shen_core.specs.RenewedHeap.{IfHeapRenewed, StandsRenewable, BeginsAnew};

use crate::Plain;
use graph_placing::{Renewed, renew};
use heap_words::NoMemory;
use shen_graph::GraphText;
use std::alloc::Global;

/// What comes of renewing a heap.
#[derive(Drop)]
pub enum Renewal {
    /// A heap of the same sizes, before the first event.
    Renewed(Plain),
    /// An object is pinned, which may not move.
    Pinned,
    /// The objects need more regions than the heap has, where each lies within one and they follow one another in the order of their names.
    TooSmall,
}

// The graph that a heap at rest stands for.
fn graph_of(alloc: Global, plain: &mut Plain) -> Result<GraphText, NoMemory>
    requires rest { AllRest plain.old }
    ensures shows { IfOk result (λ text. (run : Run (config_of plain.old)) → Shows plain.old (ending pause_image (config_of plain.old) run) → ShowsGraph text (config_of plain.old).mutators (graph_after pause_image (config_of plain.old) run)) }
    ensures threads { IfOk result (λ text. length text.roots ≡ (config_of plain.old).mutators) }
    ensures unchanged { IsUnchanged plain.old plain.new }
{
    let config = plain.config();
    let Ok(mut text) = GraphText::open(alloc, config.heap_size(), config.mutators()) else {
        return Err(NoMemory);
    };
    plain.graph(&mut text);
    Ok(text)
}

/// Renews a heap in which no call is in progress: a heap of the same sizes with the same graph, whose objects are named anew, each by
/// its thread and in the order of the names that they had, from 1; roots are as they were. The heap that it is made from stays as it was, also
/// where memory was refused, which is the error.
pub fn renew_heap(alloc: Global, plain: &mut Plain) -> Result<Renewal, NoMemory>
    requires rest { AllRest plain.old }
    requires renewable { StandsRenewable plain.old }
    ensures renewed { IfOk result (λ renewal. IfHeapRenewed renewal (λ new. (run : Run (config_of plain.old)) → Shows plain.old (ending pause_image (config_of plain.old) run) → BeginsAnew (config_of plain.old) (graph_after pause_image (config_of plain.old) run) new)) }
    ensures pinned { result ≡ Ok Renewal.Pinned → (run : Run (config_of plain.old)) → Shows plain.old (ending pause_image (config_of plain.old) run) → HoldsNothing (config_of plain.old).mutators (graph_after pause_image (config_of plain.old) run) → ⊥ }
    ensures too_small { result ≡ Ok Renewal.TooSmall → (run : Run (config_of plain.old)) → Shows plain.old (ending pause_image (config_of plain.old) run) → DoesNotFit (config_of plain.old) (graph_after pause_image (config_of plain.old) run) }
    ensures orders { IfOk result (λ renewal. IfHeapRenewed renewal (λ new. All (λ order. order ≡ Nothing) (orders_of new))) }
    ensures unchanged { IsUnchanged plain.old plain.new }
{
    let config = plain.config();
    let text = graph_of(alloc, plain)?;
    match renew(alloc, config, &text)? {
        Renewed::Heap(image, counts) => {
            let plain = Plain::open_from(alloc, image, &counts)?;
            Ok(Renewal::Renewed(plain))
        }
        Renewed::Pinned => Ok(Renewal::Pinned),
        Renewed::TooSmall => Ok(Renewal::TooSmall),
    }
}
