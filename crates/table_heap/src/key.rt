ghost use Rattle.std.specs.Prelude.{◌≡◌};
ghost use Rattle.shen_graph.specs.Graph.{Graph};
ghost use Rattle.step_core.specs.Begins.{Begins};
ghost use Rattle.table_heap.specs.Start.{start_from};

use crate::left::Left;
use heap_words::Config;

/// By what a heap is known: its sizes, and where it began. Runs may begin there.
#[derive(Drop)]
pub struct HeapKey {
    pub(crate) config: Config,
    pub(crate) left: Option<Left>,
    ghost begins: { ∥ ((graph : Graph) × Begins config (start_from config left) graph) ∥₁ },
}
