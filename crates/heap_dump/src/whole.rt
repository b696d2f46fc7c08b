//! Whether the rows of a graph are those that its roots lead to.
ghost use Rattle.std.specs.Prelude.{◌≡◌, ◌↔◌, ◌<◌, ◌≤◌, true, false, ℕ, length, slice_index_or, IsTrue, IfOk};
ghost use Rattle.shen_graph.specs.GraphText.{names_of};
ghost use Rattle.shen_graph.specs.Reach.{InOrder, IsReach};
ghost use Rattle.heap_dump.specs.RowsReached.{graph_from};

use crate::rows_reached;
use shen_graph::{GraphText, NoMemory};
use std::alloc::Global;

/// Whether all are marked.
fn are_all(marks: &[bool]) -> bool
    ensures { IsTrue result ↔ ((row : ℕ) → row < length marks.now → slice_index_or marks.now row false ≡ true) }
{
    for mark in marks {
        if !*mark {
            return false;
        }
    }
    true
}

/// Whether each reference and root, as far as the roots lead, is null or names a row, and each row is reached.
pub(crate) fn is_whole(alloc: Global, graph: &GraphText) -> Result<bool, NoMemory>
    requires order { InOrder (names_of graph.now) }
    requires few { length graph.now.roots ≤ 8 }
    ensures { IfOk result (λ whole. IsTrue whole ↔ (IsReach (graph_from graph.now) (names_of graph.now))) }
{
    match rows_reached(alloc, graph)? {
        Some(marks) => Ok(are_all(&marks)),
        None => Ok(false),
    }
}
