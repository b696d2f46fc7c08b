//! Which rows of a graph its roots lead to.
ghost use Rattle.std.specs.Prelude.{◌≡◌, ◌+◌, ◌<◌, ◌≤◌, false, ℕ, All, length, replicate, Some, IfOk, MatchBool, MatchOption, Contains};
ghost use Rattle.shen_graph.specs.GraphText.{names_of, row_of, root_of};
ghost use Rattle.shen_graph.specs.Reach.{InOrder};
ghost use Rattle.heap_dump.specs.RowsReached.{RootsLeadTo, IsReachMarked, AreMarked, IsClosed, Grows, RowsAreReached, MarksReached, Lacks};

use crate::names::is_before;
use shen_graph::{Command, GraphText, Name, NoMemory};
use std::alloc::Global;

/// The number of roots of a thread.
const ROOTS: usize = Command::ROOTS as usize;

/// The row of an object. The rows stand in the order of names.
fn row_named(graph: &GraphText, name: Name) -> Option<usize>
    requires { InOrder (names_of graph.now) }
    ensures { MatchOption result (Contains (names_of graph.now) name → ⊥) (λ row. (row < length graph.now.rows) × ((row_of graph.now row).name ≡ name)) }
{
    let mut low = 0;
    let mut high = graph.rows();
    'halves: while low < high {
        let middle = low + (high - low) / 2;
        let found = graph.name_at(middle);
        if found == name {
            return Some(middle);
        }
        if is_before(found, name) {
            low = middle + 1;
        } else {
            high = middle;
        }
    }
    None
}

/// The rows that were reached: a mark for each row, and the rows with a mark in the order in which they were reached.
#[derive(Drop)]
struct Reached {
    marks: Vec<bool>,
    order: Vec<usize>,
}

/// Marks the row that a reference names. False: it names none.
fn reach(
    reached: &mut Reached,
    graph: &GraphText,
    reference: Option<Name>,
) -> Result<bool, NoMemory>
    requires order { InOrder (names_of graph.now) }
    requires reached { RowsAreReached graph.now reached.old.marks.items reached.old.order.items }
    requires led { RootsLeadTo graph.now reference }
    ensures ok { IfOk result (λ found. MatchBool found
        (RowsAreReached graph.now reached.new.marks.items reached.new.order.items × Grows reached.old.marks.items reached.old.order.items reached.new.marks.items reached.new.order.items × IsReachMarked graph.now reached.new.marks.items reference)
        (Lacks graph.now)) }
{
    let Some(name) = reference else {
        return Ok(true);
    };
    let Some(row) = row_named(graph, name) else {
        return Ok(false);
    };
    if !reached.marks[row] {
        reached.order.push(row)?;
        reached.marks[row] = true;
    }
    Ok(true)
}

/// Marks the rows that the roots of a thread, counted from 1, name.
fn reach_roots_of(reached: &mut Reached, graph: &GraphText, thread: u32) -> Result<bool, NoMemory>
    requires order { InOrder (names_of graph.now) }
    requires thread { (1 ≤ thread) × (thread ≤ length graph.now.roots) }
    requires reached { RowsAreReached graph.now reached.old.marks.items reached.old.order.items }
    ensures ok { IfOk result (λ found. MatchBool found
        (RowsAreReached graph.now reached.new.marks.items reached.new.order.items × Grows reached.old.marks.items reached.old.order.items reached.new.marks.items reached.new.order.items
        × ((index : ℕ) → index < 16 → IsReachMarked graph.now reached.new.marks.items (root_of graph.now thread index)))
        (Lacks graph.now)) }
{
    for index in 0..ROOTS {
        if !reach(reached, graph, graph.root_at(thread, index))? {
            return Ok(false);
        }
    }
    Ok(true)
}

/// Marks the rows that all roots name.
fn reach_roots(reached: &mut Reached, graph: &GraphText) -> Result<bool, NoMemory>
    requires order { InOrder (names_of graph.now) }
    requires few { length graph.now.roots ≤ 8 }
    requires reached { RowsAreReached graph.now reached.old.marks.items reached.old.order.items }
    ensures ok { IfOk result (λ found. MatchBool found
        (RowsAreReached graph.now reached.new.marks.items reached.new.order.items
        × ((mutator index : ℕ) → mutator < length graph.now.roots → index < 16 → IsReachMarked graph.now reached.new.marks.items (root_of graph.now (mutator + 1) index))
        × All (λ row. length row ≡ 16) graph.now.roots)
        (Lacks graph.now)) }
{
    for mutator in 0..graph.mutators() {
        if !reach_roots_of(reached, graph, mutator as u32 + 1)? {
            return Ok(false);
        }
    }
    Ok(true)
}

/// Marks the rows that the references of a row name.
fn reach_fields(reached: &mut Reached, graph: &GraphText, row: usize) -> Result<bool, NoMemory>
    requires order { InOrder (names_of graph.now) }
    requires row { row < length graph.now.rows }
    requires led { RootsLeadTo graph.now (Some (row_of graph.now row).name) }
    requires reached { RowsAreReached graph.now reached.old.marks.items reached.old.order.items }
    ensures ok { IfOk result (λ found. MatchBool found
        (RowsAreReached graph.now reached.new.marks.items reached.new.order.items × Grows reached.old.marks.items reached.old.order.items reached.new.marks.items reached.new.order.items
        × AreMarked graph.now reached.new.marks.items (row_of graph.now row).refs)
        (Lacks graph.now)) }
{
    for index in 0..graph.refs_at(row) {
        if !reach(reached, graph, graph.reference_at(row, index))? {
            return Ok(false);
        }
    }
    Ok(true)
}

/// Marks the rows that the references of rows with a mark name, and of those that are marked then, and so on.
fn reach_on(reached: &mut Reached, graph: &GraphText) -> Result<bool, NoMemory>
    requires order { InOrder (names_of graph.now) }
    requires reached { RowsAreReached graph.now reached.old.marks.items reached.old.order.items }
    ensures ok { IfOk result (λ found. MatchBool found
        (RowsAreReached graph.now reached.new.marks.items reached.new.order.items × Grows reached.old.marks.items reached.old.order.items reached.new.marks.items reached.new.order.items × IsClosed graph.now reached.new.marks.items)
        (Lacks graph.now)) }
{
    let mut next = 0;
    'rows: while next < reached.order.len() {
        let row = reached.order[next];
        if !reach_fields(reached, graph, row)? {
            return Ok(false);
        }
        next += 1;
    }
    Ok(true)
}

/// So many marks that are not set.
fn no_marks(alloc: Global, rows: usize) -> Result<Vec<bool>, NoMemory>
    ensures { IfOk result (λ marks. marks.items ≡ replicate rows false) }
{
    Ok(vec![in alloc; false; rows]?)
}

/// A mark for each row of a text, which says whether the roots lead to its object. None: a name to which they lead has no row. The
/// rows stand in the order of names. What only pin slots lead to has no mark.
pub fn rows_reached(alloc: Global, graph: &GraphText) -> Result<Option<Vec<bool>>, NoMemory>
    requires order { InOrder (names_of graph.now) }
    requires few { length graph.now.roots ≤ 8 }
    ensures { IfOk result (λ found. MatchOption found (Lacks graph.now) (λ marks. MarksReached graph.now marks.items)) }
{
    let mut reached = Reached {
        marks: no_marks(alloc, graph.rows())?,
        order: Vec::new(alloc),
    };
    if !reach_roots(&mut reached, graph)? {
        return Ok(None);
    }
    if !reach_on(&mut reached, graph)? {
        return Ok(None);
    }
    Ok(Some(reached.marks))
}
