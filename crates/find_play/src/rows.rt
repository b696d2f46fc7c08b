//! Objects and their fields in the graph that a run leaves.
ghost use Rattle.std.specs.Prelude.{◌≡◌, ◌<◌, Some, None, length, MatchOption};
ghost use Rattle.shen_graph.specs.GraphText.{row_of};
ghost use Rattle.shen_graph.specs.Graph.{same_name};
ghost use Rattle.find_play.specs.Rows.{row_for, reference_held, number_held, follow, along};

use shen_graph::{GraphText, Name};

/// Whether two names are one.
pub(crate) fn same_name(a: Name, b: Name) -> bool
    ensures { result ≡ same_name a b }
{
    a.thread == b.thread && a.count == b.count
}

// The row of an object.
fn row_of(graph: &GraphText, name: Name) -> Option<usize>
    ensures { MatchOption result (row_for graph.now.rows name ≡ None) (λ row. (row < length graph.now.rows) × (row_for graph.now.rows name ≡ Some (row_of graph.now row))) }
{
    for row in 0..graph.rows() {
        if same_name(graph.name_at(row), name) {
            return Some(row);
        }
    }
    None
}

// A reference of an object, if it is there.
fn reference_in(graph: &GraphText, name: Name, field: u32) -> Option<Option<Name>>
    ensures { result ≡ reference_held graph.now.rows name field }
{
    let Some(row) = row_of(graph, name) else {
        return None;
    };
    let field = field as usize;
    if field < graph.refs_at(row) {
        Some(graph.reference_at(row, field))
    } else {
        None
    }
}

/// A number of an object, if it is there.
pub(crate) fn number_in(graph: &GraphText, name: Name, index: u32) -> Option<u64>
    ensures { result ≡ number_held graph.now.rows name index }
{
    let Some(row) = row_of(graph, name) else {
        return None;
    };
    let index = index as usize;
    if index < graph.nums_at(row) {
        Some(graph.number_at(row, index))
    } else {
        None
    }
}

/// The reference in a field of the object that a reference names, if all of that is there.
pub(crate) fn follow(
    graph: &GraphText,
    from: Option<Option<Name>>,
    field: u32,
) -> Option<Option<Name>>
    ensures { result ≡ follow graph.now.rows field from }
{
    match from {
        Some(Some(name)) => reference_in(graph, name, field),
        _ => None,
    }
}

/// The reference to which so many objects lead, each by the same field, if they are there.
pub(crate) fn along(
    graph: &GraphText,
    from: Option<Option<Name>>,
    field: u32,
    count: u64,
) -> Option<Option<Name>>
    ensures { result ≡ along graph.now.rows field count from }
{
    let mut at = from;
    for made in 0..count {
        if at.is_none() {
            return None;
        }
        at = follow(graph, at, field);
    }
    at
}
