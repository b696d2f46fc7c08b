//! The row of a name, and the word of a reference.

ghost use Rattle.std.specs.Prelude.{◌≡◌, ◌<◌, ◌≤◌, ◌+◌, length, Contains, IsTrue, ◌↔◌, IfSome};
ghost use Rattle.shen_graph.specs.GraphText.{names_of};
ghost use Rattle.shen_graph.specs.Reach.{InOrder, IsBefore};
ghost use Rattle.heap_words.specs.declared.config.Config.{Config as Heap};
ghost use Rattle.graph_placing.specs.PlacedHeap.{place_among, word_for};
ghost use Rattle.graph_placing.specs.Writing.{AreAddresses};

use heap_words::Config;
use shen_graph::{GraphText, Name};

// Whether a name comes before another in their order.
fn is_before(name: Name, other: Name) -> bool
    ensures { IsTrue result ↔ IsBefore name other }
{
    name.thread < other.thread || (name.thread == other.thread && name.count < other.count)
}

// The number of the row of a name. It is looked for between rows that the names at their ends are around.
fn row_of(text: &GraphText, name: Name) -> usize
    requires in_order { InOrder (names_of text.now) }
    requires there { Contains (names_of text.now) name }
    ensures value { result ≡ place_among (names_of text.now) name }
    ensures inside { result < length text.now.rows }
{
    let mut low = 0;
    let mut high = text.rows();
    while high - low > 1 {
        let middle = low + (high - low) / 2;
        if is_before(name, text.name_at(middle)) {
            high = middle;
        } else {
            low = middle;
        }
    }
    low
}

/// The word of a reference, by the address of the object in each row: 0 for null.
pub(crate) fn word_for(
    config: Config,
    text: &GraphText,
    addresses: &[u64],
    reference: Option<Name>,
) -> u64
    requires in_order { InOrder (names_of text.now) }
    requires addresses { AreAddresses config text.now addresses.now }
    requires there { IfSome reference (Contains (names_of text.now)) }
    ensures { result ≡ word_for config text.now reference }
{
    match reference {
        None => 0,
        Some(name) => addresses[row_of(text, name)],
    }
}
