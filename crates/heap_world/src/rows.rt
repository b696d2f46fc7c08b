//! Writes objects and roots as rows.

ghost use Rattle.std.specs.Prelude.{◌≡◌, ◌+◌, ◌-◌, ◌*◌, ◌^◌, ◌<◌, ◌≤◌, ◌++◌, All, length, map, sum_by, IsPermutation};
ghost use Rattle.std.specs.List.{IsDistinct};
ghost use Rattle.shen_graph.specs.Graph.{same_name};
ghost use Rattle.shen_graph.specs.Reach.{InOrder};
ghost use Rattle.shen_graph.specs.GraphText.{names_of, with_references, with_whole_row};
ghost use Rattle.heap_world.specs.Walk.{refs_at, nums_at, size_at, IsNamed};
ghost use Rattle.heap_world.specs.Rows.{name_in_heap, reference_in, row_in_heap, root_word, root_rows, pin_word, pin_rows};

use crate::walk::{current, references};
use heap_words::{count_of, nums_of, refs_of, thread_of};
use shen_graph::{GraphText, Name};

// The name of the object whose header is the word at an index.
fn name(heap: &[u64], index: usize) -> Name
    requires { index + 3 ≤ length heap.now }
    ensures { result ≡ name_in_heap heap.now index }
{
    let word = heap[index + 2];
    Name {
        thread: thread_of(word),
        count: count_of(word),
    }
}

// The reference that a word stands for, by the name of the current copy there.
fn reference_to(first: u64, heap: &[u64], word: u64) -> Option<Name>
    requires { IsNamed first heap.now word }
    ensures { result ≡ reference_in first heap.now word }
{
    if word == 0 {
        return None;
    }
    let now = current(first, heap, word);
    Some(name(heap, (now - first) as usize))
}

// The numbers of the object whose header is the word at an index.
fn numbers(heap: &[u64], index: usize) -> &[u64]
    requires { index + size_at heap.now index ≤ length heap.now }
    ensures { result.now ≡ nums_at heap.now index }
{
    let shape = heap[index + 1];
    let start = index + 3 + refs_of(shape) as usize;
    &heap[start..start + nums_of(shape) as usize]
}

// Adds the references that some words stand for to the last row.
fn add_references(first: u64, heap: &[u64], words: &[u64], text: &mut GraphText)
    requires named { All (IsNamed first heap.now) words.now }
    requires row { 0 < length text.old.rows }
    requires room { length words.now ≤ text.old.spare }
    ensures { text.new ≡ with_references text.old (map (reference_in first heap.now) words.now) }
{
    for word in words {
        text.reference(reference_to(first, heap, *word));
    }
}

// Adds the row of the object at an address.
fn add_object(first: u64, heap: &[u64], address: u64, text: &mut GraphText)
    requires above { first ≤ address }
    requires below { address + size_at heap.now (address - first) ≤ first + length heap.now }
    requires named { All (IsNamed first heap.now) (refs_at heap.now (address - first)) }
    requires room { size_at heap.now (address - first) ≤ text.old.spare }
    ensures { text.new ≡ with_whole_row text.old (row_in_heap first heap.now address) }
{
    let index = (address - first) as usize;
    text.object(name(heap, index));
    add_references(first, heap, references(heap, index), text);
    text.add_numbers(numbers(heap, index));
}

// Adds the row of the object at each of some addresses.
fn add_objects(first: u64, heap: &[u64], order: &[u32], text: &mut GraphText)
    requires above { All (λ address. first ≤ address) order.now }
    requires below { All (λ address. address + size_at heap.now (address - first) ≤ first + length heap.now) order.now }
    requires named { All (λ address. All (IsNamed first heap.now) (refs_at heap.now (address - first))) order.now }
    requires room { sum_by (λ address. size_at heap.now (address - first)) order.now ≤ text.old.spare }
    ensures rows { text.new.rows ≡ text.old.rows ++ map (row_in_heap first heap.now) order.now }
    ensures roots { text.new.roots ≡ text.old.roots }
    ensures pins { text.new.pins ≡ text.old.pins }
    ensures room { text.new.room ≡ text.old.room }
{
    for address in order {
        add_object(first, heap, *address as u64, text);
    }
}

/// Adds the row of the object at each of some addresses, and brings all rows into the order of names. `heap` has a word
/// for each address from `first` on.
pub(crate) fn write_objects(first: u64, heap: &[u64], order: &[u32], text: &mut GraphText)
    requires above { All (λ address. first ≤ address) order.now }
    requires below { All (λ address. address + size_at heap.now (address - first) ≤ first + length heap.now) order.now }
    requires named { All (λ address. All (IsNamed first heap.now) (refs_at heap.now (address - first))) order.now }
    requires room { sum_by (λ address. size_at heap.now (address - first)) order.now ≤ text.old.spare }
    requires differ { IsDistinct same_name (map (λ row. row.name) (text.old.rows ++ map (row_in_heap first heap.now) order.now)) }
    ensures rows { IsPermutation (text.old.rows ++ map (row_in_heap first heap.now) order.now) text.new.rows }
    ensures order { InOrder (names_of text.new) }
    ensures roots { text.new.roots ≡ text.old.roots }
    ensures pins { text.new.pins ≡ text.old.pins }
    ensures room { text.new.room ≡ text.old.room }
{
    add_objects(first, heap, order, text);
    text.sort();
}

/// Sets the roots of all threads, each 16 words of `roots`, to what these stand for.
pub(crate) fn set_roots(first: u64, heap: &[u64], roots: &[u64], text: &mut GraphText)
    requires named { All (IsNamed first heap.now) roots.now }
    requires threads { length roots.now ≡ 16 * length text.old.roots }
    requires few { length text.old.roots < 2 ^ 32 }
    requires lengths { All (λ row. length row ≡ 16) text.old.roots }
    ensures rows { text.new.rows ≡ text.old.rows }
    ensures room { text.new.room ≡ text.old.room }
    ensures pins { text.new.pins ≡ text.old.pins }
    ensures threads { length text.new.roots ≡ length text.old.roots }
    ensures roots { text.new.roots ≡ root_rows (λ thread index. reference_in first heap.now (root_word roots.now thread index)) (length text.old.roots) }
{
    for (position, word) in roots.iter().enumerate() {
        let thread = (position / 16) as u32 + 1;
        text.root(thread, position % 16, reference_to(first, heap, *word));
    }
}

/// Says what the pin slots of all threads hold, each 4 words of `pins`.
pub(crate) fn set_pins(first: u64, heap: &[u64], pins: &[u64], text: &mut GraphText)
    requires named { All (IsNamed first heap.now) pins.now }
    requires threads { length pins.now ≡ 4 * length text.old.roots }
    requires few { length text.old.roots < 2 ^ 32 }
    requires rows { length text.old.pins ≡ length text.old.roots }
    requires lengths { All (λ row. length row ≡ 4) text.old.pins }
    ensures rest { text.new ≡ record text.old { pins = text.new.pins } }
    ensures pins { text.new.pins ≡ pin_rows (λ thread slot. reference_in first heap.now (pin_word pins.now thread slot)) (length text.old.roots) }
{
    for (position, word) in pins.iter().enumerate() {
        let thread = (position / 4) as u32 + 1;
        text.pin(
            thread,
            (position % 4) as u32,
            reference_to(first, heap, *word),
        );
    }
}
