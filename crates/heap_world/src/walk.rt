//! Finds the addresses that roots lead to, by current copies.

ghost use Rattle.std.specs.Prelude.{◌≡◌, ◌+◌, ◌^◌, ◌≤◌, [], ◌++◌, All, length, vec_capacity};
ghost use Rattle.heap_world.specs.Walk.{refs_at, size_at, current_at, currents, IsNamed, IsWalkable, IsNullOrAmong, IsMarked, IsWalk, with_address, with_addresses};

use heap_words::{forwarded, forwardee, refs_of};

/// Takes an address down, unless it is null or was taken down before. `marks` has a flag for each address from `first` on,
/// and says which of them `order` has. All of them are numbers of 32 bits.
pub fn take_down(first: u64, address: u64, marks: &mut [bool], order: &mut Vec<u32>)
    requires marked { IsMarked first marks.old order.old.items }
    requires among { IsNullOrAmong first (length marks.old) address }
    requires room { length marks.old ≤ vec_capacity order.old }
    requires small { first + length marks.old ≤ 2 ^ 32 }
    ensures marked { IsMarked first marks.new order.new.items }
    ensures room { vec_capacity order.new ≡ vec_capacity order.old }
    ensures taken { order.new.items ≡ with_address order.old.items address }
{
    if address == 0 {
        return;
    }
    let index = (address - first) as usize;
    if !marks[index] {
        marks[index] = true;
        let taken = address as u32;
        order.push_reserved(taken);
    }
}

/// Forgets what was taken down: no flag is set afterwards, and the list is empty. Takes time linear in what was taken down.
pub fn forget(first: u64, marks: &mut [bool], order: &mut Vec<u32>)
    requires { IsMarked first marks.old order.old.items }
    ensures marked { IsMarked first marks.new order.new.items }
    ensures none { order.new.items ≡ [] }
    ensures room { vec_capacity order.new ≡ vec_capacity order.old }
{
    while let Some(address) = order.pop() {
        let index = (address as u64 - first) as usize;
        marks[index] = false;
    }
}

/// The address of the current copy of what a word names, by the header there; null stays null.
pub(crate) fn current(first: u64, heap: &[u64], word: u64) -> u64
    requires { IsNamed first heap.now word }
    ensures { result ≡ current_at first heap.now word }
{
    if word == 0 {
        return 0;
    }
    let header = heap[(word - first) as usize];
    if forwarded(header) {
        return forwardee(header);
    }
    word
}

// Takes down the current copies of what some words name.
fn take_each_down(first: u64, heap: &[u64], words: &[u64], marks: &mut [bool], order: &mut Vec<u32>)
    requires named { All (IsNamed first heap.now) words.now }
    requires marked { IsMarked first marks.old order.old.items }
    requires among { All (IsNullOrAmong first (length marks.old)) (currents first heap.now words.now) }
    requires room { length marks.old ≤ vec_capacity order.old }
    requires small { first + length marks.old ≤ 2 ^ 32 }
    ensures marked { IsMarked first marks.new order.new.items }
    ensures room { vec_capacity order.new ≡ vec_capacity order.old }
    ensures taken { order.new.items ≡ with_addresses order.old.items (currents first heap.now words.now) }
{
    for word in words {
        take_down(first, current(first, heap, *word), marks, order);
    }
}

/// The references of the object whose header is the word at an index.
pub(crate) fn references(heap: &[u64], index: usize) -> &[u64]
    requires { index + size_at heap.now index ≤ length heap.now }
    ensures { result.now ≡ refs_at heap.now index }
{
    let count = refs_of(heap[index + 1]) as usize;
    &heap[index + 3..index + 3 + count]
}

/// Writes the address of the current copy of each object that the roots and pin slots lead to into `order`, each once.
/// `heap` has a word for each address from `first` on, and `marks` a flag for each of them, which says afterwards whether `order`
/// has it. No memory is taken.
pub(crate) fn find_reachable(
    first: u64,
    heap: &[u64],
    roots: &[u64],
    pins: &[u64],
    marks: &mut [bool],
    order: &mut Vec<u32>,
)
    requires sound { IsWalkable first heap.now (roots.now ++ pins.now) }
    requires flags { length marks.old ≡ length heap.now }
    requires room { length heap.now ≤ vec_capacity order.old }
    requires small { first + length heap.now ≤ 2 ^ 32 }
    ensures marked { IsMarked first marks.new order.new.items }
    ensures walk { IsWalk first heap.now (roots.now ++ pins.now) order.new.items }
    ensures room { vec_capacity order.new ≡ vec_capacity order.old }
{
    marks.fill(false);
    order.clear();
    take_each_down(first, heap, roots, marks, order);
    take_each_down(first, heap, pins, marks, order);
    let mut next = 0;
    while next < order.len() {
        let index = (order[next] as u64 - first) as usize;
        take_each_down(first, heap, references(heap, index), marks, order);
        next += 1;
    }
}
