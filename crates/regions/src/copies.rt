ghost use Rattle.std.specs.Prelude.{◌≡◌, ◌+◌, ◌^◌, ◌<◌, ◌≤◌, ℕ, length, slice_index};
ghost use Rattle.regions.specs.Table.{current_index, IsOwnCopy};

use heap_words::{forwarded, forwardee};

// The index of the current copy of the object that begins at an index.
fn current_index(first: u64, heap: &[u64], index: usize) -> usize
    requires inside { index < length heap.now }
    requires small { first + length heap.now ≤ 2 ^ 32 }
    ensures value { result ≡ current_index first heap.now index }
    ensures inside { result < length heap.now }
{
    let header = heap[index];
    if forwarded(header) {
        let address = forwardee(header);
        if first <= address && address < first + heap.len() as u64 {
            return (address - first) as usize;
        }
    }
    index
}

/// Gives each old copy the new place of its current copy, which must not be forwarded itself. `heap` and `places` have an
/// entry for each address from `first` on.
pub fn follow(first: u64, heap: &[u64], places: &mut [u64])
    requires table { length places.old ≡ length heap.now }
    requires small { first + length heap.now ≤ 2 ^ 32 }
    ensures { (index : ℕ) → index < length heap.now → IsOwnCopy first heap.now (current_index first heap.now index)
        → slice_index places.new index ≡ slice_index places.old (current_index first heap.now index) }
{
    for index in 0..heap.len() {
        places[index] = places[current_index(first, heap, index)];
    }
}
