ghost use Rattle.std.specs.Prelude.{◌≡◌, ◌+◌, ◌*◌, ◌^◌, ◌<◌, ◌≤◌, ◌-◌, ◌/◌, ℕ, if◌then◌else◌, length, slice_index};
ghost use Rattle.regions.specs.Places as placing;
ghost use Rattle.regions.specs.Places.{next_open, open_row, place_around};
ghost use Rattle.regions.specs.Tops.{top_before};
ghost use Rattle.regions.specs.Table.{kept_of, IsMarkedHeap, HavePlaces};

use heap_words::words_of;

/// The address at which so many words are placed behind what ends at the address `at`: there, or, where they do not fit
/// into its region, at the base of the next one. An address counts words.
pub fn place_behind(region_words: u64, at: u64, words: u64) -> u64
    requires some { 0 < region_words }
    requires fits { at + region_words + words < 2 ^ 64 }
    ensures { result ≡ placing.place_behind region_words at words }
{
    if at % region_words + words <= region_words {
        at
    } else {
        (at / region_words + 1) * region_words
    }
}

/// Whether the region of a row is shut: rows are regions counted from 1, and `shut` is the set of the regions, counted from 0,
/// in which nothing moves.
pub fn is_shut(shut: u64, row: u64) -> bool
    ensures { result ≡ placing.is_shut shut row }
{
    row <= 64 && shut >> row.saturating_sub(1) & 1 == 1
}

// The first row from one on that is not shut.
fn next_open(shut: u64, row: u64) -> u64
    requires { row < 2 ^ 63 }
    ensures row { result ≡ next_open (placing.is_shut shut) 64 row }
    ensures bound { result ≤ row + 64 }
{
    for step in 0..64 {
        if !is_shut(shut, row + step) {
            return row + step;
        }
    }
    row + 64
}

// The row where so many words go that are placed behind what ends at an address.
fn open_row(region_words: u64, shut: u64, at: u64, words: u64) -> u64
    requires some { 0 < region_words }
    requires fits { at + region_words + words < 2 ^ 63 }
    ensures row { result ≡ open_row region_words (placing.is_shut shut) at words }
    ensures bound { result ≤ at / region_words + 65 }
{
    if at % region_words + words <= region_words {
        next_open(shut, at / region_words)
    } else {
        next_open(shut, at / region_words + 1)
    }
}

/// The address at which so many words are placed behind what ends at the address `at`, around the regions that are shut:
/// there, or, where they do not fit into its region or that is shut, at the base of the next one that is open.
pub fn place_around(region_words: u64, shut: u64, at: u64, words: u64) -> u64
    requires some { 0 < region_words }
    requires fits { at + region_words + words < 2 ^ 63 }
    requires rows { (at / region_words + 65) * region_words < 2 ^ 64 }
    ensures { result ≡ place_around region_words (placing.is_shut shut) at words }
{
    if words == 0 {
        return at;
    }
    let row = open_row(region_words, shut, at, words);
    if row == at / region_words {
        at
    } else {
        row * region_words
    }
}

// Makes the tops of the regions that are not shut 0.
fn clear_open(shut: u64, tops: &mut [u64])
    ensures length { length tops.new ≡ length tops.old }
    ensures tops { (index : ℕ) → index < length tops.old → slice_index tops.new index ≡ (if placing.is_shut shut (index + 1) then slice_index tops.old index else 0) }
{
    for (region, top) in tops.iter_mut().enumerate() {
        if !is_shut(shut, region as u64 + 1) {
            *top = 0;
        }
    }
}

/// Gives each marked object its new place, in the order of addresses, and each region its top, in words. In the regions of the
/// set `shut` objects stay where they are, and so do the tops. `heap`, `marks` and `places` have an entry for each address from
/// `region_words` on, and `tops` one for each region. The entries of `places` for other addresses are left as they are.
pub fn assign(
    region_words: u64,
    shut: u64,
    heap: &[u64],
    marks: &[bool],
    places: &mut [u64],
    tops: &mut [u64],
)
    requires marked { IsMarkedHeap region_words heap.now marks.now }
    requires table { length places.old ≡ length heap.now }
    requires regions { length heap.now ≡ length tops.old * region_words }
    requires few { length tops.old ≤ 64 }
    ensures places { HavePlaces region_words (placing.is_shut shut) (kept_of region_words heap.now marks.now) places.new }
    ensures tops { (index : ℕ) → index < length tops.old → slice_index tops.new index
        ≡ (if placing.is_shut shut (index + 1) then slice_index tops.old index else top_before region_words (placing.is_shut shut) (kept_of region_words heap.now marks.now) index (region_words + length heap.now)) }
{
    clear_open(shut, tops);
    let mut end = region_words;
    for (index, marked) in marks.iter().enumerate() {
        if *marked {
            let address = region_words + index as u64;
            if is_shut(shut, address / region_words) {
                places[index] = address;
            } else {
                let words = words_of(heap[index + 1]);
                let place = place_around(region_words, shut, end, words);
                let region = (place / region_words - 1) as usize;
                places[index] = place;
                tops[region] += words;
                end = place + words;
            }
        }
    }
}
