ghost use Rattle.std.specs.Prelude.{◌≡◌, ◌+◌, ◌*◌, ◌<◌, ◌≤◌, ℕ, if◌then◌else◌, length, slice_index};
ghost use Rattle.regions.specs.Tops.{top_before};
ghost use Rattle.regions.specs.Slide.{IsSlidTo, renewed};
ghost use Rattle.regions.specs.Places as placing;
ghost use Rattle.regions.specs.Table.{word_of, kept_of, now_of, place_of, LeadsToKept, CanCompact, IsRenewedBy};

use super::copies::follow;
use super::moves::slide;
use super::places::assign;

/// Packs the marked objects: each goes to its new place, in the order of addresses, with its references renewed. In the regions
/// of the set `shut` objects stay where they are. `heap`, `marks` and `places` have an entry for each address from
/// `region_words` on, and `tops` one for each region. Afterwards
/// `tops` has the new tops, and by `places` each word that led to a marked object can be renewed.
pub fn compact_marked(
    region_words: u64,
    shut: u64,
    marks: &[bool],
    heap: &mut [u64],
    places: &mut [u64],
    tops: &mut [u64],
)
    requires compact { CanCompact region_words heap.old marks.now }
    requires table { length places.old ≡ length heap.old }
    requires regions { length heap.old ≡ length tops.old * region_words }
    requires few { length tops.old ≤ 64 }
    ensures slid { IsSlidTo (region_words + length heap.old) region_words (place_of region_words (placing.is_shut shut) heap.old marks.now) (kept_of region_words heap.old marks.now)
        (renewed (place_of region_words (placing.is_shut shut) heap.old marks.now) (now_of region_words heap.old)) (word_of region_words heap.old) (word_of region_words heap.new) }
    ensures tops { (index : ℕ) → index < length tops.old → slice_index tops.new index
        ≡ (if placing.is_shut shut (index + 1) then slice_index tops.old index else top_before region_words (placing.is_shut shut) (kept_of region_words heap.old marks.now) index (region_words + length heap.old)) }
    ensures renews { (word : ℕ) → LeadsToKept region_words heap.old marks.now word → IsRenewedBy region_words (placing.is_shut shut) heap.old marks.now places.new word }
{
    assign(region_words, shut, heap, marks, places, tops);
    follow(region_words, heap, places);
    slide(region_words, places, marks, heap);
}
