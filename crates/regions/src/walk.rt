ghost use Rattle.std.specs.Prelude.{◌≡◌, ◌+◌, ◌^◌, ◌<◌};
ghost use Rattle.regions.specs.Walk.{stride, WalksMeetEach, ParsableIsWalked, WalkGoesOn, WalkStaysInRegion};

use heap_words::{filler_words, words_of};

/// The address behind what stands at `address`, counted in words: words that only fill, where this is their header, and
/// else an object with this shape word. For the last one of a region it is the region's base plus its top.
pub fn next_object(address: u64, header: u64, shape: u64) -> u64
    requires { address < 2 ^ 62 }
    ensures { result ≡ address + stride header shape }
{
    match filler_words(header) {
        Some(words) => address + words,
        None => address + words_of(shape),
    }
}

/// A law: a walk from a region's base, from object to object, meets each object once and ends at the
/// top. It comes there where the region is parsable, as collectors call it.
pub fn walks_meet_each()
    ensures each { WalksMeetEach }
    ensures exactly { ParsableIsWalked }
    ensures goes_on { WalkGoesOn }
    ensures in_region { WalkStaysInRegion }
{}
