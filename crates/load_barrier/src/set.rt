ghost use Rattle.std.specs.Prelude.{◌≡◌, ◌≢◌};
ghost use Rattle.heap_words.specs.Words.{Heap, IsWord};
ghost use Rattle.load_barrier.specs.UnitRows as rows;

use heap_words::Config;
use heap_words::phase::EVACUATION;
use regions::{is_in, region_of};

/// Whether a value that was loaded has to be resolved: null is not, and no value is in a phase in which objects do not move, or
/// outside the collection set.
pub fn must_resolve(config: Config, phase: u64, cset: u64, value: u64) -> bool
    requires { value ≢ 0 → IsWord config (Heap value) }
    ensures { result ≡ rows.must_resolve config phase cset value }
{
    value != 0 && phase >= EVACUATION && lies_in_set(config, cset, value)
}

// Whether an address of the heap lies in a region of a set.
pub(crate) fn lies_in_set(config: Config, cset: u64, address: u64) -> bool
    requires { IsWord config (Heap address) }
    ensures { result ≡ rows.lies_in_set config cset address }
{
    is_in(cset, region_of(config, address))
}
