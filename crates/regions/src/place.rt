ghost use Rattle.std.specs.Prelude.{◌≡◌, ◌<◌};
ghost use Rattle.heap_words.specs.Words.{Heap, IsWord};
ghost use Rattle.regions.specs.Place.{region_with, base_of, RegionsTile};

use heap_words::Config;

/// The region that an address of the heap is of, counted from 0. An address counts words.
pub fn region_of(config: Config, address: u64) -> usize
    requires { IsWord config (Heap address) }
    ensures value { result ≡ region_with config address }
    ensures below { result < config.regions }
{
    (address / config.region_words as u64 - 1) as usize
}

/// The first address of a region, which is counted from 0. An address counts words. The lowest region
/// begins one region's worth of words above 0, so that 0 and 1 are no addresses and can be null and FULL.
pub fn base(config: Config, region: usize) -> u64
    requires { region < config.regions }
    ensures { result ≡ base_of config region }
{
    (region as u64 + 1) * config.region_words as u64
}

/// A law: the regions share out the addresses of the heap.
pub fn regions_tile()
    ensures { RegionsTile }
{}
