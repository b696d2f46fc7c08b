ghost use Rattle.std.specs.Prelude.{◌≡◌, ◌≤◌, IsNone, IfSome, ◌↔◌};
ghost use Rattle.regions.specs.Rooms.{room_above, AreTops, EachHasLess, IsFirstWithRoom};

use super::sets::is_in;
use heap_words::Config;

/// The words that a region has left above its top, which counts the words that it has used.
pub fn room(config: Config, top: u64) -> u64
    requires { top ≤ config.region_words }
    ensures { result ≡ room_above config top }
{
    config.region_words as u64 - top
}

/// The lowest region, counted from 0, that is not in the set `not_in` and has room for so many words,
/// or nothing where each region outside the set has less. `tops` has the top of each region.
pub fn first_with_room(config: Config, tops: &[u64], not_in: u64, words: u64) -> Option<usize>
    requires { AreTops config tops.now }
    ensures none { IsNone result ↔ EachHasLess config tops.now not_in words config.regions }
    ensures first { IfSome result (IsFirstWithRoom config tops.now not_in words) }
{
    for (region, top) in tops.iter().enumerate() {
        if !is_in(not_in, region) && words <= room(config, *top) {
            return Some(region);
        }
    }
    None
}
