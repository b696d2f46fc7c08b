//! The items of a schedule.
ghost use Rattle.std.specs.Prelude.{◌<◌, MatchOption};
ghost use Rattle.heap_words.specs.Place.{code_of};
ghost use Rattle.heap_words.specs.Ranges.{seat_count};
ghost use Rattle.trace_reading.specs.Spelling.{IsItem, aim, item};
ghost use Rattle.trace_reading.specs.Front.{BeginsWith, BeginsWithNone, IsAny, IsItemOf};

use crate::positive_at;
use heap_words::{Config, Item, Place};

/// The most steps, or replies, of an item.
const MOST_COUNT: u64 = 4_000_000_000;

/// The place whose code stands at the front, and the bytes behind it.
fn place_at(bytes: &[u8]) -> Option<(Place, &[u8])>
    ensures { MatchOption result (BeginsWithNone code_of IsAny bytes.now) (λ found. BeginsWith code_of IsAny bytes.now found.0 found.1.now) }
{
    match bytes {
        [first, second, rest @ ..] => {
            let place = Place::of([*first, *second])?;
            Some((place, rest))
        }
        _ => None,
    }
}

/// The item of this machine whose aim stands at the front, and the bytes behind it.
fn aim_at<'a>(config: &Config, number: usize, bytes: &'a [u8]) -> Option<(Item, &'a [u8])>
    requires { number < seat_count config.now.mutators config.now.helpers }
    ensures { MatchOption result (BeginsWithNone aim (IsItemOf config.now number) bytes.now) (λ found. BeginsWith aim (IsItemOf config.now number) bytes.now found.0 found.1.now) }
{
    let (mark, rest) = bytes.split_first()?;
    match *mark {
        b':' => {
            let (count, rest) = positive_at(MOST_COUNT, rest)?;
            Some((Item::Steps { number, count }, rest))
        }
        b'@' => {
            let (place, rest) = place_at(rest)?;
            Some((Item::Until { number, place }, rest))
        }
        b'=' => {
            if number >= config.mutators() {
                return None;
            }
            let (count, rest) = positive_at(MOST_COUNT, rest)?;
            Some((Item::Replies { number, count }, rest))
        }
        _ => None,
    }
}

/// The item at the front, and the bytes behind it.
pub(crate) fn item_at<'a>(config: &Config, bytes: &'a [u8]) -> Option<(Item, &'a [u8])>
    ensures { MatchOption result (BeginsWithNone item (IsItem config.now) bytes.now) (λ found. BeginsWith item (IsItem config.now) bytes.now found.0 found.1.now) }
{
    let (machine, rest) = positive_at(config.seats() as u64, bytes)?;
    aim_at(config, machine as usize - 1, rest)
}
