//! The choice of the collection set.

ghost use Rattle.std.specs.Prelude.{ℕ, ◌≡◌, ◌+◌, ◌*◌, ◌/◌, ◌^◌, ◌<◌, ◌≤◌, ◌==◌, ◌&&◌, nat_le, if◌then◌else◌, true, false, is_some, IfSome, length, slice_index};
ghost use Rattle.std.specs.Int.{bit_at};
ghost use Rattle.heap_words.specs.Words.{Free};
ghost use Rattle.image_graph.specs.State.{config_of, memory_of};
ghost use Rattle.cycle_words.specs.Marking.Marks.{bits_of};
ghost use Rattle.regions.specs.Places.{LieApart};
ghost use Rattle.cycle_words.specs.Evacuation.Live as lives;
ghost use Rattle.cycle_words.specs.Evacuation.Front as front;
ghost use Rattle.cycle_words.specs.Evacuation.Choice as choices;
ghost use Rattle.cycle_words.specs.Evacuation.Begun.{CanBegin};
ghost use Rattle.cycle_words.specs.Evacuation.Laws.{ReachableAreLive};
ghost use Rattle.cset_choice.specs.Tables.{AreLive, adds, most_live, up_to};

use crate::live::live_words;
use heap_words::Config;
use image_graph::{Image, with_if};
use regions::{is_in, size};

// The candidates, and how much lives in each of them: a region that is none has some number in the table.
#[derive(Drop)]
struct LiveCandidates {
    set: u64,
    live: [u64; 64],
}

// Whether all but how much lives in it makes a region a candidate: it is in use, neither current nor pinned, and nothing was
// allocated in it since marking began.
fn may_be_candidate(image: &Image, region: usize) -> bool
    requires { region < (config_of image.now).regions }
    ensures yes { result ≡ true → lives.is_candidate (config_of image.now) (memory_of image.now) region ≡ nat_le ((config_of image.now).region_words / 4) (lives.garbage (config_of image.now) (memory_of image.now) region) }
    ensures no { result ≡ false → lives.is_candidate (config_of image.now) (memory_of image.now) region ≡ false }
{
    let config = image.config();
    if is_in(image.word(config.free_at()), region) || image.is_current(region) {
        return false;
    }
    if image.is_pinned(region) {
        return false;
    }
    image.top(region) == image.word(config.tams_at(region))
}

// The live words of a region, if it is a candidate, so that a quarter of a region in it is garbage besides. Its marks are looked at
// only where all else makes it one.
fn live_of_candidate(image: &Image, region: usize) -> Option<u64>
    requires region { region < (config_of image.now).regions }
    requires apart { LieApart (config_of image.now).region_words (lives.marked_words (config_of image.now) (memory_of image.now)) }
    ensures candidate { is_some result ≡ lives.is_candidate (config_of image.now) (memory_of image.now) region }
    ensures live { IfSome result (λ words. words ≡ lives.live_words (config_of image.now) (memory_of image.now) region) }
    ensures bound { IfSome result (λ words. words ≤ most_live) }
{
    if !may_be_candidate(image, region) {
        return None;
    }
    let live = live_words(image, region);
    let garbage = image.top(region).saturating_sub(live);
    if image.config().region_words() as u64 / 4 <= garbage {
        Some(live)
    } else {
        None
    }
}

// The candidates, and how much lives in each of them.
fn candidates(image: &Image) -> LiveCandidates
    requires { LieApart (config_of image.now).region_words (lives.marked_words (config_of image.now) (memory_of image.now)) }
    ensures live { AreLive (config_of image.now) (memory_of image.now) result.live }
    ensures set { result.set ≡ bits_of (lives.is_candidate (config_of image.now) (memory_of image.now)) 0 (config_of image.now).regions }
{
    let mut set = 0;
    let mut live = [0; 64];
    for region in 0..image.config().regions() {
        let counted = live_of_candidate(image, region);
        let member = counted.is_some();
        let words = counted.unwrap_or(0);
        live[region] = words;
        set = with_if(set, region, member);
    }
    LiveCandidates { set, live }
}

// How many words may be copied.
fn copy_limit(image: &Image) -> u64
    requires { memory_of image.now Free < 2 ^ (config_of image.now).regions }
    ensures { result ≡ choices.copy_limit (config_of image.now) (memory_of image.now) }
{
    let config = image.config();
    let free = size(image.word(config.free_at())) as u64;
    free * (config.region_words() as u64 - 35)
}

// Whether one region comes before another in the order of the choice: less lives in it, or as much, and its number is lower.
fn comes_before(live: &[u64], region: usize, other: usize) -> bool
    requires region { region < length live.now }
    requires other { other < length live.now }
    ensures { result ≡ front.comes_before (slice_index live.now) region other }
{
    live[region] < live[other] || live[region] == live[other] && region < other
}

// What a region adds to what lives in all candidates up to another one, in their order.
fn added(live: &[u64], candidates: u64, region: usize, other: usize) -> u64
    requires region { region < 64 }
    requires other { other < 64 }
    requires long { length live.now ≡ 64 }
    ensures { result ≡ adds live.now candidates region other }
{
    if !is_in(candidates, other) {
        return 0;
    }
    if comes_before(live, region, other) {
        return 0;
    }
    live[other]
}

// What lives in all candidates up to a region, in their order.
fn live_up_to(config: Config, live: &[u64], candidates: u64, region: usize) -> u64
    requires region { region < config.regions }
    requires long { length live.now ≡ 64 }
    requires small { (any_region : ℕ) → any_region < 64 → slice_index live.now any_region ≤ most_live }
    ensures { result ≡ up_to live.now candidates config.regions region }
{
    let mut words = 0;
    for other in 0..config.regions() {
        words += added(live, candidates, region, other);
    }
    words
}

// Whether a region is a candidate, and what lives in all candidates up to it is within a limit.
fn is_taken(config: Config, live: &[u64], candidates: u64, limit: u64, region: usize) -> bool
    requires region { region < config.regions }
    requires long { length live.now ≡ 64 }
    requires small { (any_region : ℕ) → any_region < 64 → slice_index live.now any_region ≤ most_live }
    ensures { result ≡ ((bit_at candidates region == 1) && nat_le (up_to live.now candidates config.regions region) limit) }
{
    if !is_in(candidates, region) {
        return false;
    }
    live_up_to(config, live, candidates, region) <= limit
}

/// The collection set: of the candidates, in the order of their live words and then of their numbers, as many from the first
/// one on as can be copied to the free regions together. Candidates are in use, neither current nor pinned, without a new
/// object, and have garbage of a quarter of a region. What can be reached in its regions is marked, where the image holds a
/// graph and marking has ended. No word changes. Takes time linear in the words of marks and in the marked objects of the regions
/// in use in which nothing was allocated since marking began, and quadratic in the number of regions.
pub fn choose(image: &Image) -> u64
    requires { CanBegin (config_of image.now) (memory_of image.now) }
    ensures value { result ≡ choices.chosen (config_of image.now) (memory_of image.now) }
    ensures choice { choices.IsChoice (config_of image.now) (memory_of image.now) result }
    ensures live { ReachableAreLive (config_of image.now) (memory_of image.now) result }
{
    let config = image.config();
    let counted = candidates(image);
    let limit = copy_limit(image);
    let mut set = 0;
    for region in 0..config.regions() {
        set = with_if(
            set,
            region,
            is_taken(config, &counted.live, counted.set, limit, region),
        );
    }
    set
}
