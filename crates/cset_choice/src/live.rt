//! How much of a region lives.

ghost use Rattle.std.specs.Prelude.{◌≡◌, ◌*◌, ◌<◌, ◌≤◌, true};
ghost use Rattle.heap_words.specs.Words.{Heap, IsWord};
ghost use Rattle.regions.specs.Places.{LieApart};
ghost use Rattle.image_graph.specs.State.{config_of, memory_of};
ghost use Rattle.cycle_words.specs.Marking.Marks as marks;
ghost use Rattle.cycle_words.specs.Evacuation.Live as lives;
ghost use Rattle.cycle_words.specs.Evacuation.Laws.{IsMarkedIn};
ghost use Rattle.cset_choice.specs.Tables.{most_live};

use heap_words::words_of;
use image_graph::Image;
use mark_core::next_black;
use regions::base;

// The words of the marked object at an address.
fn marked_words(image: &Image, address: u64) -> u64
    requires inside { IsWord (config_of image.now) (Heap address) }
    requires apart { LieApart (config_of image.now).region_words (lives.marked_words (config_of image.now) (memory_of image.now)) }
    requires black { marks.is_black (config_of image.now) (memory_of image.now) address ≡ true }
    ensures value { result ≡ lives.marked_words (config_of image.now) (memory_of image.now) address }
    ensures bound { result ≤ 513 }
{
    words_of(image.word(image.config().heap_at(address + 1)))
}

/// The live words of a region, which is counted from 0, once the marks are closed: those of its marked objects, so of the marked
/// pieces of the region where the image holds a graph. Marked objects lie apart, each in one region. Takes time linear in the words of marks of a region
/// and in its marked objects.
pub fn live_words(image: &Image, region: usize) -> u64
    requires region { region < (config_of image.now).regions }
    requires apart { LieApart (config_of image.now).region_words (lives.marked_words (config_of image.now) (memory_of image.now)) }
    ensures value { result ≡ lives.live_words (config_of image.now) (memory_of image.now) region }
    ensures marked { IsMarkedIn (config_of image.now) (memory_of image.now) region result }
    ensures bound { result ≤ most_live }
{
    let first = base(image.config(), region);
    let end = first + image.config().region_words() as u64;
    let mut words = 0;
    let mut address = next_black(image, first, end);
    while address < end {
        words += marked_words(image, address);
        address = next_black(image, address + 1, end);
    }
    words
}
