//! What a pause does with the image.

ghost use Rattle.std.specs.Prelude.{ℕ, ◌≡◌, ◌≢◌, ◌+◌, ◌<◌, true, length, take, slice_set};
ghost use Rattle.heap_words.specs.Words.{Phase, Cset, image_start, table_words};
ghost use Rattle.heap_world.specs.Change.{image_view, image_words};
ghost use Rattle.image_graph.specs.State.{config_of, memory_of};
ghost use Rattle.collector_rows.specs.declared.extent.Extent.TheVariants.{Whole};
ghost use Rattle.collector_rows.specs.declared.control_spot.ControlSpot.TheVariants.{LoadWord};
ghost use Rattle.collector_rows.specs.Extent.{is_of_extent, extent_after};
ghost use Rattle.collector_rows.specs.ControlReady.{is_ready};
ghost use Rattle.collector_rows.specs.ControlRows.{after_load, stored_next, next_spot, next_image, seen_after, next_seen, next_phase, next_set};
ghost use Rattle.cycle_pauses.specs.Collect.{collect_image, CanPauseSome};
ghost use Rattle.control.specs.Clear.{IsClear};
ghost use Rattle.control.specs.Fit.{CanCollectPart, fits_with};
ghost use Rattle.control.specs.Image.{image_in, image_from, part_in, image_shown, words_seen, SeesOwn};
ghost use Rattle.control.specs.Starts.{AreHeapIndices};

use crate::collect::{collect, collect_by_part};
use crate::starts::{clear_starts, starts_in};
use collector_rows::{ControlSpot, Extent, LastPause, image_words};
use heap_words::phase::IDLE;
use image_graph::Image;

// Makes the words before the image 0.
pub(crate) fn clear(image: &mut Image)
    ensures config { config_of image.new ≡ config_of image.old }
    ensures image { image_in image.new ≡ image_in image.old }
    ensures clear { IsClear image.new }
{
    for at in 0..image.config().image_start() {
        image.set_word(at, 0);
    }
}

// Puts a word of the image.
pub(crate) fn put_word(image: &mut Image, index: usize, word: u64)
    requires index { index < image_words (config_of image.old) }
    requires clear { IsClear image.old }
    ensures config { config_of image.new ≡ config_of image.old }
    ensures image { image_in image.new ≡ slice_set (image_in image.old) index word }
    ensures clear { IsClear image.new }
{
    let start = image.config().image_start();
    image.set_word(start + index, word);
}

// Puts all words of the image, as a table has them.
pub(crate) fn load(image: &mut Image, words: &[u64])
    requires words { length words.now ≡ table_words (config_of image.old) }
    requires clear { IsClear image.old }
    ensures config { config_of image.new ≡ config_of image.old }
    ensures image { image_in image.new ≡ image_from (config_of image.old) words.now }
    ensures clear { IsClear image.new }
{
    let config = image.config();
    let start = config.image_start();
    for index in 0..image_words(config) {
        put_word(image, index, words[start + index]);
    }
}

// Collects the image.
fn collect_image(image: &mut Image)
    requires clear { IsClear image.old }
    requires can { CanPauseSome (config_of image.old) (image_view (config_of image.old) (image_in image.old)) }
    ensures config { config_of image.new ≡ config_of image.old }
    ensures image { image_in image.new ≡ collect_image (config_of image.old) (image_in image.old) }
    ensures clear { IsClear image.new }
{
    collect(image);
}

// Collects the image by a part of it, which was loaded. Of all other words only those are written where the free words of a buffer
// begin.
fn collect_part(image: &mut Image, extent: Extent) -> [usize; 12]
    requires part { extent ≢ Whole }
    requires clear { IsClear image.old }
    requires can { CanCollectPart (config_of image.old) extent (image_view (config_of image.old) (part_in (config_of image.old) extent (image_in image.old))) }
    ensures config { config_of image.new ≡ config_of image.old }
    ensures image { image_shown (config_of image.old) extent result (image_in image.new) ≡ collect_image (config_of image.old) (part_in (config_of image.old) extent (image_in image.old)) }
    ensures clear { IsClear image.new }
    ensures heap { AreHeapIndices (config_of image.old) result }
{
    let starts = starts_in(image);
    clear_starts(image, &starts);
    collect_by_part(image);
    starts
}

// Collects what was loaded of the image. Where the free words of buffers begin is told by what was given, where all was loaded.
fn collect_loaded(image: &mut Image, starts: [usize; 12], extent: Extent) -> [usize; 12]
    requires heap { AreHeapIndices (config_of image.old) starts }
    requires clear { IsClear image.old }
    requires can { CanCollectPart (config_of image.old) extent (image_view (config_of image.old) (part_in (config_of image.old) extent (image_in image.old))) }
    ensures config { config_of image.new ≡ config_of image.old }
    ensures image { image_shown (config_of image.old) extent result (image_in image.new) ≡ collect_image (config_of image.old) (part_in (config_of image.old) extent (image_in image.old)) }
    ensures clear { IsClear image.new }
    ensures heap { AreHeapIndices (config_of image.old) result }
{
    match extent {
        Extent::Whole => {
            collect_image(image);
            starts
        }
        _ => collect_part(image, extent),
    }
}

// What stands in the image of a pause that ends.
fn ended_with(image: &Image, before: LastPause) -> LastPause
    ensures phase { result.phase ≡ memory_of image.now Phase }
    ensures cset { result.cset ≡ memory_of image.now Cset }
    ensures seen { result.seen ≡ seen_after before.seen (memory_of image.now) }
{
    let config = image.config();
    let phase = image.word(config.phase_at());
    let seen = if phase == IDLE {
        image.word(config.free_at())
    } else {
        before.seen
    };
    LastPause {
        phase,
        cset: image.word(config.cset_at()),
        seen,
    }
}

// Takes a word of the image that was loaded, and with the last one collects. What stood at the end of the last pause becomes
// what stands in the new image then.
fn take_word(
    image: &mut Image,
    starts: &mut [usize; 12],
    index: usize,
    extent: Extent,
    last: LastPause,
    word: u64,
) -> LastPause
    requires index { index < image_words (config_of image.old) }
    requires own { is_of_extent (config_of image.old) extent index ≡ true }
    requires heap { AreHeapIndices (config_of image.old) starts.old }
    requires clear { IsClear image.old }
    requires fit { fits_with (config_of image.old) (LoadWord index extent) last.phase (take index (part_in (config_of image.old) extent (image_in image.old))) word }
    ensures config { config_of image.new ≡ config_of image.old }
    ensures image { words_seen (config_of image.old) (after_load (config_of image.old) (extent_after last.phase index extent word) index) starts.new (image_in image.new) ≡ next_image collect_image (config_of image.old) (LoadWord index extent) (take index (part_in (config_of image.old) extent (image_in image.old))) last.phase word }
    ensures seen { result.seen ≡ next_seen collect_image (config_of image.old) (LoadWord index extent) (take index (part_in (config_of image.old) extent (image_in image.old))) last.seen last.phase word }
    ensures phase { result.phase ≡ next_phase collect_image (config_of image.old) (LoadWord index extent) (take index (part_in (config_of image.old) extent (image_in image.old))) last.phase word }
    ensures cset { result.cset ≡ next_set collect_image (config_of image.old) (LoadWord index extent) (take index (part_in (config_of image.old) extent (image_in image.old))) last.cset last.phase word }
    ensures clear { IsClear image.new }
    ensures heap { AreHeapIndices (config_of image.old) starts.new }
{
    put_word(image, index, word);
    let extent_now = extent.after(last.phase, index, word);
    let config = image.config();
    let next = extent_now.next(config, index);
    let end = image_words(config);
    if next < end {
        return last;
    }
    *starts = collect_loaded(image, *starts, extent_now);
    ended_with(image, last)
}

// Takes the word that the step of a spot has found: where a word of the image is loaded it goes into the image, and anywhere else
// the image stays.
pub(crate) fn take_found(
    image: &mut Image,
    starts: &mut [usize; 12],
    spot: ControlSpot,
    last: LastPause,
    got: u64,
) -> LastPause
    requires ready { is_ready (config_of image.old) spot ≡ true }
    requires own { SeesOwn (config_of image.old) spot starts.old }
    requires heap { AreHeapIndices (config_of image.old) starts.old }
    requires clear { IsClear image.old }
    requires fit { fits_with (config_of image.old) spot last.phase (words_seen (config_of image.old) spot starts.old (image_in image.old)) got }
    ensures config { config_of image.new ≡ config_of image.old }
    ensures image { words_seen (config_of image.old) (next_spot (config_of image.old) last.phase last.cset last.seen (stored_next (config_of image.old) spot (words_seen (config_of image.old) spot starts.old (image_in image.old))) spot got) starts.new (image_in image.new) ≡ next_image collect_image (config_of image.old) spot (words_seen (config_of image.old) spot starts.old (image_in image.old)) last.phase got }
    ensures seen { result.seen ≡ next_seen collect_image (config_of image.old) spot (words_seen (config_of image.old) spot starts.old (image_in image.old)) last.seen last.phase got }
    ensures phase { result.phase ≡ next_phase collect_image (config_of image.old) spot (words_seen (config_of image.old) spot starts.old (image_in image.old)) last.phase got }
    ensures cset { result.cset ≡ next_set collect_image (config_of image.old) spot (words_seen (config_of image.old) spot starts.old (image_in image.old)) last.cset last.phase got }
    ensures clear { IsClear image.new }
    ensures heap { AreHeapIndices (config_of image.old) starts.new }
    ensures own { SeesOwn (config_of image.old) (next_spot (config_of image.old) last.phase last.cset last.seen (stored_next (config_of image.old) spot (words_seen (config_of image.old) spot starts.old (image_in image.old))) spot got) starts.new }
{
    match spot {
        ControlSpot::LoadWord { index, extent } => {
            take_word(image, starts, index, extent, last, got)
        }
        _ => last,
    }
}
