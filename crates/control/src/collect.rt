//! What a pause makes of an image.

ghost use Rattle.std.specs.Prelude.{◌≡◌, ◌≢◌, ◌==◌, true, false};
ghost use Rattle.std.specs.Int.{bit_at};
ghost use Rattle.heap_words.specs.Words.{Phase, Ask, Evac};
ghost use Rattle.heap_words.specs.Counter as counter;
ghost use Rattle.heap_words.specs.Phases.{idle_phase, marking_phase};
ghost use Rattle.image_graph.specs.SeatBuffers.{AreInside};
ghost use Rattle.image_graph.specs.State.{config_of, memory_of};
ghost use Rattle.cycle_words.specs.Marking.Final.{final_marked};
ghost use Rattle.mark_core.specs.Result.{MarksSome};
ghost use Rattle.mark_core.specs.Trace.{HasRootsInside};
ghost use Rattle.cycle_words.specs.Evacuation.Begun.{CanBegin};
ghost use Rattle.cycle_pauses.specs.Evacuation.Collect.{evac_next};
ghost use Rattle.cycle_pauses.specs.Ended.{ended, CanEnd};
ghost use Rattle.cycle_pauses.specs.Collect as room;
ghost use Rattle.cycle_pauses.specs.Collect.{next_in_cycle, room_made, collected, CanPauseSome};

use degenerated::{Finished, begin_evac, choose, final_update, finish, init_update};
use full_cycle::full;
use heap_words::phase::{EVACUATION, IDLE, MARKING};
use image_graph::Image;
use mark_core::{final_mark, init_mark, init_mark_by_part};

// The bit of what is asked for that says that a mutator waits for room.
const ROOM: u32 = 1;

// The bit of the word of the copiers that says that one of them found no room.
const OUT_OF_ROOM: u32 = 63;

// The phase.
fn phase(image: &Image) -> u64
    ensures { result ≡ memory_of image.now Phase }
{
    image.word(image.config().phase_at())
}

// Ends marking, chooses the regions to evacuate, and begins evacuation.
fn end_mark(image: &mut Image)
    requires marks { MarksSome (config_of image.old) (memory_of image.old) }
    requires can { CanBegin (config_of image.old) (final_marked (config_of image.old) (memory_of image.old)) }
    ensures config { config_of image.new ≡ config_of image.old }
    ensures words { memory_of image.new ≡ evac_next (config_of image.old) (memory_of image.old) }
{
    final_mark(image);
    let set = choose(image);
    begin_evac(image, set);
}

// Goes on to the next phase of the cycle.
fn go_on(image: &mut Image)
    requires { CanPauseSome (config_of image.old) (memory_of image.old) }
    ensures config { config_of image.new ≡ config_of image.old }
    ensures words { memory_of image.new ≡ next_in_cycle (config_of image.old) (memory_of image.old) }
{
    match phase(image) {
        IDLE => init_mark(image),
        MARKING => end_mark(image),
        EVACUATION => init_update(image),
        _ => final_update(image),
    }
}

// Goes on to the next phase of the cycle where no room is needed and objects are not marked, over an image of which a part is that
// of a heap: in phase 0 the words off the heap, and else those before the words of the mutators.
pub(crate) fn collect_by_part(image: &mut Image)
    requires calm { room.is_room_needed (memory_of image.old) ≡ false }
    requires unmarked { memory_of image.old Phase ≢ marking_phase }
    requires roots { memory_of image.old Phase ≡ idle_phase → HasRootsInside (config_of image.old) (memory_of image.old) }
    requires buffers { AreInside (config_of image.old) (memory_of image.old) }
    ensures config { config_of image.new ≡ config_of image.old }
    ensures words { memory_of image.new ≡ collected (config_of image.old) (memory_of image.old) }
{
    match phase(image) {
        IDLE => init_mark_by_part(image),
        EVACUATION => init_update(image),
        _ => final_update(image),
    }
}

// Whether a mutator waits for room.
fn is_room_asked(image: &Image) -> bool
    ensures { result ≡ (bit_at (memory_of image.now Ask) 1 == 1) }
{
    image.word(image.config().ask_at()) >> ROOM & 1 == 1
}

// Whether a copier found no room.
fn is_out_of_room(image: &Image) -> bool
    ensures { result ≡ counter.is_out_of_room (memory_of image.now Evac) }
{
    image.word(image.config().evac_at()) >= 1 << OUT_OF_ROOM
}

// Whether room is needed now: a mutator waits for it, or a copier found none.
fn is_room_needed(image: &Image) -> bool
    ensures { result ≡ room.is_room_needed (memory_of image.now) }
{
    is_room_asked(image) || phase(image) == EVACUATION && is_out_of_room(image)
}

// Ends a cycle in its pause: it is finished, and where an object or a request found no room the heap is collected in full.
fn end_cycle(image: &mut Image)
    requires { CanEnd (config_of image.old) (memory_of image.old) }
    ensures config { config_of image.new ≡ config_of image.old }
    ensures words { memory_of image.new ≡ ended (config_of image.old) (memory_of image.old) }
{
    match finish(image) {
        Finished::Whole => {}
        Finished::Short => full(image),
    }
}

// Makes room: where no cycle runs the heap is collected in full. Else the cycle is ended, past its marking.
fn make_room(image: &mut Image)
    requires can { CanPauseSome (config_of image.old) (memory_of image.old) }
    requires needed { room.is_room_needed (memory_of image.old) ≡ true }
    ensures config { config_of image.new ≡ config_of image.old }
    ensures words { memory_of image.new ≡ room_made (config_of image.old) (memory_of image.old) }
{
    match phase(image) {
        IDLE => full(image),
        MARKING => {
            end_mark(image);
            end_cycle(image);
        }
        _ => end_cycle(image),
    }
}

/// Does what a pause does: where a mutator waits for room, or a copier found none, it ends the cycle at once, or collects in full
/// where none runs; else it goes on to the next phase of the cycle.
pub(crate) fn collect(image: &mut Image)
    requires { CanPauseSome (config_of image.old) (memory_of image.old) }
    ensures config { config_of image.new ≡ config_of image.old }
    ensures words { memory_of image.new ≡ collected (config_of image.old) (memory_of image.old) }
{
    if is_room_needed(image) {
        make_room(image);
    } else {
        go_on(image);
    }
}
