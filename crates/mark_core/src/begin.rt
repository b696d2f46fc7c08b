//! The beginning of marking.

ghost use Rattle.std.specs.Prelude.{ℕ, ◌≡◌, ◌<◌, ◌≤◌, [], map};
ghost use Rattle.std.specs.List.{range_with_len};
ghost use Rattle.heap_words.specs.Words.{Cset, Root, Answer, Pin};
ghost use Rattle.heap_world.specs.Walk.{with_address, with_addresses};
ghost use Rattle.image_graph.specs.Full.{roots_below, answers_below, held_words};
ghost use Rattle.image_graph.specs.Pinned.{pins_below};
ghost use Rattle.image_graph.specs.SeatBuffers.{AreInside};
ghost use Rattle.image_graph.specs.State.{config_of, memory_of, found_of, AreFound, IsUnchanged};
ghost use Rattle.image_graph.specs.Holds.{HoldsSome};
ghost use Rattle.cycle_words.specs.Marking.Init.{marking_begun, init_marked};
ghost use Rattle.mark_core.specs.Steps.{noted};
ghost use Rattle.mark_core.specs.Trace.{HasRootsInside};
ghost use Rattle.mark_core.specs.Result.{BeginsToMark, MarksSome};

use crate::clear::empty_buffers;
use crate::colour::grey_found;
use heap_words::phase::MARKING;
use image_graph::Image;

// Notes what the roots of a mutator name.
fn find_roots(image: &mut Image, mutator: usize)
    requires mutator { mutator < (config_of image.old).mutators }
    requires inside { HasRootsInside (config_of image.old) (memory_of image.old) }
    requires found { AreFound image.old }
    ensures unchanged { IsUnchanged image.old image.new }
    ensures found { AreFound image.new }
    ensures noted { found_of image.new ≡ with_addresses (found_of image.old) (map (λ index. memory_of image.old (Root mutator index)) (range_with_len 0 16)) }
{
    let config = image.config();
    for index in 0..16 {
        let word = image.word(config.root_at(mutator, index));
        image.find(word);
    }
}

// Notes what the roots of all mutators name.
fn find_all_roots(image: &mut Image)
    requires inside { HasRootsInside (config_of image.old) (memory_of image.old) }
    requires found { AreFound image.old }
    ensures unchanged { IsUnchanged image.old image.new }
    ensures found { AreFound image.new }
    ensures noted { found_of image.new ≡ with_addresses (found_of image.old) (roots_below (memory_of image.old) (config_of image.old).mutators) }
{
    let config = image.config();
    for mutator in 0..config.mutators() {
        find_roots(image, mutator);
    }
}

// Notes the object that is the answer of a mutator: 0 is no answer yet, and 1 says that the heap is full.
fn find_answer(image: &mut Image, mutator: usize)
    requires mutator { mutator < (config_of image.old).mutators }
    requires inside { HasRootsInside (config_of image.old) (memory_of image.old) }
    requires found { AreFound image.old }
    ensures unchanged { IsUnchanged image.old image.new }
    ensures found { AreFound image.new }
    ensures none { memory_of image.old (Answer mutator) ≤ 1 → found_of image.new ≡ found_of image.old }
    ensures noted { 1 < memory_of image.old (Answer mutator) → found_of image.new ≡ with_address (found_of image.old) (memory_of image.old (Answer mutator)) }
{
    let config = image.config();
    let answer = image.word(config.answer_at(mutator));
    if answer <= 1 {
        return;
    }
    image.find(answer);
}

// Notes the objects that are answers.
fn find_answers(image: &mut Image)
    requires inside { HasRootsInside (config_of image.old) (memory_of image.old) }
    requires found { AreFound image.old }
    ensures unchanged { IsUnchanged image.old image.new }
    ensures found { AreFound image.new }
    ensures noted { found_of image.new ≡ with_addresses (found_of image.old) (answers_below (memory_of image.old) (config_of image.old).mutators) }
{
    let config = image.config();
    for mutator in 0..config.mutators() {
        find_answer(image, mutator);
    }
}

// Notes what the pin slots of a mutator hold.
fn find_pins(image: &mut Image, mutator: usize)
    requires mutator { mutator < (config_of image.old).mutators }
    requires inside { HasRootsInside (config_of image.old) (memory_of image.old) }
    requires found { AreFound image.old }
    ensures unchanged { IsUnchanged image.old image.new }
    ensures found { AreFound image.new }
    ensures noted { found_of image.new ≡ with_addresses (found_of image.old) (map (λ slot. memory_of image.old (Pin mutator slot)) (range_with_len 0 4)) }
{
    let config = image.config();
    for slot in 0..4 {
        let word = image.word(config.pin_at(mutator, slot));
        image.find(word);
    }
}

// Notes what the pin slots of all mutators hold.
fn find_all_pins(image: &mut Image)
    requires inside { HasRootsInside (config_of image.old) (memory_of image.old) }
    requires found { AreFound image.old }
    ensures unchanged { IsUnchanged image.old image.new }
    ensures found { AreFound image.new }
    ensures noted { found_of image.new ≡ with_addresses (found_of image.old) (pins_below (memory_of image.old) (config_of image.old).mutators) }
{
    let config = image.config();
    for mutator in 0..config.mutators() {
        find_pins(image, mutator);
    }
}

// Finds what roots, answers and pin slots hold.
fn find_all_held(image: &mut Image)
    requires { HasRootsInside (config_of image.old) (memory_of image.old) }
    ensures unchanged { IsUnchanged image.old image.new }
    ensures found { AreFound image.new }
    ensures held { found_of image.new ≡ with_addresses [] (held_words (config_of image.old) (memory_of image.old)) }
{
    image.forget_found();
    find_all_roots(image);
    find_answers(image);
    find_all_pins(image);
}

// Notes the edges of all regions.
fn note_edges(image: &mut Image)
    ensures config { config_of image.new ≡ config_of image.old }
    ensures words { memory_of image.new ≡ noted (config_of image.old) (config_of image.old).regions (memory_of image.old) }
{
    let config = image.config();
    for region in 0..config.regions() {
        let edge = image.edge(region);
        image.set_word(config.tams_at(region), edge);
    }
}

// Begins marking, where buffers are settled.
fn begin(image: &mut Image)
    requires { HasRootsInside (config_of image.old) (memory_of image.old) }
    ensures config { config_of image.new ≡ config_of image.old }
    ensures words { memory_of image.new ≡ marking_begun (config_of image.old) (memory_of image.old) }
{
    find_all_held(image);
    grey_found(image);
    note_edges(image);
    empty_buffers(image);
    let config = image.config();
    image.set_word(config.claim_at(), 0);
    image.set_word(config.ask_at(), 0);
    image.set_word(config.phase_at(), MARKING);
}

/// Begins marking as `init_mark` does, over an image of which the words off the heap are those of a heap; what stands for the
/// words of the heap is not read, and written only where the first free word of a buffer that is given up says that they fill.
/// Roots, answers and pin slots hold addresses of the heap, and buffers lie in its regions. Takes no memory, and time linear in
/// the mark words, regions and mutators together.
pub fn init_mark_by_part(image: &mut Image)
    requires roots { HasRootsInside (config_of image.old) (memory_of image.old) }
    requires buffers { AreInside (config_of image.old) (memory_of image.old) }
    ensures config { config_of image.new ≡ config_of image.old }
    ensures words { memory_of image.new ≡ init_marked (config_of image.old) (memory_of image.old) }
{
    image.settle();
    begin(image);
}

/// Begins marking: buffers are settled, no mark is left of an earlier one, the objects that roots, answers and pin slots
/// hold are grey, the edges of the regions are noted, and no unit is claimed and nothing asked for. The image holds a graph, and
/// no region is in the collection set. The image holds the same graph afterwards. Takes no memory, and time linear in the words of the heap.
pub fn init_mark(image: &mut Image)
    requires holds { HoldsSome (config_of image.old) (memory_of image.old) }
    requires calm { memory_of image.old Cset ≡ 0 }
    ensures config { config_of image.new ≡ config_of image.old }
    ensures words { memory_of image.new ≡ init_marked (config_of image.old) (memory_of image.old) }
    ensures begins { BeginsToMark (config_of image.old) (memory_of image.old) (memory_of image.new) }
    ensures marks { MarksSome (config_of image.old) (memory_of image.new) }
{
    init_mark_by_part(image);
}
