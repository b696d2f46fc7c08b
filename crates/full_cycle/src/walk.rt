//! Finds the objects that roots, answers and pin slots lead to.

ghost use Rattle.std.specs.Prelude.{ℕ, ◌≡◌, ◌+◌, ◌<◌, ◌≤◌, map};
ghost use Rattle.std.specs.List.{range_with_len};
ghost use Rattle.heap_words.specs.Words.{Root, Answer, Pin};
ghost use Rattle.heap_world.specs.Walk.{with_address, with_addresses};
ghost use Rattle.image_graph.specs.Full.{copies_of, roots_below, answers_below, field_words, held_in, kept_in};
ghost use Rattle.image_graph.specs.Pinned.{pins_below};
ghost use Rattle.image_graph.specs.State.{config_of, memory_of, found_of, AreFound, IsUnchanged};
ghost use Rattle.full_cycle.specs.Collect.{current_address, CanCollect, LeadsToHeld};

use heap_words::refs_of;
use image_graph::Image;

// Notes the current copy of what a word names. Null, 0, names nothing.
fn find_copy(image: &mut Image, word: u64)
    requires can { CanCollect (config_of image.old) (memory_of image.old) }
    requires found { AreFound image.old }
    requires leads { LeadsToHeld (config_of image.old) (memory_of image.old) word }
    ensures unchanged { IsUnchanged image.old image.new }
    ensures found { AreFound image.new }
    ensures noted { found_of image.new ≡ with_address (found_of image.old) (current_address (memory_of image.old) word) }
{
    if word != 0 {
        let copy = image.resolve(word);
        image.find(copy);
    }
}

// Notes what the roots of a mutator name.
fn find_roots(image: &mut Image, mutator: usize)
    requires mutator { mutator < (config_of image.old).mutators }
    requires can { CanCollect (config_of image.old) (memory_of image.old) }
    requires found { AreFound image.old }
    ensures unchanged { IsUnchanged image.old image.new }
    ensures found { AreFound image.new }
    ensures noted { found_of image.new ≡ with_addresses (found_of image.old) (copies_of (memory_of image.old) (map (λ index. memory_of image.old (Root mutator index)) (range_with_len 0 16))) }
{
    let config = image.config();
    for index in 0..16 {
        let word = image.word(config.root_at(mutator, index));
        find_copy(image, word);
    }
}

// Notes what the roots of all mutators name.
fn find_all_roots(image: &mut Image)
    requires can { CanCollect (config_of image.old) (memory_of image.old) }
    requires found { AreFound image.old }
    ensures unchanged { IsUnchanged image.old image.new }
    ensures found { AreFound image.new }
    ensures noted { found_of image.new ≡ with_addresses (found_of image.old) (copies_of (memory_of image.old) (roots_below (memory_of image.old) (config_of image.old).mutators)) }
{
    let config = image.config();
    for mutator in 0..config.mutators() {
        find_roots(image, mutator);
    }
}

// Notes the object that is the answer of a mutator: 0 is no answer yet, and 1 says that the heap is full.
fn find_answer(image: &mut Image, mutator: usize)
    requires mutator { mutator < (config_of image.old).mutators }
    requires can { CanCollect (config_of image.old) (memory_of image.old) }
    requires found { AreFound image.old }
    ensures unchanged { IsUnchanged image.old image.new }
    ensures found { AreFound image.new }
    ensures none { memory_of image.old (Answer mutator) ≤ 1 → found_of image.new ≡ found_of image.old }
    ensures noted { 1 < memory_of image.old (Answer mutator) → found_of image.new ≡ with_address (found_of image.old) (current_address (memory_of image.old) (memory_of image.old (Answer mutator))) }
{
    let config = image.config();
    let answer = image.word(config.answer_at(mutator));
    if answer <= 1 {
        return;
    }
    find_copy(image, answer);
}

// Notes the objects that are answers.
fn find_answers(image: &mut Image)
    requires can { CanCollect (config_of image.old) (memory_of image.old) }
    requires found { AreFound image.old }
    ensures unchanged { IsUnchanged image.old image.new }
    ensures found { AreFound image.new }
    ensures noted { found_of image.new ≡ with_addresses (found_of image.old) (copies_of (memory_of image.old) (answers_below (memory_of image.old) (config_of image.old).mutators)) }
{
    let config = image.config();
    for mutator in 0..config.mutators() {
        find_answer(image, mutator);
    }
}

// Notes what the pin slots of a mutator hold.
fn find_pins(image: &mut Image, mutator: usize)
    requires mutator { mutator < (config_of image.old).mutators }
    requires can { CanCollect (config_of image.old) (memory_of image.old) }
    requires found { AreFound image.old }
    ensures unchanged { IsUnchanged image.old image.new }
    ensures found { AreFound image.new }
    ensures noted { found_of image.new ≡ with_addresses (found_of image.old) (copies_of (memory_of image.old) (map (λ slot. memory_of image.old (Pin mutator slot)) (range_with_len 0 4))) }
{
    let config = image.config();
    for slot in 0..4 {
        let word = image.word(config.pin_at(mutator, slot));
        find_copy(image, word);
    }
}

// Notes what the pin slots of all mutators hold.
fn find_all_pins(image: &mut Image)
    requires can { CanCollect (config_of image.old) (memory_of image.old) }
    requires found { AreFound image.old }
    ensures unchanged { IsUnchanged image.old image.new }
    ensures found { AreFound image.new }
    ensures noted { found_of image.new ≡ with_addresses (found_of image.old) (copies_of (memory_of image.old) (pins_below (memory_of image.old) (config_of image.old).mutators)) }
{
    let config = image.config();
    for mutator in 0..config.mutators() {
        find_pins(image, mutator);
    }
}

// Notes what the references of an object name.
fn find_fields(image: &mut Image, address: u64)
    requires can { CanCollect (config_of image.old) (memory_of image.old) }
    requires found { AreFound image.old }
    requires kept { 0 < kept_in (config_of image.old) (memory_of image.old) address }
    ensures unchanged { IsUnchanged image.old image.new }
    ensures found { AreFound image.new }
    ensures noted { found_of image.new ≡ with_addresses (found_of image.old) (copies_of (memory_of image.old) (field_words (memory_of image.old) address)) }
{
    let config = image.config();
    let refs = refs_of(image.word(config.heap_at(address + 1)));
    for index in 0..refs {
        let word = image.word(config.heap_at(address + 3 + index));
        find_copy(image, word);
    }
}

/// Finds the objects that roots, answers and pin slots lead to, by current copies, and no others. No word changes.
pub(crate) fn find_held(image: &mut Image)
    requires { CanCollect (config_of image.old) (memory_of image.old) }
    ensures unchanged { IsUnchanged image.old image.new }
    ensures found { AreFound image.new }
    ensures held { found_of image.new ≡ held_in (config_of image.old) (memory_of image.old) }
{
    image.forget_found();
    find_all_roots(image);
    find_answers(image);
    find_all_pins(image);
    let mut turn = 0;
    while let Some(address) = image.found_at(turn) {
        find_fields(image, address);
        turn += 1;
    }
}
