//! Updates all references in one pause.

ghost use Rattle.std.specs.Prelude.{◌≡◌, ◌^◌, ◌<◌};
ghost use Rattle.heap_words.specs.Words.{Word, Cset, IsWord, word_at, table_words, write};
ghost use Rattle.image_graph.specs.State.{config_of, memory_of, places_of};
ghost use Rattle.cycle_words.specs.Finishing.Updated.{CanUpdateAll, all_updated};
ghost use Rattle.cycle_words.specs.StillHolds.{UpdatingHolds};
ghost use Rattle.degenerated.specs.Steps.{kept_now, updated_by, row_updated, roots_updated, answers_updated};

use crate::fields::{update_fields, updated};
use image_graph::Image;

// Updates the word at an index of the table.
fn update_place(image: &mut Image, at: usize)
    requires at { at < table_words (config_of image.old) }
    requires set { memory_of image.old Cset < 2 ^ (config_of image.old).regions }
    ensures config { config_of image.new ≡ config_of image.old }
    ensures places { places_of image.new ≡ places_of image.old }
    ensures words { (place : Word) → IsWord (config_of image.old) place → word_at (config_of image.old) place ≡ at → memory_of image.new ≡ write (memory_of image.old) place (updated_by (config_of image.old) (kept_now image.old) (memory_of image.old) (memory_of image.old place)) }
{
    let word = updated(image, image.word(at));
    image.set_word(at, word);
}

// Updates the roots of a mutator.
fn update_roots(image: &mut Image, mutator: usize)
    requires mutator { mutator < (config_of image.old).mutators }
    requires set { memory_of image.old Cset < 2 ^ (config_of image.old).regions }
    ensures config { config_of image.new ≡ config_of image.old }
    ensures places { places_of image.new ≡ places_of image.old }
    ensures words { memory_of image.new ≡ row_updated (config_of image.old) (kept_now image.old) mutator 16 (memory_of image.old) }
{
    let config = image.config();
    for index in 0..16 {
        update_place(image, config.root_at(mutator, index));
    }
}

// Updates the roots of all mutators.
fn update_all_roots(image: &mut Image)
    requires { memory_of image.old Cset < 2 ^ (config_of image.old).regions }
    ensures config { config_of image.new ≡ config_of image.old }
    ensures places { places_of image.new ≡ places_of image.old }
    ensures words { memory_of image.new ≡ roots_updated (config_of image.old) (kept_now image.old) (config_of image.old).mutators (memory_of image.old) }
{
    let config = image.config();
    for mutator in 0..config.mutators() {
        update_roots(image, mutator);
    }
}

// Updates the answers of all mutators.
fn update_answers(image: &mut Image)
    requires { memory_of image.old Cset < 2 ^ (config_of image.old).regions }
    ensures config { config_of image.new ≡ config_of image.old }
    ensures places { places_of image.new ≡ places_of image.old }
    ensures words { memory_of image.new ≡ answers_updated (config_of image.old) (kept_now image.old) (config_of image.old).mutators (memory_of image.old) }
{
    let config = image.config();
    for mutator in 0..config.mutators() {
        update_place(image, config.answer_at(mutator));
    }
}

/// Updates all references: each reference of a kept object outside the collection set, or of one that has not moved in a pinned
/// region of the set, and each root and answer, that names an object of the set that has moved names its copy then. No other word
/// changes. Where objects stay, each lies below the top of its region. Where the image holds a graph, each piece of its regions says how many words it has, and nobody has a
/// buffer, it holds the same graph afterwards. Takes no memory, and time linear in the words of the heap.
pub fn update_all(image: &mut Image)
    requires { CanUpdateAll (config_of image.old) (memory_of image.old) }
    ensures config { config_of image.new ≡ config_of image.old }
    ensures words { memory_of image.new ≡ all_updated (config_of image.old) (memory_of image.old) }
    ensures holds { UpdatingHolds (config_of image.old) (memory_of image.old) (memory_of image.new) }
{
    image.keep_heap();
    update_fields(image);
    update_all_roots(image);
    update_answers(image);
}
