//! Writes the mark bits of the objects that were found.

ghost use Rattle.std.specs.Prelude.{◌≡◌, ◌+◌, ◌≤◌, [], bit_or};
ghost use Rattle.heap_words.specs.Words.{Grey, Black, Heap, IsWord, word_at, bit_words, table_words, write};
ghost use Rattle.regions.specs.Marks as bits;
ghost use Rattle.heap_world.specs.Walk.{has};
ghost use Rattle.image_graph.specs.State.{config_of, memory_of, found_of, marks_of, AreFound};
ghost use Rattle.mark_core.specs.Steps.{greyed, marked};

use image_graph::Image;
use regions::{mark_mask, mark_word, mark_words};

// Sets the bit of an address in a row of words of marks that begins at an index of the table.
fn set_mark(image: &mut Image, row: usize, address: u64)
    requires row { row + bit_words (config_of image.old) ≤ table_words (config_of image.old) }
    requires inside { IsWord (config_of image.old) (Heap address) }
    ensures config { config_of image.new ≡ config_of image.old }
    ensures found { found_of image.new ≡ found_of image.old }
    ensures marks { marks_of image.new ≡ marks_of image.old }
    ensures grey { let c = config_of image.old in let n = bits.mark_word c address in row ≡ word_at c (Grey 0) → memory_of image.new ≡ write (memory_of image.old) (Grey n) (bit_or (memory_of image.old (Grey n)) (bits.mark_mask c address)) }
    ensures black { let c = config_of image.old in let n = bits.mark_word c address in row ≡ word_at c (Black 0) → memory_of image.new ≡ write (memory_of image.old) (Black n) (bit_or (memory_of image.old (Black n)) (bits.mark_mask c address)) }
{
    let config = image.config();
    let at = row + mark_word(config, address);
    let bits = image.word(at) | mark_mask(config, address);
    image.set_word(at, bits);
}

// Takes all marks away.
fn clear_marks(image: &mut Image)
    requires { AreFound image.old }
    ensures config { config_of image.new ≡ config_of image.old }
    ensures found { found_of image.new ≡ found_of image.old }
    ensures still { AreFound image.new }
    ensures words { memory_of image.new ≡ greyed (config_of image.old) (has []) (bit_words (config_of image.old)) (memory_of image.old) }
{
    let config = image.config();
    for word in 0..mark_words(config) {
        image.set_word(config.grey_at(word), 0);
        image.set_word(config.black_at(word), 0);
    }
}

/// Makes exactly what was found grey, and nothing black.
pub(crate) fn grey_found(image: &mut Image)
    requires { AreFound image.old }
    ensures config { config_of image.new ≡ config_of image.old }
    ensures words { memory_of image.new ≡ greyed (config_of image.old) (has (found_of image.old)) (bit_words (config_of image.old)) (memory_of image.old) }
{
    clear_marks(image);
    let grey = image.config().grey_at(0);
    let mut turn = 0;
    while let Some(address) = image.found_at(turn) {
        set_mark(image, grey, address);
        turn += 1;
    }
}

/// Makes what was found grey and black.
pub(crate) fn mark_found(image: &mut Image)
    requires { AreFound image.old }
    ensures config { config_of image.new ≡ config_of image.old }
    ensures words { memory_of image.new ≡ marked (config_of image.old) (has (found_of image.old)) (bit_words (config_of image.old)) (memory_of image.old) }
{
    let config = image.config();
    let grey = config.grey_at(0);
    let black = config.black_at(0);
    let mut turn = 0;
    while let Some(address) = image.found_at(turn) {
        set_mark(image, grey, address);
        set_mark(image, black, address);
        turn += 1;
    }
}
