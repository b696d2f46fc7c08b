//! Writes the objects of a text into an image.

ghost use Rattle.std.specs.Prelude.{◌≡◌, ◌<◌, ◌+◌, ℕ, length, slice_index};
ghost use Rattle.heap_words.specs.Words.{Word};
ghost use Rattle.shen_graph.specs.GraphText.{row_of};
ghost use Rattle.image_graph.specs.State.{config_of, memory_of};
ghost use Rattle.graph_placing.specs.ByName.{words_of_row, address_of, Fits};
ghost use Rattle.graph_placing.specs.PlacedHeap.{word_for, words_of_object};
ghost use Rattle.graph_placing.specs.PlaceableText.{IsPlaceable};
ghost use Rattle.graph_placing.specs.Writing.{AreAddresses, copied, with_top, rows_placed};

use super::addresses::words_of_row;
use super::rows::word_for;
use heap_words::{Config, name_word, shape_of};
use image_graph::Image;
use regions::{base, region_of};
use shen_graph::GraphText;

// The word at an index of the object in a row, by the address of the object in each row.
fn object_word(config: Config, text: &GraphText, addresses: &[u64], row: usize, index: usize) -> u64
    requires whole { IsPlaceable config text.now }
    requires addresses { AreAddresses config text.now addresses.now }
    requires row { row < length text.now.rows }
    requires index { index < words_of_row text.now row }
    ensures { result ≡ slice_index (words_of_object (word_for config text.now) (row_of text.now row)) index }
{
    let refs = text.refs_at(row);
    if index == 0 {
        1
    } else if index == 1 {
        shape_of(refs as u64, text.nums_at(row) as u64)
    } else if index == 2 {
        let name = text.name_at(row);
        name_word(name.thread, name.count)
    } else if index < 3 + refs {
        word_for(config, text, addresses, text.reference_at(row, index - 3))
    } else {
        text.number_at(row, index - 3 - refs)
    }
}

// Writes the words of the object in a row at its address.
fn write_object(image: &mut Image, text: &GraphText, addresses: &[u64], row: usize)
    requires whole { IsPlaceable (config_of image.old) text.now }
    requires fits { Fits (config_of image.old) text.now }
    requires addresses { AreAddresses (config_of image.old) text.now addresses.now }
    requires row { row < length text.now.rows }
    ensures config { config_of image.new ≡ config_of image.old }
    ensures words { memory_of image.new ≡ copied (address_of (config_of image.old) text.now row) (words_of_row text.now row) (words_of_object (word_for (config_of image.old) text.now) (row_of text.now row)) (memory_of image.old) }
{
    let config = image.config();
    let address = addresses[row];
    for index in 0..words_of_row(config, text, row) {
        let word = object_word(config, text, addresses, row, index as usize);
        image.set_word(config.heap_at(address + index), word);
    }
}

// Raises the top of the region of the object in a row to where the object ends.
fn raise_top(image: &mut Image, text: &GraphText, addresses: &[u64], row: usize)
    requires whole { IsPlaceable (config_of image.old) text.now }
    requires fits { Fits (config_of image.old) text.now }
    requires addresses { AreAddresses (config_of image.old) text.now addresses.now }
    requires row { row < length text.now.rows }
    ensures config { config_of image.new ≡ config_of image.old }
    ensures words { memory_of image.new ≡ with_top (config_of image.old) text.now row (memory_of image.old) }
{
    let config = image.config();
    let address = addresses[row];
    let region = region_of(config, address);
    let top = address + words_of_row(config, text, row) - base(config, region);
    image.set_word(config.top_at(region), top);
}

/// Writes the objects of all rows, and raises the tops of their regions, in an image whose words are 0.
pub(crate) fn write_objects(image: &mut Image, text: &GraphText, addresses: &[u64])
    requires whole { IsPlaceable (config_of image.old) text.now }
    requires fits { Fits (config_of image.old) text.now }
    requires addresses { AreAddresses (config_of image.old) text.now addresses.now }
    requires empty { (word : Word) → memory_of image.old word ≡ 0 }
    ensures config { config_of image.new ≡ config_of image.old }
    ensures words { memory_of image.new ≡ rows_placed (config_of image.old) text.now (length text.now.rows) }
{
    for row in 0..text.rows() {
        write_object(image, text, addresses, row);
        raise_top(image, text, addresses, row);
    }
}
