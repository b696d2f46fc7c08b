//! Writes names anew.

ghost use Rattle.std.specs.Prelude.{◌≡◌, ◌<◌, ◌+◌, replicate, length};
ghost use Rattle.shen_graph.specs.GraphText.{row_of, names_of};
ghost use Rattle.image_graph.specs.State.{config_of, memory_of};
ghost use Rattle.graph_placing.specs.ByName.{words_of_row, Fits};
ghost use Rattle.graph_placing.specs.PlaceableText.{IsPlaceable};
ghost use Rattle.graph_placing.specs.Renaming.{AreOfThreads, AreCountsOf};
ghost use Rattle.graph_placing.specs.NamesRewritten.{names_written};

use crate::counts::count_one;
use heap_words::name_word;
use image_graph::Image;
use regions::place_behind;
use shen_graph::GraphText;

// The words of the object in a row.
fn words_of_row(text: &GraphText, row: usize) -> u64
    requires short { words_of_row text.now row < 36 }
    requires row { row < length text.now.rows }
    ensures { result ≡ words_of_row text.now row }
{
    3 + text.refs_at(row) as u64 + text.nums_at(row) as u64
}

/// Writes the new name of each object of a text, in an image in which they were placed in the order of their names, and counts the objects
/// of each thread, of which none is counted yet.
pub(crate) fn write_names(image: &mut Image, text: &GraphText, counts: &mut [u32])
    requires whole { IsPlaceable (config_of image.old) text.now }
    requires fits { Fits (config_of image.old) text.now }
    requires names { AreOfThreads (config_of image.old).mutators (names_of text.now) }
    requires none { counts.old ≡ replicate (config_of image.old).mutators 0 }
    ensures config { config_of image.new ≡ config_of image.old }
    ensures words { memory_of image.new ≡ names_written (config_of image.old) text.now (length text.now.rows) (memory_of image.old) }
    ensures counts { AreCountsOf (names_of text.now) (config_of image.old).mutators counts.new }
{
    let config = image.config();
    let region_words = config.region_words() as u64;
    let mut end = region_words;
    for row in 0..text.rows() {
        let words = words_of_row(text, row);
        let address = place_behind(region_words, end, words);
        let name = text.name_at(row);
        let count = count_one(counts, name.thread);
        image.set_word(config.heap_at(address + 2), name_word(name.thread, count));
        end = address + words;
    }
}
