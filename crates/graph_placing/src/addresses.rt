//! Where the objects of a text go.

ghost use Rattle.std.specs.Prelude.{◌≡◌, ◌<◌, ◌≤◌, ◌↔◌, length, IsTrue, IfOk};
ghost use Rattle.graph_placing.specs.ByName.{words_of_row, Fits};
ghost use Rattle.graph_placing.specs.PlaceableText.{IsPlaceable};
ghost use Rattle.graph_placing.specs.Writing.{AreAddresses};

use heap_words::{Config, NoMemory};
use regions::place_behind;
use shen_graph::GraphText;
use std::alloc::Global;

/// The words of the object in a row.
pub(crate) fn words_of_row(config: Config, text: &GraphText, row: usize) -> u64
    requires whole { IsPlaceable config text.now }
    requires row { row < length text.now.rows }
    ensures value { result ≡ words_of_row text.now row }
    ensures bound { result ≤ 35 }
{
    3 + text.refs_at(row) as u64 + text.nums_at(row) as u64
}

/// Whether the objects need no more regions than the heap has.
pub(crate) fn fits(config: Config, text: &GraphText) -> bool
    requires { IsPlaceable config text.now }
    ensures { IsTrue result ↔ Fits config text.now }
{
    let region_words = config.region_words() as u64;
    let last = (config.regions() as u64 + 1) * region_words;
    let mut end = region_words;
    for row in 0..text.rows() {
        let words = words_of_row(config, text, row);
        end = place_behind(region_words, end, words) + words;
        if end > last {
            return false;
        }
    }
    true
}

/// The address of the object in each row.
pub(crate) fn addresses(
    alloc: Global,
    config: Config,
    text: &GraphText,
) -> Result<Vec<u64>, NoMemory>
    requires whole { IsPlaceable config text.now }
    requires fits { Fits config text.now }
    ensures { IfOk result (λ addresses. AreAddresses config text.now addresses.items) }
{
    let region_words = config.region_words() as u64;
    let Ok(mut addresses) = Vec::with_capacity(alloc, text.rows()) else {
        return Err(NoMemory);
    };
    let mut end = region_words;
    for row in 0..text.rows() {
        let words = words_of_row(config, text, row);
        let address = place_behind(region_words, end, words);
        let Ok(()) = addresses.push(address) else {
            return Err(NoMemory);
        };
        end = address + words;
    }
    Ok(addresses)
}
