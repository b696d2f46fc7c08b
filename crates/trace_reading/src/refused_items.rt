//! Words where items are to stand.
ghost use Rattle.std.specs.Prelude.{◌≡◌};
ghost use Rattle.trace_reading.specs.Codes.{is_code};
ghost use Rattle.trace_reading.specs.Causes.{counted_cause, until_cause, item_cause, items_cause, schedule_cause, parts_behind};

use crate::numbers::{is_number, range_cause};
use crate::parts::next_word;
use crate::{Why, digits_at};
use heap_words::{Config, Place};

/// The most steps, or replies, of an item.
const MOST_COUNT: u64 = 4_000_000_000;

/// Whether a text is the code of a place.
fn is_code(text: &[u8]) -> bool
    ensures { result ≡ is_code text.now }
{
    match text {
        [first, second] => Place::of([*first, *second]).is_some(),
        _ => false,
    }
}

/// Why a machine up to `most` and a count are none.
#[tactic(auto, unfolding(crate::specs::Causes::counted_cause))]
fn counted_cause(most: u64, machine: &[u8], count: &[u8]) -> Option<Why>
    ensures { result ≡ counted_cause most machine.now count.now }
{
    if !is_number(machine) || !is_number(count) {
        return Some(Why::Item);
    }
    match range_cause(1, most, machine) {
        Some(why) => Some(why),
        None => range_cause(1, MOST_COUNT, count),
    }
}

/// Why a machine up to `most` and the code of a place are none.
#[tactic(auto, unfolding(crate::specs::Causes::until_cause))]
fn until_cause(most: u64, machine: &[u8], code: &[u8]) -> Option<Why>
    ensures { result ≡ until_cause most machine.now code.now }
{
    if is_number(machine) && is_code(code) {
        range_cause(1, most, machine)
    } else {
        Some(Why::Item)
    }
}

/// Why a word is no item.
#[tactic(auto, unfolding(crate::specs::Causes::item_cause))]
fn item_cause(config: &Config, word: &[u8]) -> Option<Why>
    ensures { result ≡ item_cause config.now word.now }
{
    let (machine, aim) = word.split_at(digits_at(word));
    match aim {
        [b':', count @ ..] => counted_cause(config.seats() as u64, machine, count),
        [b'=', count @ ..] => counted_cause(config.mutators() as u64, machine, count),
        [b'@', code @ ..] => until_cause(config.seats() as u64, machine, code),
        _ => Some(Why::Item),
    }
}

/// Why these words are no items: the first cause, from left to right.
fn items_cause(config: &Config, words: &[u8]) -> Option<Why>
    ensures { result ≡ items_cause config.now (parts_behind 32 words.now) }
{
    let mut rest = words;
    'items: while let Some((word, behind)) = next_word(rest) {
        if let Some(why) = item_cause(config, word) {
            return Some(why);
        }
        rest = behind;
    }
    None
}

/// Why the words behind the mark of a line of the schedule are none.
pub(crate) fn schedule_cause(config: &Config, words: &[u8]) -> Option<Why>
    ensures { result ≡ schedule_cause config.now (parts_behind 32 words.now) }
{
    if words.is_empty() {
        Some(Why::Item)
    } else {
        items_cause(config, words)
    }
}
