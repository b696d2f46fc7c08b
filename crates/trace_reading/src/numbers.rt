//! Words where numbers are to stand.
ghost use Rattle.std.specs.Prelude.{◌≡◌};
ghost use Rattle.std.specs.Str.Parse.{AllDigits};
ghost use Rattle.trace_reading.specs.Causes.{is_plain_number, range_cause, number_cause, numbers_cause, parts_behind};

use crate::parts::next_word;
use crate::{Why, digits_at, is_numeral, value_of};

/// Digits with no needless zero in front.
pub fn is_number(word: &[u8]) -> bool
    ensures { result ≡ is_plain_number word.now }
{
    digits_at(word) == word.len() && is_numeral(word)
}

/// Whether the number that these digits spell is outside its range.
#[tactic(auto, unfolding(crate::specs::Causes::range_cause))]
pub(crate) fn range_cause(least: u64, most: u64, digits: &[u8]) -> Option<Why>
    requires { AllDigits 10 digits.now }
    ensures { result ≡ range_cause least most digits.now }
{
    match value_of(digits) {
        Some(value) if least <= value && value <= most => None,
        _ => Some(Why::Range),
    }
}

/// Why no number from `least` to `most` is this word.
#[tactic(auto, unfolding(crate::specs::Causes::number_cause))]
pub fn number_cause(least: u64, most: u64, word: &[u8]) -> Option<Why>
    ensures { result ≡ number_cause least most word.now }
{
    if is_number(word) {
        range_cause(least, most, word)
    } else {
        Some(Why::Number)
    }
}

/// Why these words are no numbers of these ranges: the first cause, from left to right.
pub(crate) fn numbers_cause(ranges: &[(u64, u64)], words: &[u8]) -> Option<Why>
    ensures { result ≡ numbers_cause ranges.now (parts_behind 32 words.now) }
{
    let mut rest = words;
    for (least, most) in ranges {
        let (word, behind) = next_word(rest)?;
        if let Some(why) = number_cause(*least, *most, word) {
            return Some(why);
        }
        rest = behind;
    }
    None
}
