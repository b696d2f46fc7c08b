//! Words of a line, and what they say by themselves.
ghost use Rattle.std.specs.Prelude.{◌≡◌, ◌∷◌, [], ◌==◌, true, false, if◌then◌else◌, ◌<◌, ◌≤◌, IfOk, IfSome, MatchOption, length};
ghost use Rattle.std.specs.List.{prefix_len};
ghost use Rattle.std.specs.Str.Parse.{AllDigits, digits_value};
ghost use Rattle.trace_reading.specs.Causes.{parts, parts_behind, is_plain_number};
ghost use Rattle.find_play.specs.WordsSaid.{ranged, number_between, number_wanted, wanted_in};
ghost use Rattle.find_play.specs.Names.{is_name_byte, name_bytes, is_name};

use crate::Wanted;
use crate::fault::TestWhy;
use crate::slot::Value;
use trace_reading::{Why, digits_at, is_numeral, value_of};

/// How many bytes stand before the first such byte.
fn before(separator: u8, bytes: &[u8]) -> usize
    ensures { result ≡ prefix_len (λ byte. if byte == separator then false else true) bytes.now }
{
    for (count, byte) in bytes.iter().enumerate() {
        if *byte == separator {
            return count;
        }
    }
    bytes.len()
}

/// What stands before the first such byte, and the bytes from it on.
pub(crate) fn cut(separator: u8, bytes: &[u8]) -> (&[u8], &[u8])
    ensures parts { parts separator bytes.now ≡ result.0.now ∷ parts_behind separator result.1.now }
    ensures shorter { length result.1.now ≤ length bytes.now }
{
    bytes.split_at(before(separator, bytes))
}

/// The next word, and the bytes from the space behind it on.
pub(crate) fn next_word(words: &[u8]) -> Option<(&[u8], &[u8])>
    ensures shorter { IfSome result (λ cut. length cut.1.now < length words.now) }
    ensures words { MatchOption result (parts_behind 32 words.now ≡ []) (λ cut. parts_behind 32 words.now ≡ cut.0.now ∷ parts_behind 32 cut.1.now) }
{
    match words {
        [_, text @ ..] => Some(cut(b' ', text)),
        [] => None,
    }
}

/// Whether a word is a number, however large: digits without a needless zero in front.
fn is_number(word: &[u8]) -> bool
    ensures { result ≡ is_plain_number word.now }
{
    digits_at(word) == word.len() && is_numeral(word)
}

/// The number that these digits spell, from `least` to `most`.
#[tactic(auto, unfolding(crate::specs::WordsSaid::ranged))]
fn ranged(least: u64, most: u64, digits: &[u8]) -> Result<u64, TestWhy>
    requires { AllDigits 10 digits.now }
    ensures number { result ≡ ranged least most (digits_value 10 digits.now) }
    ensures within { IfOk result (λ number. number ≤ most) }
{
    match value_of(digits) {
        Some(value) if least <= value && value <= most => Ok(value),
        _ => Err(TestWhy::Trace(Why::Range)),
    }
}

/// The number from `least` to `most` that a word is.
#[tactic(auto, unfolding(crate::specs::WordsSaid::number_between))]
pub(crate) fn number_in(least: u64, most: u64, word: &[u8]) -> Result<u64, TestWhy>
    ensures number { result ≡ number_between least most word.now }
    ensures within { IfOk result (λ number. number ≤ most) }
{
    if is_number(word) {
        ranged(least, most, word)
    } else {
        Err(TestWhy::Trace(Why::Number))
    }
}

/// The number that a reply is asked to be by a word.
fn number_wanted(word: &[u8]) -> Result<Value, TestWhy>
    ensures { result ≡ number_wanted word.now }
{
    if !is_number(word) {
        return Err(TestWhy::Reply);
    }
    match number_in(0, u64::MAX, word) {
        Ok(number) => Ok(Value::Wanted(Wanted::Number(number))),
        Err(why) => Err(why),
    }
}

/// What a reply is asked to be by a word, in a test of a version.
#[tactic(auto, unfolding(crate::specs::WordsSaid::wanted_in))]
pub(crate) fn wanted_in(version: u32, word: &[u8]) -> Result<Value, TestWhy>
    ensures { result ≡ wanted_in version word.now }
{
    if word == b"yes".as_slice() {
        Ok(Value::Wanted(Wanted::Yes))
    } else if word == b"no".as_slice() {
        Ok(Value::Wanted(Wanted::No))
    } else if word == b"null".as_slice() {
        Ok(Value::Wanted(Wanted::Null))
    } else if word == b"object".as_slice() {
        Ok(Value::Wanted(Wanted::Object))
    } else if word == b"ok".as_slice() {
        Ok(Value::Wanted(Wanted::Ok))
    } else if word == b"full".as_slice() {
        Ok(Value::Wanted(Wanted::Full))
    } else if word == b"bad".as_slice() {
        Ok(Value::Wanted(Wanted::Bad))
    } else if version > 1 && word == b"pinned".as_slice() {
        Ok(Value::Wanted(Wanted::Pinned))
    } else {
        number_wanted(word)
    }
}

/// How many bytes of a name stand at the front.
fn name_bytes(word: &[u8]) -> usize
    ensures { result ≡ name_bytes word.now }
{
    for (count, byte) in word.iter().enumerate() {
        if !is_name_byte(*byte) {
            return count;
        }
    }
    word.len()
}

/// Whether a byte may stand in a name.
fn is_name_byte(byte: u8) -> bool
    ensures { result ≡ is_name_byte byte }
{
    byte.is_ascii_lowercase() || byte.is_ascii_digit() || byte == b'_'
}

/// Whether a word can be a name: small letters, digits and `_`, the first no digit.
pub(crate) fn is_name(word: &[u8]) -> bool
    ensures { result ≡ is_name word.now }
{
    !word.is_empty() && digits_at(word) == 0 && name_bytes(word) == word.len()
}
