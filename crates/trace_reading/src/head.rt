//! The three lines of the head.
ghost use Rattle.std.specs.Prelude.{◌≡◌, ◌⊎◌, ℕ, ◌-◌, List, [], ◌∷◌, ◌++◌, slice_index_or, None, MatchOption};
ghost use Rattle.std.specs.Str.Parse.{digits_value};
ghost use Rattle.trace_reading.specs.Causes.{parts, number_cause, title_cause};
ghost use Rattle.heap_words.specs.declared.config.Config.{Config};
ghost use Rattle.heap_words.specs.Narrow.{IsNarrow};
ghost use Rattle.trace_reading.specs.Spelling.{IsVersion, header};
ghost use Rattle.trace_reading.specs.Refused.{cause_of, StopsAt};
ghost use Rattle.trace_reading.specs.Refused as stage;

use crate::numbers::{is_number, numbers_cause};
use crate::parts::{count_words, cut, next_word};
use crate::{Why, value_of};

/// Why a line is none of this title and of numbers in these ranges.
fn title_cause(title: &[u8], ranges: &[(u64, u64)], text: &[u8]) -> Option<Why>
    ensures { result ≡ title_cause title.now ranges.now (parts 32 text.now) }
{
    let (word, words) = cut(b' ', text);
    if word == title && count_words(words) == ranges.len() {
        numbers_cause(ranges, words)
    } else {
        Some(Why::Header)
    }
}

/// The most regions that may be reserved on a line of the heap: one fewer than there are. Where their number is none, any.
fn most_reserved(text: &[u8]) -> u64
    ensures { number_cause 4 64 (slice_index_or (parts 32 text.now) 1 []) ≡ None → result ≡ digits_value 10 (slice_index_or (parts 32 text.now) 1 []) - 1 }
{
    let (_, words) = cut(b' ', text);
    let Some((word, _)) = next_word(words) else {
        return 0;
    };
    if !is_number(word) {
        return 0;
    }
    match value_of(word) {
        Some(regions) => regions.saturating_sub(1),
        None => 0,
    }
}

/// The line at the front, if it has an end, and the bytes behind it.
pub fn line_at(bytes: &[u8]) -> Option<(&[u8], &[u8])>
    ensures { MatchOption result ((text : List ℕ) × (parts 10 bytes.now ≡ text ∷ [])) (λ cut. parts 10 bytes.now ≡ cut.0.now ∷ parts 10 cut.1.now) }
{
    let (text, end) = cut(b'\n', bytes);
    let (_, rest) = end.split_first()?;
    Some((text, rest))
}

/// Why no line of the version stands at the front.
fn version_cause(bytes: &[u8]) -> Option<Why>
    ensures { result ≡ cause_of stage.Version (parts 10 bytes.now) }
{
    match line_at(bytes) {
        Some((text, _)) => title_cause(b"shen", &[(1, 2)], text),
        None => Some(Why::EndOfLine),
    }
}

/// Why no line of the heap stands at the front.
fn heap_cause(bytes: &[u8]) -> Option<Why>
    ensures { (version : ℕ) → result ≡ cause_of (stage.Heap version) (parts 10 bytes.now) }
{
    match line_at(bytes) {
        Some((text, _)) => title_cause(
            b"heap",
            &[(4, 64), (64, 1024), (0, most_reserved(text))],
            text,
        ),
        None => Some(Why::EndOfLine),
    }
}

/// Why no line of the threads stands at the front.
fn threads_cause(bytes: &[u8]) -> Option<Why>
    ensures { (version regions region_words reserve : ℕ) → result ≡ cause_of (stage.Threads version regions region_words reserve) (parts 10 bytes.now) }
{
    match line_at(bytes) {
        Some((text, _)) => title_cause(b"threads", &[(1, 8), (0, 3)], text),
        None => Some(Why::EndOfLine),
    }
}

/// What is behind the first line, or nothing where it has no end.
fn behind_line(bytes: &[u8]) -> &[u8]
    ensures { (text : List ℕ) × ((parts 10 bytes.now ≡ text ∷ []) ⊎ (parts 10 bytes.now ≡ text ∷ parts 10 result.now)) }
{
    match line_at(bytes) {
        Some((_, rest)) => rest,
        None => &[],
    }
}

/// A line of the head that is refused.
#[derive(Clone, Copy)]
pub struct Refusal {
    /// The line, counted from 1.
    pub line: u64,
    /// The first cause that holds for it.
    pub why: Why,
}

/// The first line of a trace's head that is refused, and why. None: the bytes begin with a head.
pub fn head_refusal(bytes: &[u8]) -> Option<Refusal>
    ensures { MatchOption result ((version : ℕ) × (config : Config) × (rest : List ℕ) × IsVersion version × IsNarrow config × (bytes.now ≡ header version config ++ rest)) (λ refusal. StopsAt bytes.now refusal.line refusal.why) }
{
    if let Some(why) = version_cause(bytes) {
        return Some(Refusal { line: 1, why });
    }
    let heap = behind_line(bytes);
    if let Some(why) = heap_cause(heap) {
        return Some(Refusal { line: 2, why });
    }
    let why = threads_cause(behind_line(heap))?;
    Some(Refusal { line: 3, why })
}
