//! The lines behind the head.
ghost use Rattle.std.specs.Prelude.{◌≡◌, map};
ghost use Rattle.trace_reading.specs.Kinds.{kinds};
ghost use Rattle.trace_reading.specs.Causes.{parts, parts_behind, numbers_cause, kind_named, command_cause};
ghost use Rattle.trace_reading.specs.Refused.{cause_of, words_cause, body_stage};

use crate::numbers::{number_cause, numbers_cause};
use crate::parts::{count_words, cut, next_word};
use crate::refused_items::schedule_cause;
use crate::{CommandKind, Why, kinds_of};
use heap_words::Config;

/// The first of these kinds that has this word.
fn kind_among(kinds: &[CommandKind], word: &[u8]) -> Option<CommandKind>
    ensures { result ≡ kind_named kinds.now word.now }
{
    for kind in kinds {
        if word == kind.word() {
            return Some(*kind);
        }
    }
    None
}

/// Why these words are no numbers up to these limits: the first cause, from left to right.
fn limits_cause(limits: &[u64], words: &[u8]) -> Option<Why>
    ensures { result ≡ numbers_cause (map (λ limit. (0, limit)) limits.now) (parts_behind 32 words.now) }
{
    let mut rest = words;
    for limit in limits {
        let (word, behind) = next_word(rest)?;
        if let Some(why) = number_cause(0, *limit, word) {
            return Some(why);
        }
        rest = behind;
    }
    None
}

/// Why the words behind the thread's are no command that the version has, or the thread is none of so many.
fn command_cause(version: u32, threads: u64, thread: &[u8], words: &[u8]) -> Option<Why>
    ensures { result ≡ command_cause version threads thread.now (parts_behind 32 words.now) }
{
    let Some((word, numbers)) = next_word(words) else {
        return Some(Why::Command);
    };
    let Some(kind) = kind_among(kinds_of(version), word) else {
        return Some(Why::Command);
    };
    if count_words(numbers) != kind.limits().len() {
        return Some(Why::Command);
    }
    match number_cause(1, threads, thread) {
        Some(why) => Some(why),
        None => limits_cause(kind.limits(), numbers),
    }
}

/// Why a line behind the head of a trace of a version, given without its end, is none, where a line of the schedule stands before it
/// or not: the first cause that holds.
pub fn text_cause(version: u32, config: &Config, behind_schedule: bool, text: &[u8]) -> Option<Why>
    ensures { result ≡ words_cause (body_stage version config.now behind_schedule) (parts 32 text.now) }
{
    let (word, words) = cut(b' ', text);
    if word == b"!".as_slice() {
        schedule_cause(config, words)
    } else if behind_schedule {
        Some(Why::ScheduleLast)
    } else {
        command_cause(version, config.mutators() as u64, word, words)
    }
}

/// Why the line at the front of the bytes is none in a trace of a version, where a line of the schedule stands before it or not.
/// Without bytes there is no cause.
pub fn body_refusal(
    version: u32,
    config: &Config,
    behind_schedule: bool,
    bytes: &[u8],
) -> Option<Why>
    ensures { result ≡ cause_of (body_stage version config.now behind_schedule) (parts 10 bytes.now) }
{
    let (text, end) = cut(b'\n', bytes);
    if !end.is_empty() {
        text_cause(version, config, behind_schedule, text)
    } else if text.is_empty() {
        None
    } else {
        Some(Why::EndOfLine)
    }
}
