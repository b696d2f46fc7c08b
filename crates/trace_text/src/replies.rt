//! The reply of an entry.
ghost use Rattle.std.specs.Prelude.{◌≡◌};
ghost use Rattle.std.specs.Option.{option_map};
ghost use Rattle.trace_text.specs.Entries.{word_begun_by, spelled_word, count_at, numbered_at, spelled_place, spelled_reply};

use shen_graph::{Name, Reply};
use trace_reading::{number_at, text_at};

/// The largest number of a name.
const MOST_OF_NAME: u64 = 4_294_967_295;

/// The reply whose word begins with this byte, and the word.
fn word_begun_by(first: u8) -> Option<(Reply, &'static [u8])>
    ensures { option_map (λ x. (x.0, x.1.now)) result ≡ word_begun_by first }
{
    match first {
        b'-' => Some((Reply::Null, b"-".as_slice())),
        b'o' => Some((Reply::Ok, b"ok".as_slice())),
        b'y' => Some((Reply::Yes, b"yes".as_slice())),
        b'n' => Some((Reply::No, b"no".as_slice())),
        b'b' => Some((Reply::Bad, b"bad".as_slice())),
        b'f' => Some((Reply::Full, b"full".as_slice())),
        _ => None,
    }
}

/// The reply at the front that is a word, where the bytes begin with this one.
#[tactic(auto, unfolding(crate::specs::Entries::spelled_word))]
fn word_at(first: u8, bytes: &[u8]) -> Option<(Reply, &[u8])>
    ensures { option_map (λ x. (x.0, x.1.now)) result ≡ spelled_word first bytes.now }
{
    let (reply, word) = word_begun_by(first)?;
    let rest = text_at(word, bytes)?;
    Some((reply, rest))
}

/// The name of this thread whose count stands at the front.
#[tactic(auto, unfolding(crate::specs::Entries::count_at))]
fn count_at(thread: u32, bytes: &[u8]) -> Option<(Reply, &[u8])>
    ensures { option_map (λ x. (x.0, x.1.now)) result ≡ count_at thread bytes.now }
{
    let (count, rest) = number_at(MOST_OF_NAME, bytes)?;
    let name = Name {
        thread,
        count: count as u32,
    };
    Some((Reply::Ref(name), rest))
}

/// The reply at the front that begins with a number: it, or a name.
#[tactic(auto, unfolding(crate::specs::Entries::numbered_at))]
fn numbered_at(bytes: &[u8]) -> Option<(Reply, &[u8])>
    ensures { option_map (λ x. (x.0, x.1.now)) result ≡ numbered_at bytes.now }
{
    let (number, rest) = number_at(u64::MAX, bytes)?;
    let Some(count) = text_at(b".", rest) else {
        return Some((Reply::Number(number), rest));
    };
    if number > MOST_OF_NAME {
        None
    } else {
        count_at(number as u32, count)
    }
}

/// The place at the front, behind its mark.
#[tactic(auto, unfolding(crate::specs::Entries::spelled_place))]
fn place_at(bytes: &[u8]) -> Option<(Reply, &[u8])>
    ensures { option_map (λ x. (x.0, x.1.now)) result ≡ spelled_place bytes.now }
{
    let (place, rest) = number_at(u64::MAX, bytes)?;
    Some((Reply::At(place), rest))
}

/// The reply at the front, and the bytes behind it.
#[tactic(auto, unfolding(crate::specs::Entries::spelled_reply))]
pub(crate) fn reply_at(bytes: &[u8]) -> Option<(Reply, &[u8])>
    ensures { option_map (λ x. (x.0, x.1.now)) result ≡ spelled_reply bytes.now }
{
    match bytes {
        [first, ..] if first.is_ascii_digit() => numbered_at(bytes),
        [b'@', place @ ..] => place_at(place),
        [first, ..] => word_at(*first, bytes),
        [] => None,
    }
}
