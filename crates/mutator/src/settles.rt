//! What the access of a mutator settles: by the words of the table, as they are before it.
ghost use Rattle.std.specs.Prelude.{◌≡◌, length, Some, None, if◌then◌else◌};
ghost use Rattle.heap_words.specs.Words.{table_words, view};
ghost use Rattle.mutator.specs.Rows as rows;
ghost use Rattle.mutator.specs.Told as told;

use crate::commands::{fits_slot, has_part, is_on_object};
use crate::fields::FieldSpot;
use crate::loads::LoadSpot;
use crate::numbers::NumberSpot;
use crate::pins::{PinSpot, pin_reply};
use crate::shows::name_in;
use heap_words::Config;
use shen_graph::{Command, Reply};

// The name word of an object; 0 where the heap has none.
fn name_at(config: Config, words: &[u64], object: u64) -> u64
    requires { length words.now ≡ table_words config }
    ensures { result ≡ told.name_of_object (view config words.now) object }
{
    let first = config.region_words() as u64;
    let beyond = first + config.heap_size() as u64;
    if object < beyond && first <= object + 2 && object + 2 < beyond {
        words[config.heap_at(object + 2)]
    } else {
        0
    }
}

// Whether two references name the same: both are null, or both are of objects of one name.
fn name_the_same(config: Config, words: &[u64], a: u64, b: u64) -> bool
    requires { length words.now ≡ table_words config }
    ensures { result ≡ told.name_the_same (view config words.now) a b }
{
    if a == 0 || b == 0 {
        a == b
    } else {
        name_at(config, words, a) == name_at(config, words, b)
    }
}

// The reply that shows a reference.
fn shown(config: Config, words: &[u64], value: u64) -> Reply
    requires { length words.now ≡ table_words config }
    ensures { result ≡ told.shown_word (view config words.now) value }
{
    if value == 0 {
        Reply::Null
    } else {
        Reply::Ref(name_in(name_at(config, words, value)))
    }
}

// Whether two roots are the same, where a command asks so.
fn second_root(config: Config, words: &[u64], command: Command, a: u64, b: u64) -> Option<Reply>
    requires { length words.now ≡ table_words config }
    ensures { result ≡ told.told_second (view config words.now) command a b }
{
    match command {
        Command::Same { .. } => {
            if name_the_same(config, words, a, b) {
                Some(Reply::Yes)
            } else {
                Some(Reply::No)
            }
        }
        _ => None,
    }
}

/// What is settled where a call loads a root of its command, or the shape of its object, and finds this word.
pub(crate) fn load_settles(
    config: Config,
    words: &[u64],
    seat: usize,
    command: Command,
    at: LoadSpot,
    found: u64,
) -> Option<Reply>
    requires words { length words.now ≡ table_words config }
    requires found { view config words.now (rows.load_touch seat command at).word ≡ found }
    ensures { result ≡ told.load_told (view config words.now) seat command at }
{
    match at {
        LoadSpot::First => bad_if(is_on_object(command) && found == 0),
        LoadSpot::Second { first } => second_root(config, words, command, first, found),
        LoadSpot::Third { .. } => None,
        LoadSpot::Shape { .. } => bad_if(!has_part(command, found)),
    }
}

/// What is settled where a call works on the reference field of its command, and finds this reference there.
pub(crate) fn field_settles(
    config: Config,
    words: &[u64],
    object: u64,
    command: Command,
    at: FieldSpot,
    found: u64,
) -> Option<Reply>
    requires words { length words.now ≡ table_words config }
    requires found { view config words.now (rows.field_touch object command at).word ≡ found }
    ensures { result ≡ told.field_told (view config words.now) object command at }
{
    match at {
        FieldSpot::Load | FieldSpot::Swap { .. } => Some(shown(config, words, found)),
        FieldSpot::LoadExpected { expect, .. } => {
            if name_the_same(config, words, found, expect) {
                None
            } else {
                Some(Reply::No)
            }
        }
        FieldSpot::LoadOld { .. } => None,
        FieldSpot::Store { .. } => Some(Reply::Ok),
        FieldSpot::Exchange {
            found: expected,
            ..
        } => {
            if found == expected {
                Some(Reply::Yes)
            } else {
                None
            }
        }
    }
}

/// What is settled where a call works on the number of its command, and finds this number there.
pub(crate) fn number_settles(at: NumberSpot, found: u64) -> Reply
    ensures { Some result ≡ told.number_told (λ _. found) 0 0 Command.Gc at }
{
    match at {
        NumberSpot::Load => Reply::Number(found),
        NumberSpot::Store => Reply::Ok,
    }
}

/// What is settled where a call works on the pin slot of its command, and finds this word there.
pub(crate) fn pin_settles(value: u64, command: Command, at: PinSpot, found: u64) -> Option<Reply>
    ensures { result ≡ told.pin_told (λ _. found) 0 value command at }
{
    match at {
        PinSpot::Look => bad_if(!fits_slot(command, found)),
        PinSpot::Store => Some(pin_reply(command, value)),
    }
}

// Bad, if so.
fn bad_if(bad: bool) -> Option<Reply>
    ensures { result ≡ (if bad then Some Reply.Bad else None) }
{
    if bad { Some(Reply::Bad) } else { None }
}
