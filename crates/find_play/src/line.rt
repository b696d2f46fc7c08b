//! What a line says.
ghost use Rattle.std.specs.Prelude.{◌≡◌, ◌∷◌, [], slice_index_or, IfOk, IfErr, Ok, Err};
ghost use Rattle.std.specs.Result.{result_map_both};
ghost use Rattle.trace_reading.specs.Causes.{parts, parts_behind};
ghost use Rattle.find_play.specs.NameNumbers.{number_of};
ghost use Rattle.find_play.specs.Told.{told_in};
ghost use Rattle.find_play.specs.Kinds.{line_kinds, line_slots, kind_of_word};
ghost use Rattle.find_play.specs.Lines.{as_root, as_number, fresh_in, without_word, value_in, take_value, values_in, words_behind, line_in};
ghost use Rattle.find_play.specs.Tests.{name_among};

use crate::Names;
use crate::draft::Draft;
use crate::fault::TestWhy;
use crate::kind::{LineKind, kinds_of};
use crate::slot::{Slot, Value};
use crate::words::{cut, is_name, next_word, number_in, wanted_in};

/// A line: its kind, what its words say, and the name that it gives, if it gives one.
#[derive(Clone, Copy)]
pub(crate) struct Line<'a> {
    pub kind: LineKind,
    pub values: [Value; 4],
    pub name: &'a [u8],
}

/// The first of these kinds that has this word.
fn kind_among(kinds: &[LineKind], word: &[u8]) -> Option<LineKind>
    ensures { result ≡ kind_of_word kinds.now word.now }
{
    for kind in kinds {
        if word == kind.word() {
            return Some(*kind);
        }
    }
    None
}

/// The number that a name stands for.
fn index_in(names: &Names, word: &[u8]) -> Result<usize, TestWhy>
    ensures { result ≡ as_number (number_of names.now word.now) }
{
    match names.find(word) {
        Some(number) => Ok(number),
        None => Err(TestWhy::Name),
    }
}

/// The root of this name.
fn root_in(names: &Names, word: &[u8]) -> Result<Value, TestWhy>
    ensures { result ≡ as_root (number_of names.now word.now) }
{
    match names.find(word) {
        Some(number) if number < 16 => Ok(Value::Small(number as u32)),
        _ => Err(TestWhy::Name),
    }
}

/// Whether these names may get this one.
fn fresh_in(names: &Names, word: &[u8]) -> Result<Value, TestWhy>
    ensures { result ≡ fresh_in names.now word.now }
{
    if is_name(word) && names.find(word).is_none() {
        Ok(Value::Nothing)
    } else {
        Err(TestWhy::Fresh)
    }
}

/// What a word says where this is to stand.
#[tactic(auto, unfolding(crate::specs::Lines::value_in))]
fn value_in(draft: &Draft, kind: LineKind, slot: Slot, word: &[u8]) -> Result<Value, TestWhy>
    ensures { result ≡ value_in (told_in draft.now) kind slot word.now }
{
    match slot {
        Slot::Nothing => Err(TestWhy::Line),
        Slot::Small(most) => match number_in(0, u64::from(most), word) {
            Ok(number) => Ok(Value::Small(number as u32)),
            Err(why) => Err(why),
        },
        Slot::Large { least, most } => match number_in(least, most, word) {
            Ok(number) => Ok(Value::Large(number)),
            Err(why) => Err(why),
        },
        Slot::Root => root_in(&draft.roots, word),
        Slot::Note => match index_in(&draft.notes, word) {
            Ok(number) => Ok(Value::Index(number)),
            Err(why) => Err(why),
        },
        Slot::Place => match index_in(&draft.place_names, word) {
            Ok(number) => Ok(Value::Index(number)),
            Err(why) => Err(why),
        },
        Slot::Wanted => wanted_in(draft.version, word),
        Slot::Fresh => match kind {
            LineKind::Note => fresh_in(&draft.notes, word),
            LineKind::Place => fresh_in(&draft.place_names, word),
            _ => fresh_in(&draft.roots, word),
        },
    }
}

/// What is said where no word is left.
fn without_word(slot: Slot) -> Result<Value, TestWhy>
    ensures { result ≡ without_word slot }
{
    match slot {
        Slot::Nothing => Ok(Value::Nothing),
        _ => Err(TestWhy::Line),
    }
}

/// What the next word says, and the words behind it.
#[tactic(auto, unfolding(crate::specs::Lines::take_value))]
fn take_value<'a>(
    draft: &Draft,
    kind: LineKind,
    slot: Slot,
    words: &'a [u8],
) -> Result<(Value, &'a [u8]), TestWhy>
    ensures { result_map_both (λ x. (x.0, parts_behind 32 x.1.now)) (λ why. why) result ≡ take_value (told_in draft.now) kind slot (parts_behind 32 words.now) }
{
    match next_word(words) {
        None => match without_word(slot) {
            Ok(value) => Ok((value, words)),
            Err(why) => Err(why),
        },
        Some((word, rest)) => match value_in(draft, kind, slot, word) {
            Ok(value) => Ok((value, rest)),
            Err(why) => Err(why),
        },
    }
}

/// What the words behind the first say.
#[tactic(auto, unfolding(crate::specs::Lines::values_in))]
fn values_in(draft: &Draft, kind: LineKind, words: &[u8]) -> Result<[Value; 4], TestWhy>
    ensures { result ≡ values_in (told_in draft.now) kind (line_slots kind) (parts_behind 32 words.now) }
{
    let [a, b, c, d] = kind.slots();
    let (first, words) = take_value(draft, kind, a, words)?;
    let (second, words) = take_value(draft, kind, b, words)?;
    let (third, words) = take_value(draft, kind, c, words)?;
    let (fourth, words) = take_value(draft, kind, d, words)?;
    match next_word(words) {
        None => Ok([first, second, third, fourth]),
        Some(_) => Err(TestWhy::Line),
    }
}

/// The word behind the first, if there is one.
fn name_in(words: &[u8]) -> &[u8]
    ensures { result.now ≡ slice_index_or (parts_behind 32 words.now) 0 [] }
{
    match next_word(words) {
        Some((name, _)) => name,
        None => &[],
    }
}

/// What the words behind the first say in a line of this kind.
fn words_in<'a>(draft: &Draft, kind: LineKind, words: &'a [u8]) -> Result<Line<'a>, TestWhy>
    ensures ok { IfOk result (λ line. words_behind (told_in draft.now) kind (parts_behind 32 words.now) ≡ Ok (line.kind, line.values)) }
    ensures name { IfOk result (λ line. line.name.now ≡ slice_index_or (parts_behind 32 words.now) 0 []) }
    ensures err { IfErr result (λ why. words_behind (told_in draft.now) kind (parts_behind 32 words.now) ≡ Err why) }
{
    if !draft.allows(kind) {
        return Err(TestWhy::Place);
    }
    match values_in(draft, kind, words) {
        Ok(values) => {
            let name = name_in(words);
            Ok(Line { kind, values, name })
        }
        Err(why) => Err(why),
    }
}

/// What a line says behind the lines of a draft; or the first cause for which it is refused.
pub(crate) fn line_in<'a>(draft: &Draft, text: &'a [u8]) -> Result<Line<'a>, TestWhy>
    ensures ok { IfOk result (λ line. line_in (told_in draft.now) (parts 32 text.now) ≡ Ok (line.kind, line.values)) }
    ensures name { IfOk result (λ line. line.name.now ≡ name_among (parts 32 text.now)) }
    ensures err { IfErr result (λ why. line_in (told_in draft.now) (parts 32 text.now) ≡ Err why) }
{
    let (word, words) = cut(b' ', text);
    match kind_among(kinds_of(draft.version), word) {
        Some(kind) => words_in(draft, kind, words),
        None => Err(TestWhy::Line),
    }
}
