//! Words of a dump's lines.
ghost use Rattle.std.specs.Prelude.{◌≡◌, ◌≢◌, ◌^◌, ◌≤◌, ◌↔◌, length, IsTrue, MatchOption};
ghost use Rattle.std.specs.Str.Parse.{AllDigits, digits_value};
ghost use Rattle.shen_graph.specs.declared.name.Name.{Name as Named};
ghost use Rattle.shen_graph.specs.Graph.{Reference};
ghost use Rattle.trace_text.specs.Answer.{name_word};
ghost use Rattle.heap_dump.specs.Dumped.{IsNamed};
ghost use Rattle.heap_dump.specs.DumpLines.{IsDumpReference};
ghost use Rattle.heap_dump.specs.HeldReferences.{held, held_name};

use shen_graph::Name;
use trace_reading::{cut, is_number, value_of};

/// The name of no object: it stands for each name with a number that no name of an object can have.
const NOBODY: Name = Name {
    thread: u32::MAX,
    count: u32::MAX,
};

/// The number that these digits spell, if a u32 holds it.
fn small(digits: &[u8]) -> Option<u32>
    requires { AllDigits 10 digits.now }
    ensures { MatchOption result (2 ^ 32 ≤ digits_value 10 digits.now) (λ number. number ≡ digits_value 10 digits.now) }
{
    let value = value_of(digits)?;
    if value <= u64::from(u32::MAX) {
        Some(value as u32)
    } else {
        None
    }
}

/// The name that two numbers spell.
fn name_of(thread: &[u8], count: &[u8]) -> Name
    requires thread { AllDigits 10 thread.now }
    requires count { AllDigits 10 count.now }
    ensures { result ≡ held_name (record { thread = digits_value 10 thread.now; count = digits_value 10 count.now }) }
{
    match (small(thread), small(count)) {
        (Some(thread), Some(count)) => Name { thread, count },
        _ => NOBODY,
    }
}

/// The reference that a word spells: a dash for null, and two numbers with a dot between for a name.
pub(crate) fn reference_in(word: &[u8]) -> Option<Option<Name>>
    ensures { MatchOption result ((reference : Reference) → IsDumpReference word.now reference → ⊥) (λ spelled. (reference : Reference) × IsDumpReference word.now reference × (spelled ≡ held reference)) }
{
    if word == b"-".as_slice() {
        return Some(None);
    }
    let (thread, rest) = cut(b'.', word);
    let (_, count) = rest.split_first()?;
    if is_number(thread) && is_number(count) {
        Some(Some(name_of(thread, count)))
    } else {
        None
    }
}

/// Whether a name is the hub's, or one of those that these threads made, each of which made so many objects.
fn is_named(counts: &[u32], name: Name) -> bool
    ensures { IsTrue result ↔ IsNamed counts.now name }
{
    if name == Name::HUB {
        return true;
    }
    if name.thread < 1 || name.thread as usize > counts.len() {
        return false;
    }
    1 <= name.count && name.count <= counts[name.thread as usize - 1]
}

/// The name of an object, of threads that made so many, that a word spells.
pub(crate) fn name_in(counts: &[u32], word: &[u8]) -> Option<Name>
    requires { length counts.now ≤ 8 }
    ensures { MatchOption result ((name : Named) → IsNamed counts.now name → word.now ≢ name_word name) (λ name. IsNamed counts.now name × (word.now ≡ name_word name)) }
{
    let name = reference_in(word)??;
    if is_named(counts, name) {
        Some(name)
    } else {
        None
    }
}
