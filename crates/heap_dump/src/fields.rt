//! The line of an object.
ghost use Rattle.std.specs.Prelude.{◌≡◌, ◌≢◌, ◌↔◌, ◌⊎◌, ◌^◌, ◌+◌, ◌<◌, ◌≤◌, ℕ, List, [], ◌∷◌, ◌++◌, All, codes, length, map, IsTrue, MatchOption, MatchBool};
ghost use Rattle.std.specs.Fmt.{decimal};
ghost use Rattle.shen_graph.specs.declared.name.Name.{Name as Named};
ghost use Rattle.shen_graph.specs.Graph.{Reference};
ghost use Rattle.shen_graph.specs.Reach.{IsBefore};
ghost use Rattle.shen_graph.specs.GraphText.{Row, names_of, row_of, with_references, with_numbers, with_whole_row};
ghost use Rattle.trace_reading.specs.Causes.{parts_behind};
ghost use Rattle.trace_text.specs.Answer.{name_word};
ghost use Rattle.heap_dump.specs.Dumped.{IsRow};
ghost use Rattle.heap_dump.specs.DumpLines.{AreReferences};
ghost use Rattle.heap_dump.specs.HeldReferences.{held, held_row};
ghost use Rattle.heap_dump.specs.ObjectWords.{AreRefsWords, AreNumsWords, AreRowWords, HasHubFields, IsBehindLast};

use crate::is_before;
use crate::words::{name_in, reference_in};
use shen_graph::{GraphText, Name};
use trace_reading::{next_word, number_cause, value_of};

/// The most references of an object, and the most numbers.
const MOST_FIELDS: usize = 16;

/// Takes the words of references up to a stroke, and adds the references to the last row. Returns the words behind the stroke.
fn take_references<'a>(words: &'a [u8], graph: &mut GraphText) -> Option<&'a [u8]>
    requires row { 0 < length graph.old.rows }
    requires room { length (parts_behind 32 words.now) ≤ graph.old.spare + 1 }
    ensures { MatchOption result ((refs : List Reference) (more : List (List ℕ)) → AreRefsWords (parts_behind 32 words.now) refs more → ⊥)
        (λ rest. (refs : List Reference) × AreRefsWords (parts_behind 32 words.now) refs (parts_behind 32 rest.now) × (graph.new ≡ with_references graph.old (map held refs))) }
{
    let mut rest = words;
    let mut count = 0;
    'references: while let Some((word, behind)) = next_word(rest) {
        if word == b"/".as_slice() {
            return Some(behind);
        }
        if count == MOST_FIELDS || behind.is_empty() {
            return None;
        }
        graph.reference(reference_in(word)?);
        rest = behind;
        count += 1;
    }
    None
}

/// Takes words of numbers, and adds the numbers to the last row.
fn take_numbers(words: &[u8], graph: &mut GraphText) -> bool
    requires row { 0 < length graph.old.rows }
    requires room { length (parts_behind 32 words.now) ≤ graph.old.spare }
    ensures { MatchBool result ((nums : List ℕ) × AreNumsWords (parts_behind 32 words.now) nums × (graph.new ≡ with_numbers graph.old nums))
        ((nums : List ℕ) → AreNumsWords (parts_behind 32 words.now) nums → ⊥) }
{
    let mut rest = words;
    let mut count = 0;
    'numbers: while let Some((word, behind)) = next_word(rest) {
        if count == MOST_FIELDS || number_cause(0, u64::MAX, word).is_some() {
            return false;
        }
        let Some(value) = value_of(word) else {
            return false;
        };
        graph.number(value);
        rest = behind;
        count += 1;
    }
    true
}

/// Whether a name is behind that of the last row.
fn is_behind(graph: &GraphText, name: Name) -> bool
    ensures { IsTrue result ↔ IsBehindLast (names_of graph.now) name }
{
    let rows = graph.rows();
    rows == 0 || is_before(graph.name_at(rows - 1), name)
}

/// Whether a row, if it is the hub's, has the fields of the hub.
fn has_fields(graph: &GraphText, row: usize) -> bool
    requires { row < length graph.now.rows }
    ensures { IsTrue result ↔ HasHubFields (row_of graph.now row) }
{
    graph.name_at(row) != Name::HUB
        || (graph.refs_at(row) == MOST_FIELDS && graph.nums_at(row) == 0)
}

/// Takes the words behind `object`, and adds the row that they spell.
pub(crate) fn take_object(counts: &[u32], words: &[u8], graph: &mut GraphText) -> bool
    requires counts { length counts.now ≤ 8 }
    requires room { length (parts_behind 32 words.now) + 1 ≤ graph.old.spare }
    ensures { MatchBool result
        ((row : Row) × AreRowWords counts.now (parts_behind 32 words.now) row × IsBehindLast (names_of graph.old) row.name × (graph.new ≡ with_whole_row graph.old (held_row row)))
        ((row : Row) → AreRowWords counts.now (parts_behind 32 words.now) row → IsBehindLast (names_of graph.old) row.name → ⊥) }
{
    let Some((word, rest)) = next_word(words) else {
        return false;
    };
    let Some(name) = name_in(counts, word) else {
        return false;
    };
    if rest.is_empty() || !is_behind(graph, name) {
        return false;
    }
    let row = graph.rows();
    graph.object(name);
    let Some(rest) = take_references(rest, graph) else {
        return false;
    };
    take_numbers(rest, graph) && has_fields(graph, row)
}
