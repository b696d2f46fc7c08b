//! The lines of roots.
ghost use Rattle.std.specs.Prelude.{◌≡◌, ◌-◌, ◌≤◌, List, [], ◌∷◌, codes, length, map, slice_set, MatchBool};
ghost use Rattle.std.specs.Fmt.{decimal};
ghost use Rattle.shen_graph.specs.Graph.{Reference};
ghost use Rattle.shen_graph.specs.GraphText.{roots_of};
ghost use Rattle.trace_reading.specs.Causes.{parts, parts_behind};
ghost use Rattle.heap_dump.specs.DumpLines.{AreReferences};
ghost use Rattle.heap_dump.specs.HeldReferences.{held};
ghost use Rattle.heap_dump.specs.ObjectWords.{AreRootsWords};

use crate::words::reference_in;
use shen_graph::{Command, GraphText};
use trace_reading::{cut, next_word, number_in};

/// The number of roots of a thread.
const ROOTS: usize = Command::ROOTS as usize;

/// Takes the line of the roots of a thread, counted from 1.
pub(crate) fn take_roots(thread: u32, text: &[u8], graph: &mut GraphText) -> bool
    requires thread { (1 ≤ thread) × (thread ≤ length graph.old.roots) }
    requires few { length graph.old.roots ≤ 8 }
    requires sixteen { length (roots_of graph.old thread) ≡ 16 }
    ensures { MatchBool result
        ((roots : List Reference) × AreRootsWords (parts 32 text.now) (codes "roots" ∷ decimal thread ∷ []) roots
        × (graph.new ≡ record graph.old { roots = slice_set graph.old.roots (thread - 1) (map held roots) }))
        ((roots : List Reference) → AreRootsWords (parts 32 text.now) (codes "roots" ∷ decimal thread ∷ []) roots → ⊥) }
{
    let (title, words) = cut(b' ', text);
    if title == b"roots".as_slice() {
        take_numbered(thread, words, graph)
    } else {
        false
    }
}

/// Takes the number of a thread and the words of its roots.
fn take_numbered(thread: u32, words: &[u8], graph: &mut GraphText) -> bool
    requires thread { (1 ≤ thread) × (thread ≤ length graph.old.roots) }
    requires few { length graph.old.roots ≤ 8 }
    requires sixteen { length (roots_of graph.old thread) ≡ 16 }
    ensures { MatchBool result
        ((roots : List Reference) × AreRootsWords (parts_behind 32 words.now) (decimal thread ∷ []) roots
        × (graph.new ≡ record graph.old { roots = slice_set graph.old.roots (thread - 1) (map held roots) }))
        ((roots : List Reference) → AreRootsWords (parts_behind 32 words.now) (decimal thread ∷ []) roots → ⊥) }
{
    let Some((word, rest)) = next_word(words) else {
        return false;
    };
    match number_in(8, word) {
        Some(number) if number == thread as u64 => take_root_words(thread, rest, graph),
        _ => false,
    }
}

/// Takes the words of 16 roots, which are those of a thread.
fn take_root_words(thread: u32, words: &[u8], graph: &mut GraphText) -> bool
    requires thread { (1 ≤ thread) × (thread ≤ length graph.old.roots) }
    requires sixteen { length (roots_of graph.old thread) ≡ 16 }
    ensures { MatchBool result
        ((roots : List Reference) × AreRootsWords (parts_behind 32 words.now) [] roots
        × (graph.new ≡ record graph.old { roots = slice_set graph.old.roots (thread - 1) (map held roots) }))
        ((roots : List Reference) → AreRootsWords (parts_behind 32 words.now) [] roots → ⊥) }
{
    let mut rest = words;
    for index in 0..ROOTS {
        let Some((word, behind)) = next_word(rest) else {
            return false;
        };
        let Some(root) = reference_in(word) else {
            return false;
        };
        graph.root(thread, index, root);
        rest = behind;
    }
    rest.is_empty()
}
