ghost use Rattle.std.specs.Prelude.{◌≡◌, ◌-◌, ◌^◌, ◌<◌, ◌≤◌, ◌++◌, length, replicate, sum_by, slice_set, All, None, IfOk, MatchOption};
ghost use Rattle.shen_graph.specs.GraphText.{row_of, roots_of, with_references, with_numbers, with_whole_row};
ghost use Rattle.heap_dump.specs.RowsReached.{marked_rows};
ghost use Rattle.heap_dump.specs.Dumped.{dumped, row_words, graph_in, HasDump, IsDump, IsDumpOf};

use crate::counts::Counts;
use crate::reached::rows_reached;
use heap_words::Config;
use shen_graph::{Command, GraphText, NoMemory};
use std::alloc::Global;

// The number of roots of a thread.
const ROOTS: usize = Command::ROOTS as usize;

/// A heap written down: the sizes of the heap, how many objects each thread made, and the objects that the roots lead to, in the
/// order of names, with the roots of each thread.
#[derive(Drop)]
pub struct Dump {
    /// The sizes of the heap, and how many machines work on it.
    pub config: Config,
    /// For each thread, that of thread 1 first, how many objects it made.
    pub counts: Counts,
    /// The objects and the roots.
    pub graph: GraphText,
}

impl Dump {
    /// The dump of a graph as text, whose threads made so many objects: the rows of what the roots lead to, and the roots. Pin slots
    /// are left empty, and what only they lead to is left out.
    pub fn of(
        alloc: Global,
        config: Config,
        counts: Counts,
        graph: &GraphText,
    ) -> Result<Dump, NoMemory>
        requires { HasDump (dumped config counts graph.now) }
        ensures is_dump { IfOk result (λ dump. IsDump (dumped dump.config dump.counts dump.graph)) }
        ensures dump { IfOk result (λ dump. IsDumpOf config (graph_in (dumped config counts graph.now)) (dumped dump.config dump.counts dump.graph)) }
        ensures pins { IfOk result (λ dump. dump.graph.pins ≡ replicate (length graph.now.roots) (replicate 4 None)) }
    {
        let Some(words) = words_in(graph) else {
            return Err(NoMemory);
        };
        let mut text = GraphText::open(alloc, words, graph.mutators())?;
        let marks = rows_reached(alloc, graph)?.unwrap();
        copy_objects(graph, &marks, &mut text);
        copy_roots(graph, &mut text);
        Ok(Dump {
            config,
            counts,
            graph: text,
        })
    }
}

// How many words of room the rows of a text take. None: more than a `usize` counts.
fn words_in(graph: &GraphText) -> Option<usize>
    ensures { MatchOption result (2 ^ 64 ≤ sum_by row_words graph.now.rows) (λ words. words ≡ sum_by row_words graph.now.rows) }
{
    let mut words: usize = 0;
    for row in 0..graph.rows() {
        words = words
            .checked_add(3)?
            .checked_add(graph.refs_at(row))?
            .checked_add(graph.nums_at(row))?;
    }
    Some(words)
}

// Adds the references of the object in a row of one text to the last row of another.
fn copy_references(graph: &GraphText, row: usize, text: &mut GraphText)
    requires row { row < length graph.now.rows }
    requires last { 0 < length text.old.rows }
    requires room { length (row_of graph.now row).refs ≤ text.old.spare }
    ensures { text.new ≡ with_references text.old (row_of graph.now row).refs }
{
    for index in 0..graph.refs_at(row) {
        text.reference(graph.reference_at(row, index));
    }
}

// Adds the numbers of the object in a row of one text to the last row of another.
fn copy_numbers(graph: &GraphText, row: usize, text: &mut GraphText)
    requires row { row < length graph.now.rows }
    requires last { 0 < length text.old.rows }
    requires room { length (row_of graph.now row).nums ≤ text.old.spare }
    ensures { text.new ≡ with_numbers text.old (row_of graph.now row).nums }
{
    for index in 0..graph.nums_at(row) {
        text.number(graph.number_at(row, index));
    }
}

// Adds a row of one text to another.
fn copy_object(graph: &GraphText, row: usize, text: &mut GraphText)
    requires row { row < length graph.now.rows }
    requires room { row_words (row_of graph.now row) ≤ text.old.spare }
    ensures { text.new ≡ with_whole_row text.old (row_of graph.now row) }
{
    text.object(graph.name_at(row));
    copy_references(graph, row, text);
    copy_numbers(graph, row, text);
}

// Adds the rows of one text that have a mark to another.
fn copy_objects(graph: &GraphText, marks: &[bool], text: &mut GraphText)
    requires marks { length marks.now ≡ length graph.now.rows }
    requires room { sum_by row_words graph.now.rows ≤ text.old.spare }
    ensures rows { text.new.rows ≡ text.old.rows ++ marked_rows marks.now graph.now.rows }
    ensures roots { text.new.roots ≡ text.old.roots }
    ensures pins { text.new.pins ≡ text.old.pins }
{
    for row in 0..graph.rows() {
        if marks[row] {
            copy_object(graph, row, text);
        }
    }
}

// Makes the roots of a thread, counted from 1, those that it has in another text.
fn copy_roots_of(graph: &GraphText, thread: u32, text: &mut GraphText)
    requires thread { (1 ≤ thread) × (thread ≤ length graph.now.roots) }
    requires threads { length text.old.roots ≡ length graph.now.roots }
    requires sixteen { (length (roots_of graph.now thread) ≡ 16) × (length (roots_of text.old thread) ≡ 16) }
    ensures { text.new ≡ record text.old { roots = slice_set text.old.roots (thread - 1) (roots_of graph.now thread) } }
{
    for index in 0..ROOTS {
        text.root(thread, index, graph.root_at(thread, index));
    }
}

// Makes all roots those of another text, of as many threads.
fn copy_roots(graph: &GraphText, text: &mut GraphText)
    requires threads { length text.old.roots ≡ length graph.now.roots }
    requires few { length graph.now.roots < 2 ^ 32 }
    requires sixteen { All (λ row. length row ≡ 16) text.old.roots }
    ensures { text.new ≡ record text.old { roots = graph.now.roots } }
{
    for mutator in 0..graph.mutators() {
        copy_roots_of(graph, mutator as u32 + 1, text);
    }
}
