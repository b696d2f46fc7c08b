//! What the lines so far say.
ghost use Rattle.std.specs.Prelude.{◌≡◌};
ghost use Rattle.find_play.specs.Told.{told_in};
ghost use Rattle.find_play.specs.Drafts.{is_in_thread, has_all_threads, may_begin_thread, is_loop, has_loop, innermost, is_then, allows};

use crate::kind::LineKind;
use crate::{Bounds, Claim, Names, Place, Program};

/// A block that has begun.
#[derive(Clone, Copy)]
pub(crate) enum Block {
    /// A loop, of which this statement is the first, counted from 0 in the program.
    Loop(usize),
    /// The part of an `if` that is done where its reply comes.
    Then,
    /// The part behind the `else`.
    Else,
}

/// A test of which some lines are read.
#[derive(Drop)]
pub(crate) struct Draft {
    /// The version of the test.
    pub version: u32,
    /// The threads that there are to be.
    pub threads: usize,
    /// The bounds, once their line came.
    pub bounds: Option<Bounds>,
    /// The names of the notes.
    pub notes: Names,
    /// The names of the places, of which the first is `hub`.
    pub place_names: Names,
    /// The places behind the hub.
    pub places: Vec<Place>,
    /// The names of the roots of the thread that began last; the first is `hub`.
    pub roots: Names,
    /// The programs of the threads that began.
    pub programs: Vec<Program>,
    /// The blocks that began and did not end, the innermost last.
    pub open: Vec<Block>,
    /// What is claimed.
    pub claims: Vec<Claim>,
}

/// Whether a block is a loop.
fn is_loop(block: Block) -> bool
    ensures { result ≡ is_loop block }
{
    matches!(block, Block::Loop(_))
}

/// Whether one of these blocks is a loop.
fn has_loop(blocks: &[Block]) -> bool
    ensures { result ≡ has_loop blocks.now }
{
    for block in blocks {
        if is_loop(*block) {
            return true;
        }
    }
    false
}

/// Whether there is a block, and it is the part of an `if` before an `else`.
fn is_then(block: Option<Block>) -> bool
    ensures { result ≡ is_then block }
{
    matches!(block, Some(Block::Then))
}

impl Draft {
    /// Whether a thread has begun, and nothing is claimed yet.
    fn is_within(&self) -> bool
        ensures { result ≡ is_in_thread (told_in self.now) }
    {
        !self.programs.is_empty() && self.claims.is_empty()
    }

    /// Whether all threads have begun, no block is open, and the bounds are given.
    pub(crate) fn is_whole(&self) -> bool
        ensures { result ≡ has_all_threads (told_in self.now) }
    {
        self.programs.len() == self.threads && self.open.is_empty() && self.bounds.is_some()
    }

    /// The block that began last, of those that are open.
    fn innermost(&self) -> Option<Block>
        ensures { result ≡ innermost (told_in self.now) }
    {
        let count = self.open.len();
        if count == 0 {
            None
        } else {
            Some(self.open[count - 1])
        }
    }

    /// Whether another thread may begin.
    fn may_begin(&self) -> bool
        ensures { result ≡ may_begin_thread (told_in self.now) }
    {
        self.bounds.is_some()
            && self.claims.is_empty()
            && self.open.is_empty()
            && self.programs.len() < self.threads
    }

    /// Whether a line of this kind may stand next.
    pub(crate) fn allows(&self, kind: LineKind) -> bool
        ensures { result ≡ allows (told_in self.now) kind }
    {
        match kind {
            LineKind::Bounds => self.bounds.is_none(),
            LineKind::Note | LineKind::Place => self.bounds.is_some(),
            LineKind::Thread => self.may_begin(),
            LineKind::Root => self.is_within() && self.roots.len() < 16,
            LineKind::Command(_) | LineKind::Keep | LineKind::Loop | LineKind::If => {
                self.is_within()
            }
            LineKind::Until => self.is_within() && has_loop(&self.open),
            LineKind::Else => self.is_within() && is_then(self.innermost()),
            LineKind::End => self.is_within() && !self.open.is_empty(),
            LineKind::Assert => self.is_whole(),
            _ => !self.claims.is_empty(),
        }
    }
}
