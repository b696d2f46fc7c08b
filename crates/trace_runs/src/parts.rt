//! Parts of a heap's machines, each with what its mutators are run by.
ghost use Rattle.std.specs.Prelude.{◌≡◌, ◌<◌, ◌≤◌, ℕ, IfOk, length};
ghost use Rattle.step_core.specs.Schedule.{Scripts};
ghost use Rattle.table_heap.specs.State.{IsBundleOf};
ghost use Rattle.trace_runs.specs.DealtParts.{Assigned, PartCanRun, PartHasEnded, LoadsAreApart, PartIsReady, IsDone, AreReady, CanBeDealt};
ghost use Rattle.trace_runs.specs.DealtParts.Assigned.{scripts};

use crate::load::Load;
use heap_words::NoMemory;
use shen_graph::Work;
use std::alloc::Global;
use std::sync::Wait;
use table_heap::{Bundle, Gate, Heap};

/// Machines of a heap, and what those of them are run by that are mutators.
#[derive(Drop)]
pub struct Part {
    pub bundle: Bundle,
    pub load: Load,
}

/// A part that comes back from who was to run it.
#[derive(Drop)]
pub struct Returned {
    pub part: Part,
    /// Whether it has run. If not, it is as it was given.
    pub ran: bool,
}

impl Part {
    /// Runs the mutators until all machines of the part are idle.
    pub fn run<R: Wait, G: Gate>(&mut self, rt: &R, heap: &Heap, gate: &G)
        requires { PartCanRun heap.now self.old }
        ensures { PartHasEnded self.old self.new }
    {
        self.load.run(&mut self.bundle, rt, heap, gate);
    }

    /// The machines of both, and what both are run by.
    pub fn join(self, heap: &Heap, other: Part) -> Part
        requires this { IsBundleOf self.bundle heap.now }
        requires other { IsBundleOf other.bundle heap.now }
        requires apart { LoadsAreApart self.load other.load }
        ensures ready { (assigned : Assigned) (workers first between beyond : ℕ) → PartIsReady heap.now assigned workers first between self → PartIsReady heap.now assigned workers between beyond other → first ≤ between → between ≤ beyond → PartIsReady heap.now assigned workers first beyond result }
        ensures done { (assigned : Assigned) (workers first between beyond : ℕ) → IsDone heap.now assigned workers first between self → IsDone heap.now assigned workers between beyond other → first ≤ between → between ≤ beyond → IsDone heap.now assigned workers first beyond result }
    {
        let Part { bundle, load } = self;
        let Part {
            bundle: others,
            load: more,
        } = other;
        Part {
            bundle: bundle.join(heap, others),
            load: load.join(more),
        }
    }
}

/// Gives each bundle its part of the work. The error is that memory was refused.
pub fn dealt(
    alloc: Global,
    heap: &Heap,
    mut work: Work,
    bundles: Vec<Bundle>,
) -> Result<Vec<Part>, NoMemory>
    ensures count { IfOk result (λ parts. length parts.items ≡ length bundles.items) }
    ensures ready { IfOk result (λ parts. (all : Scripts) → CanBeDealt heap.now all work bundles.items → AreReady heap.now (scripts all) (length bundles.items) parts.items) }
{
    let workers = bundles.len();
    let Ok(mut parts) = Vec::with_capacity(alloc, workers) else {
        return Err(NoMemory);
    };
    for bundle in bundles {
        let load = Load::Scripted(work.part(workers, parts.len()));
        let Ok(()) = parts.push(Part { bundle, load }) else {
            return Err(NoMemory);
        };
    }
    Ok(parts)
}

/// The machines of all parts, and what they are run by, of which there is one at least.
pub fn together(heap: &Heap, mut parts: Vec<Part>) -> Part
    requires some { 0 < length parts.items }
    requires ready { (assigned : Assigned) × (workers : ℕ) × AreReady heap.now assigned workers parts.items }
    ensures { (assigned : Assigned) (workers : ℕ) → AreReady heap.now assigned workers parts.items → PartIsReady heap.now assigned workers 0 (length parts.items) result }
{
    let Some(mut own) = parts.pop() else {
        unreachable!()
    };
    while let Some(part) = parts.pop() {
        own = part.join(heap, own);
    }
    own
}
