//! What the mutators of a bundle are run by.
ghost use Rattle.std.specs.Prelude.{◌≡◌, ◌+◌, ◌++◌, ◌≤◌, length};
ghost use Rattle.trace_runs.specs.DealtParts.{CanBeRunBy, HaveEnded, LoadsAreApart, IsJoined};
ghost use Rattle.table_heap.specs.State.{IsBundleOf, IsSameBundle};
ghost use Rattle.table_heap.specs.Running.{AreIdleForGood};

use arrayvec::ArrayVec;
use managed_queue::User;
use shen_graph::Work;
use std::sync::Wait;
use table_heap::{Bundle, Gate, Heap};

/// What the mutators of a bundle are run by: their scripts, or a user for each in the order of their numbers.
#[derive(Drop)]
pub enum Load {
    Scripted(Work),
    Driven(ArrayVec<User, 8>),
}

impl Load {
    /// Runs the bundle until all its machines are idle.
    pub(crate) fn run<R: Wait, G: Gate>(
        &mut self,
        bundle: &mut Bundle,
        rt: &R,
        heap: &Heap,
        gate: &G,
    )
        requires heap { IsBundleOf bundle.old heap.now }
        requires start { CanBeRunBy bundle.old self.old }
        ensures same { IsSameBundle bundle.old bundle.new }
        ensures idle { AreIdleForGood bundle.new }
        ensures done { HaveEnded bundle.old bundle.new self.old self.new }
    {
        match self {
            Load::Scripted(work) => bundle.run(rt, heap, work, gate),
            Load::Driven(crew) => bundle.drive(rt, heap, crew.as_mut_slice(), gate),
        }
    }

    /// What the mutators of two bundles are run by, the second of which has the higher numbers.
    pub(crate) fn join(self, other: Load) -> Load
        requires { LoadsAreApart self other }
        ensures { IsJoined self other result }
    {
        match (self, other) {
            (Load::Scripted(mut work), Load::Scripted(more)) => {
                work.join(more);
                Load::Scripted(work)
            }
            (Load::Driven(crew), Load::Driven(others)) => Load::Driven(gathered(crew, others)),
            _ => unreachable!(),
        }
    }
}

// The users of both, those of the first before those of the second.
fn gathered(mut crew: ArrayVec<User, 8>, mut others: ArrayVec<User, 8>) -> ArrayVec<User, 8>
    requires { length crew.items + length others.items ≤ 8 }
    ensures { result.items ≡ crew.items ++ others.items }
{
    while !others.is_empty() {
        crew.push(others.remove(0));
    }
    crew
}
