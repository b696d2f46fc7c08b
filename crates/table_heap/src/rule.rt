ghost use Rattle.std.specs.Prelude.{◌≡◌, ◌∷◌, [], All};
ghost use Rattle.table_heap.specs.Rule.{bounds, AreHints, IsBetween};

use crossbeam_deque::protocol::{Outcome, Protocol, Split};

/// What a pass knows of the addresses that the deque holds: how many of their bounds, and these. No value of it is made.
pub struct Bounds {
    /// How many bounds are known: none, the least, or both.
    pub known: u64,
    /// The least address.
    pub least: u64,
    /// The greatest address.
    pub greatest: u64,
}

/// The rule: what the deque holds are addresses of the heap.
pub struct OfHeap;

impl Protocol<u64, Bounds> for OfHeap {
    ghost use Rattle.table_heap.specs.Rule.{bounds, AreHints};

    ghost holds = { AreHints };

    ghost first = { bounds 0 0 0 };

    ghost guest = { bounds 0 0 0 };
}

// The first push tells the least address.
pub(crate) struct TellsLeast;

impl Outcome<u64, Bounds> for TellsLeast {
    ghost use Rattle.std.specs.Prelude.{◌≡◌, ◌∷◌, []};
    ghost use Rattle.table_heap.specs.Rule.{bounds};

    ghost then = { λ before addresses after. (addresses ≡ after.least ∷ []) × (after ≡ bounds 1 after.least 0) };
}

// The second one tells the greatest.
pub(crate) struct TellsGreatest;

impl Outcome<u64, Bounds> for TellsGreatest {
    ghost use Rattle.std.specs.Prelude.{◌≡◌, ◌∷◌, []};
    ghost use Rattle.table_heap.specs.Rule.{bounds};

    ghost then = { λ before addresses after. (addresses ≡ after.greatest ∷ []) × (after ≡ bounds 2 before.least after.greatest) };
}

// Any other call leaves what is known, and what comes or leaves lies within it.
pub(crate) struct Within;

impl Outcome<u64, Bounds> for Within {
    ghost use Rattle.std.specs.Prelude.{◌≡◌, All};
    ghost use Rattle.table_heap.specs.Rule.{IsBetween};

    ghost then = { λ before addresses after. (after ≡ before) × All (IsBetween before) addresses };
}

// A pass for a thief knows the same.
pub(crate) struct Same;

impl Split<Bounds> for Same {
    ghost left = { λ view. view };

    ghost right = { λ view. view };
}
