//! Counts of calls and of faults.
ghost use Rattle.std.specs.Prelude.{◌≡◌, ◌≤◌};
ghost use Rattle.shen_base.specs.Count.{raised};

use crate::Failed;

// Counts one more. The count stands still at its last value.
pub fn raise(count: &mut u64)
    ensures raised { count.new ≡ raised count.old }
    ensures not_fallen { count.old ≤ count.new }
{
    *count = count.saturating_add(1);
}

// Counts one fault more, and answers it.
pub fn count_fault(faults: &mut u64) -> Failed
    ensures raised { faults.new ≡ raised faults.old }
    ensures not_fallen { faults.old ≤ faults.new }
{
    raise(faults);
    Failed::Failed
}
