//! Where bytes come from.
ghost use Rattle.std.specs.Prelude.{◌≡◌, ℕ, ◌<◌, ◌≤◌, List, Option, length, take, IfOk, OnErr};
ghost use Rattle.std.specs.Io.KnownBytes.{Consumes, IsAtEnd, Keeps};
ghost use Rattle.shen_base.specs.Count.{Rose, raised};

use crate::Failed;

/// Where bytes come from, in order, with a count of the faults and one of the calls so far.
pub trait Source {
    // The bytes that reads will give from here on, where they are told.
    ghost left: { Self → Option (List ℕ) };

    // The faults so far, a count that stands still at its last value.
    ghost faults: { Self → ℕ };

    // The calls so far, a count that stands still at its last value.
    ghost calls: { Self → ℕ };

    /// Puts the next bytes at the front of `buf`, and returns how many. It may give fewer than there is room for;
    /// none at room for some is the end of the input. What stands in `buf` behind them, or after `Failed`, is not told.
    fn read(&mut self, buf: &mut [u8]) -> Result<usize, Failed>
        // At Ok the front of the buffer holds the next bytes, and no byte is lost.
        ensures within { IfOk result (λ count. count ≤ length buf.new) }
        ensures next_bytes { IfOk result (λ count. Consumes (left self.old) (left self.new) (take count buf.new)) }
        ensures none_only_at_end { IfOk result (λ count. count ≡ 0 → 0 < length buf.new → IsAtEnd (left self.new)) }

        // At Failed no byte was taken, and a fault was counted.
        ensures failed_takes_none { OnErr result (Keeps (left self.old) (left self.new)) }
        ensures failed_only_by_fault { OnErr result (Rose (faults self.old) (faults self.new)) }

        ensures faults_never_fall { faults self.old ≤ faults self.new }
        ensures one_call { calls self.new ≡ raised (calls self.old) };
}
