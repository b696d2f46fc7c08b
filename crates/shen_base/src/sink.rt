//! Where bytes go.
ghost use Rattle.std.specs.Prelude.{◌≡◌, ℕ, ◌≤◌, List, Option, length, take, IfOk, OnErr};
ghost use Rattle.std.specs.Io.KnownBytes.{Appends, Keeps};
ghost use Rattle.shen_base.specs.Count.{Rose, raised};

use crate::Failed;

/// Where bytes go, in order, with a count of the faults and one of the calls so far.
pub trait Sink {
    // The bytes that were written so far, where they are told.
    ghost written: { Self → Option (List ℕ) };

    // The faults so far, a count that stands still at its last value.
    ghost faults: { Self → ℕ };

    // The calls so far, a count that stands still at its last value.
    ghost calls: { Self → ℕ };

    /// Writes bytes of the front of `piece`, and returns how many. It may take fewer than there are, but takes none
    /// only of an empty piece.
    fn write(&mut self, piece: &[u8]) -> Result<usize, Failed>
        // At Ok the front of the piece was appended.
        ensures within { IfOk result (λ count. count ≤ length piece.now) }
        ensures appended { IfOk result (λ count. Appends (written self.old) (written self.new) (take count piece.now)) }
        ensures none_only_of_empty { IfOk result (λ count. count ≡ 0 → length piece.now ≡ 0) }

        // At Failed no byte was written, and a fault was counted.
        ensures failed_writes_none { OnErr result (Keeps (written self.old) (written self.new)) }
        ensures failed_only_by_fault { OnErr result (Rose (faults self.old) (faults self.new)) }

        ensures faults_never_fall { faults self.old ≤ faults self.new }
        ensures one_call { calls self.new ≡ raised (calls self.old) };
}
