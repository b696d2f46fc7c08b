//! Counts the objects of each thread.

ghost use Rattle.std.specs.Prelude.{◌≡◌, ◌<◌, ◌≤◌, ◌+◌, ◌-◌, length, slice_index, slice_set};
ghost use Rattle.shen_graph.specs.Valid.{most_objects};

/// Counts one object more of a thread, and says which of its objects it is, counted from 1. Of thread 0, which has the hub alone, no count
/// is kept.
pub(crate) fn count_one(counts: &mut [u32], thread: u32) -> u32
    requires thread { thread ≤ length counts.old }
    requires few { 1 ≤ thread → slice_index counts.old (thread - 1) < most_objects }
    ensures hub { thread ≡ 0 → result ≡ 1 }
    ensures hub_counts { thread ≡ 0 → counts.new ≡ counts.old }
    ensures count { 1 ≤ thread → result ≡ slice_index counts.old (thread - 1) + 1 }
    ensures counts { 1 ≤ thread → counts.new ≡ slice_set counts.old (thread - 1) (slice_index counts.old (thread - 1) + 1) }
{
    if thread == 0 {
        return 1;
    }
    let mutator = thread as usize - 1;
    let count = counts[mutator] + 1;
    counts[mutator] = count;
    count
}
