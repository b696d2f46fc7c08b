//! Laws of what the program writes.
ghost use Rattle.std.specs.Prelude.{ℕ, ◌≤◌, List, ◌++◌, codes, length};
ghost use Rattle.trace_reading.specs.Grammar.{most_bytes};
ghost use Rattle.trace_text.specs.Message.{line_text};
ghost use Rattle.trace_text.specs.declared.message.Line.TheVariants as line;
ghost use Rattle.trace_runs.specs.Replayed.{IsReplayedNoted};
ghost use Rattle.trace_runs.specs.Checked.{IsChecked};

/// A law: what a replay writes with its history is right. Behind its trace and the line `answer`, where that is not too long, it is read,
/// and the verdict on it is `yes`.
pub fn noted_replays_are_right()
    ensures { (bytes : List ℕ) (limit : ℕ) (out : List ℕ) → IsReplayedNoted bytes limit out → length (bytes ++ (codes "answer\n" ++ out)) ≤ most_bytes → IsChecked (bytes ++ (codes "answer\n" ++ out)) (line_text line.Yes) }
{}
