//! Laws of lines that are taken.
ghost use Rattle.std.specs.Prelude.{ℕ, ◌≤◌, ◌++◌, List, length};
ghost use Rattle.heap_words.specs.declared.config.Config.{Config};
ghost use Rattle.heap_words.specs.Narrow.{IsNarrow};
ghost use Rattle.trace_reading.specs.Spelling.{IsVersion, header};
ghost use Rattle.trace_reading.specs.Grammar.{most_bytes, Reads};
ghost use Rattle.trace_text.specs.LinesTaken.{Taken, none_taken, ended_lines, TakesLines};

/// A law: the head of a trace of a version, whose regions have at most 1,024 words, and lines that were taken one after the other, each
/// with its end, are read as what was taken, if they are not too long together.
pub fn lines_taken_are_read()
    ensures { (version : ℕ) (config : Config) (texts : List (List ℕ)) (taken : Taken) → IsVersion version → IsNarrow config → TakesLines (none_taken version config) texts taken
        → length (header version config ++ ended_lines texts) ≤ most_bytes → Reads (header version config ++ ended_lines texts) version config taken.scripts taken.items }
{}
