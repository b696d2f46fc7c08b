//! Laws of dumps that are read.
ghost use Rattle.std.specs.Prelude.{ℕ, ◌≡◌, ◌≤◌, ◌++◌, List, length};
ghost use Rattle.std.specs.List.{flat_map, AllByRecursion};
ghost use Rattle.heap_words.specs.declared.schedule.Item.{Item};
ghost use Rattle.shen_graph.specs.declared.command.Command.{Command};
ghost use Rattle.trace_reading.specs.Spelling.{TraceLine, IsLine, line, IsScheduleLine, schedule_line};
ghost use Rattle.trace_reading.specs.Grammar.{most_bytes, scripts_of, items_of};
ghost use Rattle.trace_reading.specs.declared.why.Why.{Why};
ghost use Rattle.heap_dump.specs.Dumped.{Dumped, IsDump};
ghost use Rattle.heap_dump.specs.DumpText.{dump_text};
ghost use Rattle.heap_dump.specs.DumpsToRun.{Resumes, IsSameReading, run_version, mark_line};
ghost use Rattle.heap_dump.specs.DumpLines.{DumpRefused};

/// A law: the text of a dump, the line `trace`, lines of commands of version 2 and lines of a schedule, if they are not too long together, are read
/// as that dump and what the lines say, and as nothing else; and none of these lines is refused.
pub fn written_dumps_are_read()
    ensures once { (bytes : List ℕ) (dump other_dump : Dumped) (lines : List TraceLine) (turns : List (List Item)) (scripts : List (List Command)) (items : List Item)
        → IsDump dump → AllByRecursion (IsLine run_version dump.config.mutators) lines → AllByRecursion (IsScheduleLine dump.config) turns
        → bytes ≡ dump_text dump ++ (mark_line ++ (flat_map line lines ++ flat_map schedule_line turns)) → length bytes ≤ most_bytes
        → Resumes bytes other_dump scripts items → IsSameReading dump (scripts_of dump.config.mutators lines) (items_of turns) other_dump scripts items }
    ensures never_refused { (bytes : List ℕ) (dump : Dumped) (lines : List TraceLine) (turns : List (List Item)) (line_number : ℕ) (why : Why)
        → IsDump dump → AllByRecursion (IsLine run_version dump.config.mutators) lines → AllByRecursion (IsScheduleLine dump.config) turns
        → bytes ≡ dump_text dump ++ (mark_line ++ (flat_map line lines ++ flat_map schedule_line turns)) → length bytes ≤ most_bytes
        → DumpRefused bytes line_number why → ⊥ }
{}

/// A law: bytes are one dump at most, with what is to run from it.
pub fn dumps_are_read_once()
    ensures { (bytes : List ℕ) (dump other_dump : Dumped) (scripts other_scripts : List (List Command)) (items other_items : List Item) → Resumes bytes dump scripts items → Resumes bytes other_dump other_scripts other_items → IsSameReading dump scripts items other_dump other_scripts other_items }
{}

/// A law: bytes that are a dump, with what is to run from it, are not refused; and bytes are refused at one line at most, for one
/// cause.
pub fn dumps_are_refused_once()
    ensures never_both { (bytes : List ℕ) (dump : Dumped) (scripts : List (List Command)) (items : List Item) (line_number : ℕ) (why : Why) → Resumes bytes dump scripts items → DumpRefused bytes line_number why → ⊥ }
    ensures once { (bytes : List ℕ) (line_number other_line_number : ℕ) (why other_why : Why) → DumpRefused bytes line_number why → DumpRefused bytes other_line_number other_why → (line_number ≡ other_line_number) × (why ≡ other_why) }
{}

/// A law: bytes within the limit are a dump with what is to run from it, or are refused at a line for a cause: it cannot be that they are
/// neither. That they are never both, and neither in two ways, the two laws above say.
pub fn bytes_are_a_dump_or_refused()
    ensures { (bytes : List ℕ) → length bytes ≤ most_bytes → ((dump : Dumped) (scripts : List (List Command)) (items : List Item) → Resumes bytes dump scripts items → ⊥) → ((line_number : ℕ) (why : Why) → DumpRefused bytes line_number why → ⊥) → ⊥ }
{}
