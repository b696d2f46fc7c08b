//! Laws of what is refused.
ghost use Rattle.std.specs.Prelude.{◌≡◌, ◌⊎◌, ℕ, ◌≤◌, List, length};
ghost use Rattle.shen_graph.specs.declared.command.Command.{Command};
ghost use Rattle.heap_words.specs.declared.config.Config.{Config};
ghost use Rattle.heap_words.specs.declared.schedule.Item.{Item};
ghost use Rattle.trace_reading.specs.Grammar.{most_bytes, Reads};
ghost use Rattle.trace_reading.specs.declared.why.Why.{Why};
ghost use Rattle.trace_reading.specs.Refused.{Refused};

/// A law: bytes within the limit are a trace, or are refused at a line for a cause; never both, and never at two lines or
/// for two causes. That they are one trace at most is a law of the grammar.
pub fn bytes_are_read_or_refused()
    ensures either { (bytes : List ℕ) → length bytes ≤ most_bytes
        → ((version : ℕ) × (config : Config) × (scripts : List (List Command)) × (items : List Item) × Reads bytes version config scripts items) ⊎ ((line_number : ℕ) × (why : Why) × Refused bytes line_number why) }
    ensures never_both { (bytes : List ℕ) (version : ℕ) (config : Config) (scripts : List (List Command)) (items : List Item) (line_number : ℕ) (why : Why) → Reads bytes version config scripts items → Refused bytes line_number why → ⊥ }
    ensures once { (bytes : List ℕ) (line_number other_line_number : ℕ) (why other_why : Why) → Refused bytes line_number why → Refused bytes other_line_number other_why → (line_number ≡ other_line_number) × (why ≡ other_why) }
{}
