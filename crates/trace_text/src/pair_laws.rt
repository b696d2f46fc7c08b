//! Laws of what is read.
ghost use Rattle.std.specs.Prelude.{ℕ, ◌≡◌, ◌⊎◌, ◌≤◌, List, ◌++◌, codes, length};
ghost use Rattle.heap_words.specs.declared.config.Config.{Config};
ghost use Rattle.heap_words.specs.declared.schedule.Item.{Item};
ghost use Rattle.shen_graph.specs.declared.command.Command.{Command};
ghost use Rattle.shen_graph.specs.Graph.{opening};
ghost use Rattle.shen_graph.specs.History.{Entry, EachIsLegal, Follows};
ghost use Rattle.trace_reading.specs.Grammar.{most_bytes, Reads};
ghost use Rattle.trace_reading.specs.declared.why.Why.{Why};
ghost use Rattle.trace_text.specs.Answer.{IsAnswerText};
ghost use Rattle.trace_text.specs.History.{history_text};
ghost use Rattle.trace_text.specs.Pairs.{IsPair, IsSamePair};
ghost use Rattle.trace_text.specs.Refusals.{IsPairRefused};

/// A law: bytes are a trace with a body and a history in one way at most.
pub fn pairs_are_read_once()
    ensures { (bytes : List ℕ) (version other_version : ℕ) (config other_config : Config) (scripts other_scripts : List (List Command)) (items other_items : List Item) (body other_body : List ℕ) (entries other_entries : List Entry)
        → IsPair bytes version config scripts items body entries → IsPair bytes other_version other_config other_scripts other_items other_body other_entries → IsSamePair version config scripts items body entries other_version other_config other_scripts other_items other_body other_entries }
{}

/// A law: bytes within the limit are a trace with a body and a history, or are refused at a line for a cause; never both, and
/// never at two lines or for two causes.
pub fn pairs_are_read_or_refused()
    ensures either { (bytes : List ℕ) → length bytes ≤ most_bytes
        → ((version : ℕ) × (config : Config) × (scripts : List (List Command)) × (items : List Item) × (body : List ℕ) × (entries : List Entry) × IsPair bytes version config scripts items body entries)
        ⊎ ((line_number : ℕ) × (why : Why) × IsPairRefused bytes line_number why) }
    ensures never_both { (bytes : List ℕ) (version : ℕ) (config : Config) (scripts : List (List Command)) (items : List Item) (body : List ℕ) (entries : List Entry) (line_number : ℕ) (why : Why)
        → IsPair bytes version config scripts items body entries → IsPairRefused bytes line_number why → ⊥ }
    ensures once { (bytes : List ℕ) (line_number other_line_number : ℕ) (why other_why : Why) → IsPairRefused bytes line_number why → IsPairRefused bytes other_line_number other_why → (line_number ≡ other_line_number) × (why ≡ other_why) }
{}

/// A law: a trace, the line `answer`, and the answer and the text of a history that the trace's threads may have are such a text, of
/// that answer and that history, where they are not too long. So what a replay writes with its history can be judged.
pub fn histories_can_be_read()
    ensures { (trace body : List ℕ) (version : ℕ) (config : Config) (scripts : List (List Command)) (items : List Item) (entries : List Entry) → Reads trace version config scripts items
        → EachIsLegal config.regions config.region_words (opening config.mutators) entries → Follows scripts entries → IsAnswerText version config.mutators entries body → length (trace ++ (codes "answer\n" ++ (body ++ history_text entries))) ≤ most_bytes
        → IsPair (trace ++ (codes "answer\n" ++ (body ++ history_text entries))) version config scripts items body entries }
{}
