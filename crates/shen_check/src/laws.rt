//! Laws of verdicts.
ghost use Rattle.std.specs.Prelude.{ℕ, ◌≡◌, List};
ghost use Rattle.heap_words.specs.declared.config.Config.{Config};
ghost use Rattle.heap_words.specs.declared.schedule.Item.{Item};
ghost use Rattle.shen_graph.specs.declared.command.Command.{Command};
ghost use Rattle.shen_graph.specs.History.{Entry};
ghost use Rattle.trace_reading.specs.Grammar.{Reads};
ghost use Rattle.shen_check.specs.Judged.{CanBeJudged, IsVerdict};
ghost use Rattle.shen_check.specs.declared.verdict.Verdict.{Verdict};

/// A law: a history and a body have one verdict at most. So each verdict is given exactly where it is the one.
pub fn one_verdict()
    ensures { (version : ℕ) (config : Config) (scripts : List (List Command)) (history : List Entry) (body : List ℕ) (verdict other_verdict : Verdict)
        → IsVerdict version config scripts history body verdict → IsVerdict version config scripts history body other_verdict → verdict ≡ other_verdict }
{}

/// A law: a trace that was read can be judged.
pub fn read_traces_can_be_judged()
    ensures { (bytes : List ℕ) (version : ℕ) (config : Config) (scripts : List (List Command)) (items : List Item) → Reads bytes version config scripts items → CanBeJudged config scripts }
{}
