//! Laws of the grammar.
ghost use Rattle.std.specs.Prelude.{ℕ, List};
ghost use Rattle.shen_graph.specs.declared.command.Command.{Command};
ghost use Rattle.heap_words.specs.declared.config.Config.{Config};
ghost use Rattle.heap_words.specs.declared.schedule.Item.{Item};
ghost use Rattle.trace_reading.specs.Grammar.{Reads, IsSameTrace};

/// A law: bytes are a trace in one way at most.
pub fn traces_are_read_once()
    ensures { (bytes : List ℕ) (version other_version : ℕ) (config other_config : Config) (scripts other_scripts : List (List Command)) (items other_items : List Item) → Reads bytes version config scripts items → Reads bytes other_version other_config other_scripts other_items → IsSameTrace version config scripts items other_version other_config other_scripts other_items }
{}
