//! A law of histories and dumps.
ghost use Rattle.std.specs.Prelude.{ℕ, ◌≡◌, List};
ghost use Rattle.heap_words.specs.declared.config.Config.{Config};
ghost use Rattle.heap_words.specs.Narrow.{IsNarrow};
ghost use Rattle.shen_graph.specs.Graph.{opening};
ghost use Rattle.shen_graph.specs.History.{Entry, after};
ghost use Rattle.heap_dump.specs.Dumped.{Dumped, IsDump, IsDumpOf};
ghost use Rattle.heap_dump.specs.ObjectsMade.{objects_made_by_each, IsDumpable};

/// A law: the dump of the graph that a history leads to is one that can be read, if a region has at most 1,024 words, and counts for each thread how many of its allocations
/// were answered a name.
pub fn graphs_of_histories_have_a_dump()
    ensures is_dump { (config : Config) (history : List Entry) (dump : Dumped) → IsNarrow config → IsDumpable config history → IsDumpOf config (after (opening config.mutators) history) dump → IsDump dump }
    ensures counts { (config : Config) (history : List Entry) (dump : Dumped) → IsDumpable config history → IsDumpOf config (after (opening config.mutators) history) dump → dump.counts ≡ objects_made_by_each history config.mutators }
{}
