//! Laws of dumps.
ghost use Rattle.std.specs.Prelude.{ℕ, ◌≡◌, ◌≤◌, List};
ghost use Rattle.heap_words.specs.declared.config.Config.{Config};
ghost use Rattle.shen_graph.specs.declared.name.Name.{Name};
ghost use Rattle.shen_graph.specs.Graph.{Graph};
ghost use Rattle.shen_graph.specs.Reach.{IsReach};
ghost use Rattle.heap_dump.specs.Dumped.{Dumped, IsDump, IsDumpOf, dump_of, graph_in, unpinned};

/// A law: a graph of which finitely much can be reached from roots has, with a configuration, exactly one dump. What is pinned alone is
/// not in it.
pub fn graphs_have_one_dump()
    ensures some { (config : Config) (graph : Graph) (names : List Name) → IsReach (unpinned graph) names → IsDumpOf config graph (dump_of config graph names) }
    ensures once { (config : Config) (graph : Graph) (dump other_dump : Dumped) → IsDumpOf config graph dump → IsDumpOf config graph other_dump → dump ≡ other_dump }
{}

/// A law: each dump is the dump of its own graph.
pub fn dumps_show_their_graph()
    ensures { (dump : Dumped) → IsDump dump → IsDumpOf dump.config (graph_in dump) dump }
{}
