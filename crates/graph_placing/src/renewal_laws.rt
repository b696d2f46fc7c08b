//! That names are counted anew as they should be, and that the graph stays the same but for them: laws, as theorems and no code.

ghost use Rattle.std.specs.Prelude.{ℕ, List};
ghost use Rattle.heap_words.specs.declared.config.Config.{Config};
ghost use Rattle.heap_world.specs.Shows.{ShowsGraph};
ghost use Rattle.shen_graph.specs.declared.name.Name.{Name};
ghost use Rattle.shen_graph.specs.Graph.{Graph};
ghost use Rattle.shen_graph.specs.GraphText.{Text, names_of};
ghost use Rattle.shen_graph.specs.Reach.{InOrder};
ghost use Rattle.graph_placing.specs.PlaceableText.{IsPlaceable};
ghost use Rattle.graph_placing.specs.TextGraph.{text_graph};
ghost use Rattle.graph_placing.specs.NamesAnew.{name_anew, text_anew};
ghost use Rattle.graph_placing.specs.Renaming.{AreOfThreads, IsRenaming, AreCountsOf};
ghost use Rattle.graph_placing.specs.SameGraph.{IsSameAnew};
ghost use Rattle.std.specs.Prelude.{All};
ghost use Rattle.shen_graph.specs.Graph.{opening};
ghost use Rattle.shen_graph.specs.History.{Entry, after, EachIsLegal};
ghost use Rattle.graph_placing.specs.Renewable.{IsRenewable, IsEntryOf};

/// A law: names in their order are counted anew one to one, without a gap.
pub fn names_are_counted_anew()
    ensures { (names : List Name) → InOrder names → IsRenaming names (name_anew names) }
{}

/// A law: where a text shows a graph, that of the text whose objects are named anew is the same graph up to the names.
pub fn renewals_keep_the_graph()
    ensures { (config : Config) (text : Text) (graph : Graph) (counts : List ℕ) → IsPlaceable config text → AreOfThreads config.mutators (names_of text) → AreCountsOf (names_of text) config.mutators counts → ShowsGraph text config.mutators graph → IsSameAnew (name_anew (names_of text)) config.mutators graph (text_graph (text_anew text) counts) }
{}

/// A law: the graph of each legal history can be named anew; and then, its text meets what `renew` asks for, and the graph that comes of
/// it can be named anew once more.
pub fn graphs_of_histories_can_be_renewed()
    ensures opening { (threads : ℕ) → IsRenewable threads (opening threads) }
    ensures history { (threads regions region_words : ℕ) (graph : Graph) (history : List Entry) → EachIsLegal regions region_words graph history → All (IsEntryOf threads) history → IsRenewable threads graph → IsRenewable threads (after graph history) }
    ensures whole { (config : Config) (text : Text) (graph : Graph) → IsRenewable config.mutators graph → ShowsGraph text config.mutators graph → IsPlaceable config text }
    ensures names { (config : Config) (text : Text) (graph : Graph) → IsRenewable config.mutators graph → ShowsGraph text config.mutators graph → AreOfThreads config.mutators (names_of text) }
    ensures once_more { (config : Config) (text : Text) (counts : List ℕ) → IsPlaceable config text → AreOfThreads config.mutators (names_of text) → IsRenewable config.mutators (text_graph (text_anew text) counts) }
{}
