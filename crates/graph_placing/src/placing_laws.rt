//! That a text which can be placed has a graph: a law, as a theorem and no code.

ghost use Rattle.std.specs.Prelude.{ℕ, List};
ghost use Rattle.heap_words.specs.declared.config.Config.{Config};
ghost use Rattle.shen_graph.specs.GraphText.{Text};
ghost use Rattle.graph_placing.specs.PlaceableText.{IsPlaceable};
ghost use Rattle.graph_placing.specs.TextGraph.{IsGraphOf, AreGiven, text_graph};

/// A law: the graph of a text alone is one of the text, where its names are given by these counts.
pub fn texts_have_a_graph()
    ensures { (config : Config) (text : Text) (counts : List ℕ) → IsPlaceable config text → AreGiven config text counts → IsGraphOf config text counts (text_graph text counts) }
{}
