//! That the words of a table stand for the graph that its machines work on.

ghost use Rattle.std.specs.Prelude.{ℕ, ◌≡◌, ◌+◌, ◌<◌, Option, List, length};
ghost use Rattle.heap_words.specs.declared.config.Config.{Config};
ghost use Rattle.heap_words.specs.Words.{Root, view, table_words, heap_in, roots_in, pins_in};
ghost use Rattle.shen_graph.specs.Graph.{Graph};
ghost use Rattle.heap_world.specs.World.{Ghost, Plot, Points, Shared, name_at};
ghost use Rattle.heap_world.specs.Roots.{HasNoMoreRoots, HasNoMorePins};
ghost use Rattle.heap_world.specs.Shows.{WordsStand};

/// A law: where the words of a table stand for a graph, and the words of the roots for the roots of its threads, the words of
/// heap, roots and pin slots alone stand for it. No other thread has roots or pins.
pub fn table_words_stand()
    ensures { (config : Config) (words : List ℕ) (block : Plot) (ghost : Ghost) (graph : Graph) → length words ≡ table_words config → Shared config (record { memory = view config words; block = block; ghost = ghost; graph = graph }) → ((mutator index : ℕ) → mutator < config.mutators → index < 16 → Points block (view config words (Root mutator index)) (graph.root (mutator + 1) index)) → HasNoMoreRoots config.mutators graph → HasNoMorePins config.mutators graph → WordsStand config.region_words (heap_in config words) (roots_in config words) (pins_in config words) (λ address. name_at (block address)) graph }
{}
