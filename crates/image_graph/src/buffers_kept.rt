//! That pauses may settle the buffers of seats, and let them go: the words of a heap represent the same graph afterwards. Laws, as theorems
//! and no code.

ghost use Rattle.std.specs.Prelude.{ℕ};
ghost use Rattle.heap_words.specs.declared.config.Config.{Config};
ghost use Rattle.heap_words.specs.Words.{Word};
ghost use Rattle.shen_graph.specs.Graph.{Graph};
ghost use Rattle.heap_world.specs.Asking.{Asking};
ghost use Rattle.image_graph.specs.BuffersKeep.{SettlingKeeps, LettingGoKeeps, HasNoOtherBuffers, LastDivide, NoneHaveRoom};

/// A law: words represent the same graph after buffers were settled.
pub fn settling_keeps()
    ensures { (config : Config) (memory : Word → ℕ) (graph : Graph) (asking : ℕ → Asking) → SettlingKeeps config memory graph asking }
{}

/// A law: words represent the same graph after buffers were let go.
pub fn letting_go_keeps()
    ensures { (config : Config) (memory : Word → ℕ) (graph : Graph) (asking : ℕ → Asking) → HasNoOtherBuffers config memory → LettingGoKeeps config memory graph asking }
{}

/// A law: once buffers are settled, all room lies at or above the edge of its region, and all other pieces below it.
pub fn edges_divide()
    ensures { LastDivide }
{}

/// A law: once buffers were let go, no piece is room.
pub fn none_have_room()
    ensures { NoneHaveRoom }
{}
