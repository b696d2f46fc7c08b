//! What is left of the buffers of seats once they are settled, or let go, word by word: laws, as theorems and no code.

ghost use Rattle.std.specs.Prelude.{ℕ};
ghost use Rattle.heap_words.specs.declared.config.Config.{Config};
ghost use Rattle.heap_words.specs.Words.{Word};
ghost use Rattle.image_graph.specs.BufferLaws.{SettlingLeaves, LettingGoLeaves, EdgesLie};

/// A law: after settling each buffer ends at the top of its region, and no top has changed.
pub fn settling_leaves()
    ensures { (config : Config) (memory : Word → ℕ) → SettlingLeaves config memory }
{}

/// A law: after letting go nobody has a buffer.
pub fn letting_go_leaves()
    ensures { (config : Config) (memory : Word → ℕ) → LettingGoLeaves config memory }
{}

/// A law: a region's edge lies neither above its top nor above the free words of a buffer that ends there.
pub fn edges_lie()
    ensures { (config : Config) (memory : Word → ℕ) (region : ℕ) → EdgesLie config memory region }
{}
