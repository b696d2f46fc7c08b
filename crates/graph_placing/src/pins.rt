//! Whether an object is pinned.

ghost use Rattle.std.specs.Prelude.{◌≡◌, ◌<◌, ◌≤◌, ◌↔◌, ℕ, IsTrue, None, length};
ghost use Rattle.shen_graph.specs.GraphText.{pin_of};
ghost use Rattle.shen_graph.specs.Valid.{most_objects};
ghost use Rattle.graph_placing.specs.Renewed.{PinsNothing};

use shen_graph::GraphText;

// Whether the pin slots of a thread are all empty.
fn is_thread_unpinned(text: &GraphText, thread: u32) -> bool
    requires { (1 ≤ thread) × (thread ≤ length text.now.roots) }
    ensures { IsTrue result ↔ ((slot : ℕ) → slot < 4 → pin_of text.now thread slot ≡ None) }
{
    for slot in 0..4 {
        if text.pin_at(thread, slot).is_some() {
            return false;
        }
    }
    true
}

/// Whether all pin slots are empty.
pub(crate) fn is_unpinned(text: &GraphText) -> bool
    requires { length text.now.roots < most_objects }
    ensures { IsTrue result ↔ PinsNothing text.now }
{
    for mutator in 0..text.mutators() {
        if !is_thread_unpinned(text, mutator as u32 + 1) {
            return false;
        }
    }
    true
}
