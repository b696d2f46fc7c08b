//! Opens a heap again that has come to rest: of its words those of another heap are made, in which nothing has happened yet and which goes on
//! with the same graph, the same names and the same pins.

ghost use Rattle.std.specs.Prelude.{List, ℕ};
ghost use Rattle.heap_words.specs.declared.config.Config.{Config};
ghost use Rattle.heap_words.specs.Words.{view};
ghost use Rattle.shen_graph.specs.declared.order.Order.{Order};
ghost use Rattle.shen_graph.specs.Graph.{Graph};
ghost use Rattle.shen_graph.specs.History.{after};
ghost use Rattle.heap_words.specs.Steps.{Stage, Event, go};
ghost use Rattle.heap_machines.specs.FromImage.{CanBeginFrom};
ghost use Rattle.heap_machines.specs.Pause.{pause_image};
ghost use Rattle.step_core.specs.Actor.{Actor};
ghost use Rattle.step_core.specs.AtRest.{IsAtRest};
ghost use Rattle.step_core.specs.Begins.{Begins};
ghost use Rattle.step_core.specs.History.{history};
ghost use Rattle.step_core.specs.Machines.{kind};
ghost use Rattle.heap_machines.specs.Reopened.{words_reopened, AreMadeBy};

/// A law: where a heap is at rest, whatever happened before and in whichever phase it is, another one can begin from its words, and goes on
/// from the graph after the history.
pub fn rest_can_begin()
    ensures { (config : Config) (start : Stage Actor) (graph : Graph) → Begins config start graph → (events : List (Event Order)) → IsAtRest config (go (kind pause_image config) start events) → (counts : List ℕ) → AreMadeBy config.mutators (go (kind pause_image config) start events) counts → CanBeginFrom config (words_reopened config (view config (go (kind pause_image config) start events).words)) counts (after graph (history pause_image config start events)) }
{}
