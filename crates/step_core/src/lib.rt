//! The heap as its events see it: every list of atomic steps of its machines from a stage that begins a graph, as the
//! opening does, and the theorem that after each of them words and machines stand for the graph of a legal history.
#![tactic(auto)]

mod opening;

ghost use Rattle.std.specs.Prelude.{ℕ, ◌≡◌, ◌<◌, true, List, Some, slice_get};
ghost use Rattle.heap_words.specs.declared.config.Config.{Config};
ghost use Rattle.heap_words.specs.Access.{table_index};
ghost use Rattle.heap_words.specs.Words.{End, view, table_words};
ghost use Rattle.heap_words.specs.Steps.{Stage, Event, go, HasReached, Finds};
ghost use Rattle.shen_graph.specs.declared.order.Order.{Order};
ghost use Rattle.shen_graph.specs.Graph.{Graph};
ghost use Rattle.alloc_buffers.specs.Facts.{HasLess};
ghost use Rattle.shen_graph.specs.History.{after};
ghost use Rattle.heap_world.specs.Asking.{nothing};
ghost use Rattle.heap_world.specs.Change.{Change};
ghost use Rattle.collector_rows.specs.ByParts.{PausesByParts};
ghost use Rattle.heap_world.specs.Represents.{Represents};
ghost use Rattle.collector_rows.specs.ControlRows.{Controlling};
ghost use Rattle.step_core.specs.Actor.{Actor, controlling};
ghost use Rattle.step_core.specs.Machines.{takes_of, plan_of, kind, IsFitFor};
ghost use Rattle.step_core.specs.Settled.{settled};
ghost use Rattle.step_core.specs.History.{history};
ghost use Rattle.step_core.specs.Opening.{opening};
ghost use Rattle.step_core.specs.AtRest.{IsAtRest};
ghost use Rattle.step_core.specs.Begins.{Begins, first_graph};
ghost use Rattle.step_core.specs.Pausing.{IsInPause, IsEmpty, IsAim};
ghost use Rattle.step_core.specs.Seats.{looks_for};
ghost use Rattle.step_core.specs.Sound.{IsSound};
ghost use Rattle.step_core.specs.Pins.{OnlyPinningPins};
ghost use Rattle.step_core.specs.Ending.{has_ended};
ghost use Rattle.step_core.specs.Hints.{HintsAreCounted, HintsHavePlaces};
ghost use Rattle.handshake.specs.Ending.{IsEndWord};

pub use opening::{first_free, open_words};

/// A law: whatever list of steps the machines of a heap make, from a stage that begins a graph, the words and machines
/// then stand for the graph after the history of the steps; the history is legal and of the heap's threads, and refuses only
/// allocations that live objects without a pin and other unanswered allocations crowd out of the regions without a pinned object; the
/// entries of each thread are its calls, and one more where its call in progress is settled; and each machine finds a fit word next. This
/// is so of any work that is a pause's: that makes, where a pause is due, of an image that stands for a graph one that stands for the same
/// graph, and answers who waits; and that makes of the part of an image that a brief pause loads what it makes of all of it, where that
/// counts.
pub fn every_schedule()
    ensures { (change : Change) → PausesByParts change → (config : Config) (stage : Stage Actor) (graph : Graph) → Begins config stage graph → (events : List (Event Order)) → IsSound config graph (go (kind change config) stage events) (history change config stage events) }
{}

/// A law: the opening begins the graph of one object, the hub.
pub fn opening_begins()
    ensures { (config : Config) → Begins config (opening config) (first_graph config) }
{}

/// A law: a machine that is reached by some steps makes its next access inside the table, whatever order it takes.
pub fn accesses_are_inside()
    ensures { (change : Change) → PausesByParts change → (config : Config) (stage : Stage Actor) (graph : Graph) → Begins config stage graph → (number : ℕ) (actor : Actor) (order : Order) → HasReached (kind change config) stage number actor → takes_of actor.machine order ≡ true → table_index (plan_of config order actor.machine) < table_words config }
{}

/// A law: a word that a machine finds after some steps is fit.
pub fn found_words_are_fit()
    ensures { (change : Change) → PausesByParts change → (config : Config) (stage : Stage Actor) (graph : Graph) → Begins config stage graph → (number : ℕ) (actor : Actor) (order : Order) (got : ℕ) → Finds (kind change config) stage number actor order got → IsFitFor config order got actor.machine }
{}

/// A law: in a pause, from the control's last check to its end, no mutator and no helper is in the heap, and none makes an access
/// to a word that the pause may change, but a mutator to look for its answer.
pub fn pauses_are_empty()
    ensures { (change : Change) → PausesByParts change → (config : Config) (stage : Stage Actor) (graph : Graph) → Begins config stage graph → (events : List (Event Order)) → IsInPause config (go (kind change config) stage events) → IsEmpty config (go (kind change config) stage events) }
{}

/// A law: where the word of the end is 0 before the first step, it is 1 after a list of steps where the control has ended, and
/// 0 where it has not.
pub fn end_is_known()
    ensures { (change : Change) → PausesByParts change → (config : Config) (stage : Stage Actor) (graph : Graph) → Begins config stage graph → view config stage.words End ≡ 0 → (events : List (Event Order)) → IsEndWord config has_ended (go (kind change config) stage events) }
{}

/// A law: a machine that is about to look for a free region, for a new object or for a copy, has a buffer with fewer free words than it
/// wants, or none.
pub fn looks_for_room_in_need()
    ensures { (change : Change) → PausesByParts change → (config : Config) (stage : Stage Actor) (graph : Graph) → Begins config stage graph → (events : List (Event Order)) (number : ℕ) (actor : Actor) (words : ℕ) → slice_get (go (kind change config) stage events).machines number ≡ Some actor → looks_for actor.machine ≡ Some words → HasLess (settled config (go (kind change config) stage events)) number words }
{}

/// A law: of the image the control has, while it loads its words, exactly those that it has loaded as the table has them, and while it
/// stores the new ones the first of those that count are the table's.
pub fn read_words_are_the_tables()
    ensures { (change : Change) → PausesByParts change → (config : Config) (stage : Stage Actor) (graph : Graph) → Begins config stage graph → (events : List (Event Order)) (number : ℕ) (actor : Actor) (control : Controlling) → slice_get (go (kind change config) stage events).machines number ≡ Some actor → actor.machine ≡ controlling control → IsAim config (go (kind change config) stage events).words control.spot control.image }
{}

/// A law: a pin word is changed by a step of its own mutator alone, which stores into it, whatever happened before. So a pinned object stays at
/// its place until its own slot is emptied.
pub fn only_pinning_pins()
    ensures { (change : Change) → PausesByParts change → (config : Config) (stage : Stage Actor) (graph : Graph) → Begins config stage graph → (events : List (Event Order)) (event : Event Order) → OnlyPinningPins change config (go (kind change config) stage events) event }
{}

/// A law: a machine keeps how many hints it has taken, whatever the events are.
pub fn hints_are_counted()
    ensures { HintsAreCounted }
{}

/// A law: hints are taken where a machine is about to claim a unit of marking, and nowhere else; and where `greys_of` tells an address
/// the machine is about to make that grey, and nowhere else.
pub fn hints_have_places()
    ensures { HintsHavePlaces }
{}

/// A law: where a heap is at rest, whatever happened before and in whichever phase it is, its words represent the graph after the history,
/// and nobody asks for an object.
pub fn rest_represents()
    ensures { (change : Change) → PausesByParts change → (config : Config) (stage : Stage Actor) (graph : Graph) → Begins config stage graph → (events : List (Event Order)) → IsAtRest config (go (kind change config) stage events) → Represents config (settled config (go (kind change config) stage events)) (after graph (history change config stage events)) (λ mutator. nothing) }
{}
