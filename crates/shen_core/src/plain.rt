ghost use Rattle.std.specs.Prelude.{◌≡◌, ◌≤◌, length, map, All};
ghost use Rattle.shen_graph.specs.Valid.{most_objects};
ghost use Rattle.heap_words.specs.Words.{table_words, heap_size};
ghost use Rattle.heap_words.specs.Ranges.{seat_count};
ghost use Rattle.heap_machines.specs.Shown.{shown, order_of, config_of as machine_config};
ghost use Rattle.shen_core.specs.Runs.{IsShownBySomeRun};

use heap_machines::{Machine, Stepped, machines_from, open_machines, words_from};
use heap_words::{Access, Config, NoMemory, Place};
use image_graph::Image;
use shen_graph::{Command, Entry, GraphText, History, Reply, Work};
use std::alloc::Global;
use std::mem;
use step_core::open_words;

/// A heap and its machines, on one thread.
#[derive(Drop)]
pub struct Plain {
    config: Config,
    words: Vec<u64>,
    machines: Vec<Machine>,
    // What its steps settle is noted here, as long as there is memory for it: in `run_noted` alone.
    notes: History,
    ghost all_words: { length words.items ≡ table_words config },
    ghost all_machines: { length machines.items ≡ seat_count config.mutators config.helpers },
    ghost one_heap: { All (λ machine. machine_config machine ≡ config) machines.items },
    ghost reached: { ∥ IsShownBySomeRun config words.items (map shown machines.items) ∥₁ },
}

impl Plain {
    ghost use Rattle.std.specs.Prelude.{◌<◌, ◌↔◌, ◌≢◌, true, false, slice_set, slice_index, Some, None, IfOk, IfSome};
    ghost use Rattle.shen_graph.specs.declared.order.Order.TheVariants.{Nothing, Begin, End, Hint};
    ghost use Rattle.shen_graph.specs.Valid.{IsValid};
    ghost use Rattle.heap_machines.specs.Pause.{pause_image};
    ghost use Rattle.heap_words.specs.Access.{table_index};
    ghost use Rattle.heap_words.specs.Words.{Heap, IsWord};
    ghost use Rattle.step_core.specs.Machines.{takes_of, takes_hint, plan_of, is_machine_at, reply_in, place_in, may_begin, made_of_machine, WaitsIn};
    ghost use Rattle.step_core.specs.Opening.{opening};
    ghost use Rattle.shen_graph.specs.Graph.{Graph};
    ghost use Rattle.image_graph.specs.State as images;
    ghost use Rattle.step_core.specs.Begins.{Begins, Run, ending, graph_after};
    ghost use Rattle.heap_machines.specs.FromImage.{CanBeginFrom, stage_from};
    ghost use Rattle.heap_world.specs.Shows as texts;
    ghost use Rattle.shen_core.specs.State.{config_of, words_of, machines_of, orders_of, notes_of, order_at, seats_of, Shows, machine_at, has_turn, word_found_by, next_machine, IsStep, IsUnchanged, IsHalted};
    ghost use Rattle.heap_machines.specs.Answer.{says};
    ghost use Rattle.heap_machines.specs.Inside.{is_inside_image};
    ghost use Rattle.heap_machines.specs.Roles.{is_mutating};
    ghost use Rattle.heap_machines.specs.Turn.{order_for};
    ghost use Rattle.heap_words.specs.Steps.{Stage, accessed};
    ghost use Rattle.step_core.specs.Actor.{Actor};
    ghost use Rattle.step_core.specs.History.{told};
    ghost use Rattle.shen_core.specs.Runs.{event};
    ghost use Rattle.shen_core.specs.Halted.{IsAtEnd, words_left};
    ghost use Rattle.shen_core.specs.Noting.{IsEnding, NotesTurn, Settles, noted};
    ghost use Rattle.shen_core.specs.Progress.{CanRun, IsTurn, IsNextTurn, HasNext, AllRest, next_for};

    /// The heap of this configuration before the first event, whose mutators have not begun a call.
    pub fn open(alloc: Global, config: Config) -> Result<Plain, NoMemory>
        ensures config { IfOk result (λ plain. config_of plain ≡ config) }
        ensures opening { IfOk result (λ plain. Shows plain (opening config)) }
        ensures orders { IfOk result (λ plain. All (λ order. order ≡ Nothing) (orders_of plain)) }
    {
        let words = open_words(alloc, config)?;
        let machines = open_machines(alloc, config)?;
        let Ok(notes) = History::open(alloc) else {
            return Err(NoMemory);
        };
        Ok(Plain::of(config, words, machines, notes))
    }

    /// The heap of an image's words, before the first event. Each thread has made so many objects before as `counts` says, in
    /// the order of the mutators. The words stand for a graph with these counts, nobody waits, no pause is wanted, no machine
    /// is inside, and no mutator has ended; runs from here are runs from that graph.
    pub fn open_from(alloc: Global, image: Image, counts: &[u32]) -> Result<Plain, NoMemory>
        requires counts { length counts.now ≡ (images.config_of image).mutators }
        requires begins { ∥ ((graph : Graph) × CanBeginFrom (images.config_of image) (images.memory_of image) counts.now graph) ∥₁ }
        ensures config { IfOk result (λ plain. config_of plain ≡ images.config_of image) }
        ensures stage { IfOk result (λ plain. Shows plain (stage_from (images.config_of image) (images.words_of image) counts.now)) }
        ensures begins { (graph : Graph) → CanBeginFrom (images.config_of image) (images.memory_of image) counts.now graph → Begins (images.config_of image) (stage_from (images.config_of image) (images.words_of image) counts.now) graph }
        ensures orders { IfOk result (λ plain. All (λ order. order ≡ Nothing) (orders_of plain)) }
    {
        let config = image.config();
        let words = words_from(alloc, &image)?;
        let machines = machines_from(alloc, image, counts)?;
        let Ok(notes) = History::open(alloc) else {
            return Err(NoMemory);
        };
        Ok(Plain::of(config, words, machines, notes))
    }

    // The heap of these words and machines, and what it notes into.
    fn of(config: Config, words: Vec<u64>, machines: Vec<Machine>, notes: History) -> Plain
        requires words { length words.items ≡ table_words config }
        requires machines { length machines.items ≡ seat_count config.mutators config.helpers }
        requires heap { All (λ machine. machine_config machine ≡ config) machines.items }
        requires reached { ∥ IsShownBySomeRun config words.items (map shown machines.items) ∥₁ }
        ensures config { config_of result ≡ config }
        ensures words { words_of result ≡ words.items }
        ensures machines { machines_of result ≡ map shown machines.items }
        ensures orders { orders_of result ≡ map order_of machines.items }
    {
        Plain {
            config,
            words,
            machines,
            notes,
        }
    }

    /// Orders the command, which the mutator's next step begins. Between two calls only, of a mutator that has not ended.
    pub fn begin(&mut self, number: usize, command: Command)
        requires number { number < seats_of self.old }
        requires rest { may_begin (machine_at self.old number) ≡ true }
        requires valid { IsValid command }
        requires made { made_of_machine (machine_at self.old number) < most_objects }
        ensures order { orders_of self.new ≡ slice_set (orders_of self.old) number (Begin command) }
        ensures takes { takes_of (machine_at self.old number) (Begin command) ≡ true }
        ensures words { words_of self.new ≡ words_of self.old }
        ensures machines { machines_of self.new ≡ machines_of self.old }
        ensures config { config_of self.new ≡ config_of self.old }
    {
        self.machines[number].begin(command);
    }

    /// Orders the end: the mutator's next step is its last one. Between two calls only, of a mutator that has not ended.
    pub fn finish(&mut self, number: usize)
        requires number { number < seats_of self.old }
        requires rest { may_begin (machine_at self.old number) ≡ true }
        ensures order { orders_of self.new ≡ slice_set (orders_of self.old) number End }
        ensures takes { takes_of (machine_at self.old number) End ≡ true }
        ensures words { words_of self.new ≡ words_of self.old }
        ensures machines { machines_of self.new ≡ machines_of self.old }
        ensures config { config_of self.new ≡ config_of self.old }
    {
        self.machines[number].finish();
    }

    /// Whether the machine takes hints: a helper or the control that is about to claim a unit of marking.
    pub fn takes_hint(&self, number: usize) -> bool
        requires { number < seats_of self.now }
        ensures { result ≡ takes_hint (machine_at self.now number) }
    {
        self.machines[number].takes_hint()
    }

    /// Gives the machine the hint of an address of the heap, for its next step: that scans the word that has the address's mark, and
    /// claims no unit. The address may be grey, black or white, or that of no object. Of a machine that takes hints.
    pub fn hint(&mut self, number: usize, address: u64)
        requires number { number < seats_of self.old }
        requires takes { takes_hint (machine_at self.old number) ≡ true }
        requires heap { IsWord (config_of self.old) (Heap address) }
        ensures order { orders_of self.new ≡ slice_set (orders_of self.old) number (Hint address) }
        ensures takes { takes_of (machine_at self.old number) (Hint address) ≡ true }
        ensures words { words_of self.new ≡ words_of self.old }
        ensures machines { machines_of self.new ≡ machines_of self.old }
        ensures config { config_of self.new ≡ config_of self.old }
    {
        self.machines[number].give_hint(address);
    }

    /// Gives the machine of this number one step.
    #[inline(always)]
    pub fn step(&mut self, number: usize) -> Stepped
        requires { number < seats_of self.old }
        ensures idle { (result ≡ Stepped.Idle) ↔ (has_turn self.old number ≡ false) }
        ensures unchanged { has_turn self.old number ≡ false → IsUnchanged self.old self.new }
        ensures event { has_turn self.old number ≡ true → IsStep self.old self.new number }
        ensures says { has_turn self.old number ≡ true → result ≡ says (config_of self.old) (order_at self.old number) (machine_at self.old number) (word_found_by self.old number) }
        ensures machines { has_turn self.old number ≡ true → machines_of self.new ≡ slice_set (machines_of self.old) number (next_machine self.old number) }
        ensures orders { has_turn self.old number ≡ true → orders_of self.new ≡ slice_set (orders_of self.old) number Nothing }
        ensures config { config_of self.new ≡ config_of self.old }

        // A call ends exactly where its mutator leaves the heap, and its reply is at hand then.
        ensures done { (result ≡ Stepped.Done) ↔ ((has_turn self.old number ≡ true) × (is_mutating (machine_at self.old number) ≡ true) × (place_in (order_at self.old number) (machine_at self.old number) ≡ Place.LV)) }
        ensures replied { result ≡ Stepped.Done → reply_in (machine_at self.new number) ≢ None }
        ensures again { (result ≡ Stepped.Again) ↔ ((has_turn self.old number ≡ true) × WaitsIn (config_of self.old) (order_at self.old number) (machine_at self.old number) (word_found_by self.old number)) }
        ensures notes { notes_of self.new ≡ notes_of self.old }
    {
        let machine = &mut self.machines[number];
        if machine.is_idle() {
            return Stepped::Idle;
        }
        Stepped::of(machine.step(&mut self.words))
    }

    // Whether the machine is the control, in a pause whose next step goes from a word of the image to the next one.
    pub(crate) fn is_inside_image(&self, number: usize) -> bool
        requires { number < seats_of self.now }
        ensures { result ≡ true → is_inside_image (config_of self.now) (machine_at self.now number) ≡ true }
    {
        self.words[self.config.pause_at()] != 0 && self.machines[number].is_inside_image()
    }

    // How many steps the machine makes from a word of the image to the next one, one after the other.
    pub(crate) fn words_left(&self, number: usize) -> usize
        requires { number < seats_of self.now }
        ensures { result ≡ words_left self.now number }
    {
        let machine = &self.machines[number];
        let loads = machine.words_to_load();
        if loads > 0 {
            loads
        } else {
            machine.words_to_store()
        }
    }

    // Makes such a step of the control.
    pub(crate) fn step_inside_image(&mut self, number: usize)
        requires number { number < seats_of self.old }
        requires inside { is_inside_image (config_of self.old) (machine_at self.old number) ≡ true }
        ensures event { IsStep self.old self.new number }
        ensures words { words_of self.new ≡ accessed (plan_of (config_of self.old) (order_at self.old number) (machine_at self.old number)) (words_of self.old) }
        ensures machines { machines_of self.new ≡ slice_set (machines_of self.old) number (next_machine self.old number) }
        ensures orders { orders_of self.new ≡ slice_set (orders_of self.old) number Nothing }
        ensures config { config_of self.new ≡ config_of self.old }
        ensures notes { notes_of self.new ≡ notes_of self.old }
    {
        self.machines[number].step_inside_image(&mut self.words);
    }

    /// The entry of a history that the machine's next step settles, if it settles one: of its own thread the reply of the call in
    /// progress, which is given later; of another one, by the control, that the heap is full.
    pub fn settles(&self, number: usize) -> Option<Entry>
        requires number { number < seats_of self.now }
        requires turn { has_turn self.now number ≡ true }
        ensures { Settles self.now number result }
    {
        let machine = &self.machines[number];
        if let Some(reply) = machine.settles(&self.words) {
            return Some(Entry {
                thread: number as u32 + 1,
                command: machine.command(),
                reply,
            });
        }
        let mutator = machine.refuses(self.config, &self.words)?;
        Some(Entry {
            thread: mutator as u32 + 1,
            command: self.machines[mutator].command(),
            reply: Reply::Full,
        })
    }

    // Notes what the machine's next step settles, as long as there is memory for it.
    #[inline(always)]
    pub(crate) fn note_next(&mut self, number: usize)
        requires number { number < seats_of self.old }
        requires turn { has_turn self.old number ≡ true }
        ensures notes { (stage : Stage Actor) → Shows self.old stage → IsEnding (config_of self.old) stage → notes_of self.new ≡ noted (notes_of self.old) (told (config_of self.old) stage (event number (order_at self.old number))) }
        ensures config { config_of self.new ≡ config_of self.old }
        ensures words { words_of self.new ≡ words_of self.old }
        ensures machines { machines_of self.new ≡ machines_of self.old }
        ensures orders { orders_of self.new ≡ orders_of self.old }
    {
        if self.notes.spare() > 0 {
            self.note_settled(number);
        }
    }

    // The same, in a function of its own, which most runs never enter.
    #[inline(never)]
    fn note_settled(&mut self, number: usize)
        requires number { number < seats_of self.old }
        requires turn { has_turn self.old number ≡ true }
        requires spare { 0 < (notes_of self.old).spare }
        ensures notes { (stage : Stage Actor) → Shows self.old stage → IsEnding (config_of self.old) stage → notes_of self.new ≡ noted (notes_of self.old) (told (config_of self.old) stage (event number (order_at self.old number))) }
        ensures config { config_of self.new ≡ config_of self.old }
        ensures words { words_of self.new ≡ words_of self.old }
        ensures machines { machines_of self.new ≡ machines_of self.old }
        ensures orders { orders_of self.new ≡ orders_of self.old }
    {
        if let Some(entry) = self.settles(number) {
            self.notes.note(entry.thread, entry.command, entry.reply);
        }
    }

    // Exchanges the history that it notes for another.
    pub(crate) fn swap_notes(&mut self, history: &mut History)
        ensures notes { notes_of self.new ≡ history.old }
        ensures history { history.new ≡ notes_of self.old }
        ensures config { config_of self.new ≡ config_of self.old }
        ensures words { words_of self.new ≡ words_of self.old }
        ensures machines { machines_of self.new ≡ machines_of self.old }
        ensures orders { orders_of self.new ≡ orders_of self.old }
    {
        mem::swap(&mut self.notes, history);
    }

    /// Its heap.
    pub fn config(&self) -> Config
        ensures { result ≡ config_of self.now }
    {
        self.config
    }

    /// Its mutators, its helpers and its control.
    pub fn seats(&self) -> usize
        ensures { result ≡ seats_of self.now }
    {
        self.config.seats()
    }

    // The next command of the machine's script, if it is a mutator.
    fn next_command(&self, work: &Work, number: usize) -> Option<Command>
        requires { CanRun self.now work.now }
        ensures { result ≡ next_for (config_of self.now) work.now number }
    {
        if number < self.config.mutators() {
            work.next(number)
        } else {
            None
        }
    }

    // The command that the machine begins on its turn, if it begins one. In a call none is looked for.
    fn next_to_begin(&self, work: &Work, number: usize) -> Option<Command>
        requires number { number < seats_of self.now }
        requires run { CanRun self.now work.now }
        ensures turn { order_for result (machine_at self.now number) ≡ order_for (next_for (config_of self.now) work.now number) (machine_at self.now number) }
        ensures begins { may_begin (machine_at self.now number) ≡ true → result ≡ next_for (config_of self.now) work.now number }
    {
        if self.machines[number].may_begin() {
            self.next_command(work, number)
        } else {
            None
        }
    }

    /// Whether the next access of the machine, on its turn, stands at the place.
    pub fn is_at_place(&self, work: &Work, number: usize, place: Place) -> bool
        requires number { number < seats_of self.now }
        requires run { CanRun self.now work.now }
        ensures { result ≡ is_machine_at place (machine_at self.now number) (order_for (next_for (config_of self.now) work.now number) (machine_at self.now number)) }
    {
        self.machines[number].is_at_place(self.next_command(work, number), place)
    }

    /// Gives the machine its order for its turn, if it has one: a mutator between two calls begins the next command of its
    /// script, and ends where there is none.
    pub fn order_next(&mut self, work: &Work, number: usize) -> bool
        requires number { number < seats_of self.old }
        requires run { CanRun self.old work.now }
        ensures turn { IsTurn self.old work.now number result (order_at self.new number) }
        ensures has { has_turn self.new number ≡ result }
        ensures next { IsNextTurn self.old work.now number result (order_at self.new number) }
        ensures orders { orders_of self.new ≡ slice_set (orders_of self.old) number (order_at self.new number) }
        ensures unchanged { result ≡ false → orders_of self.new ≡ orders_of self.old }
        ensures words { words_of self.new ≡ words_of self.old }
        ensures machines { machines_of self.new ≡ machines_of self.old }
        ensures config { config_of self.new ≡ config_of self.old }
        ensures notes { notes_of self.new ≡ notes_of self.old }
    {
        let next = self.next_to_begin(work, number);
        self.machines[number].order_next(next)
    }

    // Gives the machine its order for its turn, if it has one, and notes what its step then settles, as long as there is memory
    // for it.
    pub(crate) fn order_noted(&mut self, work: &Work, number: usize) -> bool
        requires number { number < seats_of self.old }
        requires run { CanRun self.old work.now }
        ensures turn { IsTurn self.old work.now number result (order_at self.new number) }
        ensures has { has_turn self.new number ≡ result }
        ensures next { IsNextTurn self.old work.now number result (order_at self.new number) }
        ensures orders { orders_of self.new ≡ slice_set (orders_of self.old) number (order_at self.new number) }
        ensures unchanged { result ≡ false → orders_of self.new ≡ orders_of self.old }
        ensures words { words_of self.new ≡ words_of self.old }
        ensures machines { machines_of self.new ≡ machines_of self.old }
        ensures config { config_of self.new ≡ config_of self.old }
        ensures notes { NotesTurn self.old work.now number self.new }
        ensures none { result ≡ false → notes_of self.new ≡ notes_of self.old }
    {
        let has = self.order_next(work, number);
        if has {
            self.note_next(number);
        }
        has
    }

    // Whether the machine waits outside the heap for the end of a pause that goes on, which the pause word says unless it is 0.
    // While it does, its steps change nothing.
    pub(crate) fn is_halted(&self, number: usize) -> bool
        requires number { number < seats_of self.now }
        requires orders { All (λ order. order ≡ Nothing) (orders_of self.now) }
        ensures { result ≡ true → IsHalted self.now number }
    {
        self.words[self.config.pause_at()] != 0 && self.machines[number].awaits()
    }

    /// Whether the machine would make a step on its turn.
    pub fn has_next(&self, number: usize) -> bool
        requires number { number < seats_of self.now }
        requires orders { All (λ order. order ≡ Nothing) (orders_of self.now) }
        ensures { HasNext self.now number result }
    {
        self.machines[number].has_next()
    }

    // The same, as far as it is known of the machine alone.
    pub(crate) fn may_move(&self, number: usize) -> bool
        requires number { number < seats_of self.now }
        requires orders { All (λ order. order ≡ Nothing) (orders_of self.now) }
        ensures { result ≡ false → IsAtEnd self.now number }
    {
        self.machines[number].has_next()
    }

    /// The reply of the last call that the mutator has ended, until the next one is begun.
    pub fn reply(&self, number: usize) -> Reply
        requires number { number < seats_of self.now }
        requires ended { reply_in (machine_at self.now number) ≢ None }
        ensures { reply_in (machine_at self.now number) ≡ Some result }
    {
        self.machines[number].reply()
    }

    /// How many objects the thread of a mutator has made: the count with which a heap goes on from an image of these words.
    pub fn made(&self, number: usize) -> u32
        requires { number < seats_of self.now }
        ensures { result ≡ made_of_machine (machine_at self.now number) }
    {
        self.machines[number].made()
    }

    /// The word at an index of the table.
    pub fn word(&self, at: usize) -> u64
        requires { at < table_words (config_of self.now) }
        ensures { result ≡ slice_index (words_of self.now) at }
    {
        self.words[at]
    }

    /// The place of the machine's next access, or None where it has nothing to do.
    pub fn place(&self, number: usize) -> Option<Place>
        requires { number < seats_of self.now }
        ensures none { (result ≡ None) ↔ (has_turn self.now number ≡ false) }
        ensures place { IfSome result (λ place. place ≡ place_in (order_at self.now number) (machine_at self.now number)) }
    {
        let machine = &self.machines[number];
        if machine.is_idle() {
            None
        } else {
            Some(machine.place())
        }
    }

    /// The access of the machine's next step, of a word of the table.
    pub fn plan(&self, number: usize) -> Access
        requires number { number < seats_of self.now }
        requires turn { has_turn self.now number ≡ true }
        ensures row { result ≡ plan_of (config_of self.now) (order_at self.now number) (machine_at self.now number) }
        ensures inside { table_index result < table_words (config_of self.now) }
    {
        self.machines[number].plan()
    }

    /// Writes the graph that words and machines stand for: the objects that the mutators' roots and pin slots lead to, in the
    /// order of their names, and the roots and pin slots of each mutator. No mutator has a call in progress, the control is not storing a new
    /// image, and the text was opened for at least as many words as the heap has, and for the heap's mutators. No memory is
    /// taken: the control's image is where it works. The time is linear in the words, but for the sort of the objects.
    pub fn graph(&mut self, text: &mut GraphText)
        requires rest { AllRest self.old }
        requires room { heap_size (config_of self.old) ≤ text.old.room }
        requires threads { length text.old.roots ≡ (config_of self.old).mutators }
        ensures shows { (run : Run (config_of self.old)) → Shows self.old (ending pause_image (config_of self.old) run) → texts.ShowsGraph text.new (config_of self.old).mutators (graph_after pause_image (config_of self.old) run) }

        // Nothing else changes.
        ensures unchanged { IsUnchanged self.old self.new }
        ensures same_room { text.new.room ≡ text.old.room }
        ensures same_threads { length text.new.roots ≡ length text.old.roots }
    {
        let control = self.config.seats() - 1;
        self.machines[control].answer_graph(&self.words, text);
    }
}
