ghost use Rattle.std.specs.Prelude.{◌≡◌, None, IfOk};
ghost use Rattle.control.specs.Seen.{config_in, seen_control, hint_of};
ghost use Rattle.step_core.specs.Actor.{controlling, fresh_control};
ghost use Rattle.step_core.specs.Opening.{first_free};
ghost use Rattle.shen_graph.specs.Order.{hinting};
ghost use Rattle.shen_graph.specs.Valid.{most_objects};
ghost use Rattle.heap_machines.specs.Turn.{first_place_of};

use crate::refusal::refused;
use collector_rows::Helper;
use control::Control;
use heap_words::{Access, Config, NoMemory, Place, Took, make_access};
use image_graph::Image;
use mutator::Mutator;
use shen_graph::{Command, GraphText, Order, Reply};
use std::alloc::Global;
use step_core::first_free;

/// A machine of a heap: first in the order of numbers are the mutators, then the helpers, then the control.
#[derive(Drop)]
pub enum Machine {
    /// A mutator thread.
    Mutator(Mutator),
    /// A helper, which works on the units of a phase beside the mutators.
    Helper(Helper),
    /// The control, which makes the pauses.
    Control(Control),
}

impl Machine {
    ghost use Rattle.std.specs.Prelude.{ℕ, ◌≡◌, ◌+◌, ◌<◌, ◌≤◌, ◌↔◌, ◌≢◌, length, vec_len, slice_index, true, false, not, Option, Some, None, IfOk, IfSome, is_some, if◌then◌else◌};
    ghost use Rattle.heap_words.specs.Access.{table_index};
    ghost use Rattle.heap_words.specs.Steps.{accessed};
    ghost use Rattle.heap_words.specs.Words.{Cset, Heap, IsWord, table_words, heap_size, view};
    ghost use Rattle.heap_world.specs.Change.{image_view};
    ghost use Rattle.image_graph.specs.Holds.{HoldsSome};
    ghost use Rattle.image_graph.specs.Left.{StandsForSome, ShowsTheGraph};
    ghost use Rattle.image_graph.specs.State as images;
    ghost use Rattle.control.specs.Image.{image_from};
    ghost use Rattle.shen_graph.specs.Valid.{IsValid};
    ghost use Rattle.shen_graph.specs.declared.command.Command.{Command as Commands};
    ghost use Rattle.heap_machines.specs.Pause.{pause_image};
    ghost use Rattle.step_core.specs.Opening.{opening_machine};
    ghost use Rattle.step_core.specs.Machines.{control_in, takes_of, takes_hint, greys_of, hints_of, plan_of, place_in, machine_after, answer_of, is_machine_at, reply_in, may_begin, made_of_machine, WaitsIn, IsFitFor, is_resting};
    ghost use Rattle.heap_machines.specs.Shown.{shown, order_of, config_of, has_turn, access_of, word_found};
    ghost use Rattle.heap_machines.specs.Roles.{is_mutating, phase_in, CanShow};
    ghost use Rattle.heap_machines.specs.Settles.{command_in, reply_settled, refused_by};
    ghost use Rattle.heap_machines.specs.Turn.{order_for};
    ghost use Rattle.heap_machines.specs.Awaits.{Awaits};
    ghost use Rattle.heap_machines.specs.Inside.{is_inside_image, loads_left, stores_left};

    /// The machine of a number, as a heap begins with it. The error is that memory for the control's image was refused.
    pub fn open(alloc: Global, config: Config, number: usize) -> Result<Machine, NoMemory>
        ensures shown { IfOk result (λ machine. shown machine ≡ opening_machine config number) }
        ensures heap { IfOk result (λ machine. config_of machine ≡ config) }
        ensures order { IfOk result (λ machine. order_of machine ≡ Order.Nothing) }
    {
        if number < config.mutators() {
            Ok(Machine::Mutator(Mutator::new(config, number)))
        } else if number < config.mutators() + config.helpers() {
            Ok(Machine::Helper(Helper::new(config, number - config.mutators())))
        } else {
            Ok(Machine::Control(open_control(alloc, config)?))
        }
    }

    /// The place of its next access.
    pub fn place(&self) -> Place
        requires { has_turn self.now ≡ true }
        ensures { result ≡ place_in (order_of self.now) (shown self.now) }
    {
        match self {
            Machine::Mutator(mutator) => mutator.place(),
            Machine::Helper(helper) => helper.place(),
            Machine::Control(control) => control.place(),
        }
    }

    /// Whether its next access, on its turn, stands at the place. The command is the one that would follow.
    pub fn is_at_place(&self, next: Option<Command>, place: Place) -> bool
        requires { order_of self.now ≡ Order.Nothing }
        ensures { result ≡ is_machine_at place (shown self.now) (order_for next (shown self.now)) }
    {
        match self {
            Machine::Mutator(mutator) if mutator.takes_commands() => first_place(next).is(place),
            Machine::Mutator(mutator) => !mutator.is_idle() && mutator.place().is(place),
            Machine::Helper(helper) => !helper.is_idle() && helper.place().is(place),
            Machine::Control(control) => !control.is_idle() && control.place().is(place),
        }
    }

    /// Whether it waits outside the heap until no pause is wanted. As long as one is, its steps change nothing.
    pub fn awaits(&self) -> bool
        requires { order_of self.now ≡ Order.Nothing }
        ensures waits { result ≡ true → Awaits (config_of self.now) (shown self.now) }
        ensures there { result ≡ is_machine_at Place.E4 (shown self.now) (order_for None (shown self.now)) }
    {
        self.is_at_place(None, Place::E4)
    }

    /// Whether it is the control, and its next step goes from a word of the image to the next one.
    pub fn is_inside_image(&self) -> bool
        ensures { result ≡ is_inside_image (config_of self.now) (shown self.now) }
    {
        match self {
            Machine::Control(control) => control.is_inside_image(),
            Machine::Mutator(_) | Machine::Helper(_) => false,
        }
    }

    /// Makes its next step, which goes from a word of the image to the next one, on the words of the heap's table. Of the control.
    pub fn step_inside_image(&mut self, words: &mut Vec<u64>)
        requires inside { is_inside_image (config_of self.old) (shown self.old) ≡ true }
        requires words { vec_len words.old ≡ table_words (config_of self.old) }
        ensures words { words.new.items ≡ accessed (plan_of (config_of self.old) (order_of self.old) (shown self.old)) words.old.items }
        ensures none { order_of self.old ≡ Order.Nothing }
        ensures shown { shown self.new ≡ machine_after pause_image (config_of self.old) (order_of self.old) (slice_index words.old.items (table_index (plan_of (config_of self.old) (order_of self.old) (shown self.old)))) (shown self.old) }
        ensures order { order_of self.new ≡ Order.Nothing }
        ensures heap { config_of self.new ≡ config_of self.old }
    {
        match self {
            Machine::Control(control) => control.step_inside_image(words),
            Machine::Mutator(_) | Machine::Helper(_) => unreachable!(),
        }
    }

    /// How many words of the image it loads before the last one, one after the other, in a pause of all of the image; the control alone
    /// loads any.
    #[inline(always)]
    pub fn words_to_load(&self) -> usize
        ensures { result ≡ loads_left (config_of self.now) (shown self.now) }
    {
        match self {
            Machine::Control(control) => control.words_to_load(),
            Machine::Mutator(_) | Machine::Helper(_) => 0,
        }
    }

    /// How many words of the image it stores before the last one, one after the other, in a pause of all of the image; the control alone
    /// stores any.
    #[inline(always)]
    pub fn words_to_store(&self) -> usize
        ensures { result ≡ stores_left (config_of self.now) (shown self.now) }
    {
        match self {
            Machine::Control(control) => control.words_to_store(),
            Machine::Mutator(_) | Machine::Helper(_) => 0,
        }
    }

    /// The index in the heap's table of the word that its next step loads, where it loads one more before the last. Of the control.
    #[inline(always)]
    pub fn next_to_load(&self) -> usize
        requires { 0 < loads_left (config_of self.now) (shown self.now) }
        ensures none { order_of self.now ≡ Order.Nothing }
        ensures row { Access.Load result ≡ plan_of (config_of self.now) (order_of self.now) (shown self.now) }
        ensures inside { result < table_words (config_of self.now) }
    {
        match self {
            Machine::Control(control) => control.next_to_load(),
            Machine::Mutator(_) | Machine::Helper(_) => unreachable!(),
        }
    }

    /// Goes on with the word that it has loaded there, to the next one. Of the control.
    #[inline(always)]
    pub fn loaded(&mut self, got: u64)
        requires { 0 < loads_left (config_of self.old) (shown self.old) }
        ensures shown { shown self.new ≡ machine_after pause_image (config_of self.old) (order_of self.old) got (shown self.old) }
        ensures order { order_of self.new ≡ Order.Nothing }
        ensures heap { config_of self.new ≡ config_of self.old }
        ensures left { loads_left (config_of self.new) (shown self.new) + 1 ≡ loads_left (config_of self.old) (shown self.old) }
    {
        match self {
            Machine::Control(control) => control.loaded(got),
            Machine::Mutator(_) | Machine::Helper(_) => unreachable!(),
        }
    }

    /// The index in the heap's table of the word that its next step stores, and its value, where it stores one more before the last. Of
    /// the control.
    #[inline(always)]
    pub fn next_to_store(&self) -> (usize, u64)
        requires { 0 < stores_left (config_of self.now) (shown self.now) }
        ensures none { order_of self.now ≡ Order.Nothing }
        ensures row { Access.Store result.0 result.1 ≡ plan_of (config_of self.now) (order_of self.now) (shown self.now) }
        ensures inside { result.0 < table_words (config_of self.now) }
    {
        match self {
            Machine::Control(control) => control.next_to_store(),
            Machine::Mutator(_) | Machine::Helper(_) => unreachable!(),
        }
    }

    /// Goes on from the word that it has stored there to the next one. Of the control.
    #[inline(always)]
    pub fn stored(&mut self)
        requires { 0 < stores_left (config_of self.old) (shown self.old) }
        ensures shown { (got : ℕ) → shown self.new ≡ machine_after pause_image (config_of self.old) (order_of self.old) got (shown self.old) }
        ensures order { order_of self.new ≡ Order.Nothing }
        ensures heap { config_of self.new ≡ config_of self.old }
        ensures left { stores_left (config_of self.new) (shown self.new) + 1 ≡ stores_left (config_of self.old) (shown self.old) }
    {
        match self {
            Machine::Control(control) => control.stored(),
            Machine::Mutator(_) | Machine::Helper(_) => unreachable!(),
        }
    }

    /// The order that it was given.
    pub fn order(&self) -> Order
        ensures { result ≡ order_of self.now }
    {
        match self {
            Machine::Mutator(mutator) => mutator.order(),
            Machine::Helper(helper) => hinting(helper.hint()),
            Machine::Control(control) => hinting(control.hint()),
        }
    }

    /// Whether it makes no step under its order.
    pub fn is_idle(&self) -> bool
        ensures { has_turn self.now ≡ not result }
    {
        match self {
            Machine::Mutator(mutator) => mutator.is_idle(),
            Machine::Helper(helper) => helper.is_idle(),
            Machine::Control(control) => control.is_idle(),
        }
    }

    /// How many objects its thread has made, if it is a mutator.
    pub fn made(&self) -> u32
        ensures { result ≡ made_of_machine (shown self.now) }
    {
        match self {
            Machine::Mutator(mutator) => mutator.made(),
            Machine::Helper(_) | Machine::Control(_) => 0,
        }
    }

    /// The access of its next step, of a word of the table.
    #[inline(always)]
    pub fn plan(&self) -> Access
        requires { has_turn self.now ≡ true }
        ensures row { result ≡ plan_of (config_of self.now) (order_of self.now) (shown self.now) }
        ensures inside { table_index result < table_words (config_of self.now) }
    {
        match self {
            Machine::Mutator(mutator) => mutator.plan(),
            Machine::Helper(helper) => helper.plan(),
            Machine::Control(control) => control.plan(),
        }
    }

    /// Goes on with the word that its access has found. A pause of the control goes on to the next phase of the
    /// cycle, or makes room.
    #[inline(always)]
    pub fn took(&mut self, got: u64) -> Took
        requires busy { has_turn self.old ≡ true }
        requires fit { IsFitFor (config_of self.old) (order_of self.old) got (shown self.old) }
        ensures shown { shown self.new ≡ machine_after pause_image (config_of self.old) (order_of self.old) got (shown self.old) }
        ensures order { order_of self.new ≡ Order.Nothing }
        ensures heap { config_of self.new ≡ config_of self.old }
        ensures answer { answer_of (config_of self.old) (order_of self.old) (shown self.old) got ≡ Some result }

        // A call ends exactly where its mutator leaves the heap, and its reply is at hand then.
        ensures done { (result ≡ Took.Done) ↔ ((is_mutating (shown self.old) ≡ true) × (place_in (order_of self.old) (shown self.old) ≡ Place.LV)) }
        ensures replied { result ≡ Took.Done → reply_in (shown self.new) ≢ None }
        ensures again { (result ≡ Took.Again) ↔ WaitsIn (config_of self.old) (order_of self.old) (shown self.old) got }
    {
        match self {
            Machine::Mutator(mutator) => mutator.took(got),
            Machine::Helper(helper) => helper.took(got),
            Machine::Control(control) => control.took(got),
        }
    }

    /// Makes its next step on the words of the heap's table: the access of `plan`, and what `took` makes of the word that it finds.
    #[inline(always)]
    pub fn step(&mut self, words: &mut Vec<u64>) -> Took
        requires busy { has_turn self.old ≡ true }
        requires words { vec_len words.old ≡ table_words (config_of self.old) }
        requires fit { IsFitFor (config_of self.old) (order_of self.old) (word_found self.old words.old.items) (shown self.old) }
        ensures words { words.new.items ≡ accessed (access_of self.old) words.old.items }
        ensures shown { shown self.new ≡ machine_after pause_image (config_of self.old) (order_of self.old) (word_found self.old words.old.items) (shown self.old) }
        ensures order { order_of self.new ≡ Order.Nothing }
        ensures heap { config_of self.new ≡ config_of self.old }
        ensures answer { answer_of (config_of self.old) (order_of self.old) (shown self.old) (word_found self.old words.old.items) ≡ Some result }
        ensures done { (result ≡ Took.Done) ↔ ((is_mutating (shown self.old) ≡ true) × (place_in (order_of self.old) (shown self.old) ≡ Place.LV)) }
        ensures replied { result ≡ Took.Done → reply_in (shown self.new) ≢ None }
        ensures again { (result ≡ Took.Again) ↔ WaitsIn (config_of self.old) (order_of self.old) (shown self.old) (word_found self.old words.old.items) }
    {
        match self {
            Machine::Mutator(mutator) => mutator.step(words),
            Machine::Control(control) => control.step(words),
            Machine::Helper(_) => self.step_apart(words),
        }
    }

    // The same of any machine.
    fn step_apart(&mut self, words: &mut Vec<u64>) -> Took
        requires busy { has_turn self.old ≡ true }
        requires words { vec_len words.old ≡ table_words (config_of self.old) }
        requires fit { IsFitFor (config_of self.old) (order_of self.old) (word_found self.old words.old.items) (shown self.old) }
        ensures words { words.new.items ≡ accessed (access_of self.old) words.old.items }
        ensures shown { shown self.new ≡ machine_after pause_image (config_of self.old) (order_of self.old) (word_found self.old words.old.items) (shown self.old) }
        ensures order { order_of self.new ≡ Order.Nothing }
        ensures heap { config_of self.new ≡ config_of self.old }
        ensures answer { answer_of (config_of self.old) (order_of self.old) (shown self.old) (word_found self.old words.old.items) ≡ Some result }
        ensures done { (result ≡ Took.Done) ↔ ((is_mutating (shown self.old) ≡ true) × (place_in (order_of self.old) (shown self.old) ≡ Place.LV)) }
        ensures replied { result ≡ Took.Done → reply_in (shown self.new) ≢ None }
        ensures again { (result ≡ Took.Again) ↔ WaitsIn (config_of self.old) (order_of self.old) (shown self.old) (word_found self.old words.old.items) }
    {
        let got = make_access(words, self.plan());
        self.took(got)
    }

    /// Orders the command, which its next step begins. Of a mutator between two calls that has not ended.
    pub fn begin(&mut self, command: Command)
        requires rest { may_begin (shown self.old) ≡ true }
        requires valid { IsValid command }
        requires made { made_of_machine (shown self.old) < most_objects }
        ensures order { order_of self.new ≡ Order.Begin command }
        ensures takes { takes_of (shown self.old) (Order.Begin command) ≡ true }
        ensures shown { shown self.new ≡ shown self.old }
        ensures heap { config_of self.new ≡ config_of self.old }
    {
        match self {
            Machine::Mutator(mutator) => mutator.begin(command),
            Machine::Helper(_) | Machine::Control(_) => unreachable!(),
        }
    }

    /// Orders the end: its next step is its last one. Of a mutator between two calls that has not ended.
    pub fn finish(&mut self)
        requires { may_begin (shown self.old) ≡ true }
        ensures order { order_of self.new ≡ Order.End }
        ensures takes { takes_of (shown self.old) Order.End ≡ true }
        ensures shown { shown self.new ≡ shown self.old }
        ensures heap { config_of self.new ≡ config_of self.old }
    {
        match self {
            Machine::Mutator(mutator) => mutator.finish(),
            Machine::Helper(_) | Machine::Control(_) => unreachable!(),
        }
    }

    /// Whether it takes hints: a helper or the control that is about to claim a unit of marking.
    pub fn takes_hint(&self) -> bool
        ensures { result ≡ takes_hint (shown self.now) }
    {
        match self {
            Machine::Mutator(_) => false,
            Machine::Helper(helper) => helper.takes_hint(),
            Machine::Control(control) => control.takes_hint(),
        }
    }

    /// Gives it the hint of an address of the heap, black, grey or white, or of none: its next step scans the word that has the
    /// address's mark, and claims no unit. Of one that takes hints.
    pub fn give_hint(&mut self, address: u64)
        requires takes { takes_hint (shown self.old) ≡ true }
        requires heap { IsWord (config_of self.old) (Heap address) }
        ensures order { order_of self.new ≡ Order.Hint address }
        ensures takes { takes_of (shown self.old) (Order.Hint address) ≡ true }
        ensures shown { shown self.new ≡ shown self.old }
        ensures heap { config_of self.new ≡ config_of self.old }
    {
        match self {
            Machine::Helper(helper) => helper.give_hint(address),
            Machine::Control(control) => control.give_hint(address),
            Machine::Mutator(_) => unreachable!(),
        }
    }

    /// The address that its next access makes grey, if it does so: one of the heap.
    pub fn greys(&self) -> Option<u64>
        ensures row { result ≡ greys_of (shown self.now) }
        ensures heap { IfSome result (λ address. IsWord (config_of self.now) (Heap address)) }
    {
        match self {
            Machine::Mutator(mutator) => mutator.greys(),
            Machine::Helper(helper) => helper.greys(),
            Machine::Control(control) => control.greys(),
        }
    }

    /// How many hints it has taken, up to `u64::MAX`.
    pub fn hints(&self) -> u64
        ensures { result ≡ hints_of (shown self.now) }
    {
        match self {
            Machine::Mutator(_) => 0,
            Machine::Helper(helper) => helper.hints(),
            Machine::Control(control) => control.hints(),
        }
    }

    /// The phase in which the control's last pause has left the heap, 0 to 3, and before the first one that of the opening; None of other
    /// machines. A pause has chosen it once its last word is loaded.
    pub fn phase(&self) -> Option<u64>
        ensures { result ≡ phase_in (shown self.now) }
    {
        match self {
            Machine::Control(control) => Some(control.phase()),
            Machine::Mutator(_) | Machine::Helper(_) => None,
        }
    }

    /// Whether it may be given a command, or the end: a mutator between two calls that has not ended.
    pub fn may_begin(&self) -> bool
        ensures { result ≡ may_begin (shown self.now) }
    {
        match self {
            Machine::Mutator(mutator) => mutator.takes_commands(),
            Machine::Helper(_) | Machine::Control(_) => false,
        }
    }

    /// Gives it its order for its turn, if it has one. A mutator between two calls begins the command, and ends where there
    /// is none.
    #[inline(always)]
    pub fn order_next(&mut self, next: Option<Command>) -> bool
        requires none { order_of self.old ≡ Order.Nothing }
        requires next { may_begin (shown self.old) ≡ true → IfSome next (λ command. IsValid command × (made_of_machine (shown self.old) < most_objects)) }
        ensures turn { order_for next (shown self.old) ≡ (if result then Some (order_of self.new) else None) }
        ensures takes { takes_of (shown self.old) (order_of self.new) ≡ result }
        ensures idle { result ≡ false → order_of self.new ≡ Order.Nothing }
        ensures shown { shown self.new ≡ shown self.old }
        ensures heap { config_of self.new ≡ config_of self.old }
    {
        if !self.may_begin() {
            return !self.is_idle();
        }
        match next {
            Some(command) => self.begin(command),
            None => self.finish(),
        }
        true
    }

    /// Whether it would make a step on its turn, whatever command would follow.
    pub fn has_next(&self) -> bool
        requires { order_of self.now ≡ Order.Nothing }
        ensures { (next : Option Commands) → is_some (order_for next (shown self.now)) ≡ result }
    {
        self.may_begin() || !self.is_idle()
    }

    /// The reply of the last call that the mutator has ended, until the next one is ordered.
    pub fn reply(&self) -> Reply
        requires { reply_in (shown self.now) ≢ None }
        ensures { reply_in (shown self.now) ≡ Some result }
    {
        match self {
            Machine::Mutator(mutator) => mutator.reply(),
            Machine::Helper(_) | Machine::Control(_) => unreachable!(),
        }
    }

    /// The command of the call in progress. Of a mutator.
    pub fn command(&self) -> Command
        requires mutator { is_mutating (shown self.now) ≡ true }
        requires busy { is_resting (shown self.now) ≡ false }
        ensures { command_in (shown self.now) ≡ Some result }
    {
        match self {
            Machine::Mutator(mutator) => mutator.command(),
            Machine::Helper(_) | Machine::Control(_) => unreachable!(),
        }
    }

    /// The reply of its call in progress, if it is a mutator whose next access settles that, by the words of the heap's table as
    /// they are before it.
    pub fn settles(&self, words: &[u64]) -> Option<Reply>
        requires { length words.now ≡ table_words (config_of self.now) }
        ensures { result ≡ reply_settled (view (config_of self.now) words.now) (shown self.now) }
    {
        match self {
            Machine::Mutator(mutator) => mutator.settles(words),
            Machine::Helper(_) | Machine::Control(_) => None,
        }
    }

    /// The mutator, counted from 0, to which its next access says that the heap is full, if it is the control and does so, by the
    /// words of the heap's table as they are before it.
    pub fn refuses(&self, config: Config, words: &[u64]) -> Option<usize>
        requires heap { config_of self.now ≡ config }
        requires words { length words.now ≡ table_words config }
        ensures { result ≡ refused_by config words.now (shown self.now) }
    {
        match self {
            Machine::Control(control) if control.is_storing() => {
                refused(config, words, control.plan())
            }
            _ => None,
        }
    }

    /// Writes the graph that the words of the heap's table stand for. Of the control, while it is not storing a new image; what
    /// it has loaded in a pause so far are words of this table. As events see it, it stays as it is. No memory is taken.
    pub fn answer_graph(&mut self, words: &[u64], text: &mut GraphText)
        requires control { CanShow (config_of self.old) (image_from (config_of self.old) words.now) (shown self.old) }
        requires words { length words.now ≡ table_words (config_of self.old) }
        requires room { heap_size (config_of self.old) ≤ text.old.room }
        requires threads { length text.old.roots ≡ (config_of self.old).mutators }
        requires stand { StandsForSome (config_of self.old) words.now }
        ensures shown { shown self.new ≡ shown self.old }
        ensures order { order_of self.new ≡ order_of self.old }
        ensures heap { config_of self.new ≡ config_of self.old }
        ensures shows { ShowsTheGraph (config_of self.old) words.now text.new }
        ensures same_room { text.new.room ≡ text.old.room }
        ensures same_threads { length text.new.roots ≡ length text.old.roots }
    {
        match self {
            Machine::Control(control) => control.answer_graph(words, text),
            Machine::Mutator(_) | Machine::Helper(_) => unreachable!(),
        }
    }

    /// The image of the control, where a heap that has come to its end is read. Of its words nothing is told.
    pub fn into_image(self) -> Image
        requires control { is_some (control_in (shown self)) ≡ true }
        ensures heap { images.config_of result ≡ config_of self }
    {
        match self {
            Machine::Control(control) => control.into_image(),
            Machine::Mutator(_) | Machine::Helper(_) => unreachable!(),
        }
    }
}

// The order that a hint is, if there is one.
fn hinting(hint: Option<u64>) -> Order
    ensures { result ≡ hinting hint }
{
    match hint {
        Some(address) => Order::Hint(address),
        None => Order::Nothing,
    }
}

// The place of the access between two calls: a mutator begins the command, or ends where there is none.
fn first_place(next: Option<Command>) -> Place
    ensures { result ≡ first_place_of next }
{
    match next {
        Some(_) => Place::E1,
        None => Place::ML,
    }
}

// The control of a heap as it begins: the free word that it has seen is that of the opening.
fn open_control(alloc: Global, config: Config) -> Result<Control, NoMemory>
    ensures shown { IfOk result (λ control. controlling (seen_control control) ≡ fresh_control (first_free config.regions)) }
    ensures heap { IfOk result (λ control. config_in control ≡ config) }
    ensures hint { IfOk result (λ control. hint_of control ≡ None) }
{
    let mut image = Image::open(alloc, config)?;
    image.set_word(config.free_at(), first_free(config.regions()));
    Ok(Control::new(image))
}
