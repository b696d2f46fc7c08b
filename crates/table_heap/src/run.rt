ghost use Rattle.std.specs.Prelude.{ℕ, ◌≡◌, ◌≢◌, ◌↔◌, ◌<◌, true, false, Option, Some, None, IfSome, if◌then◌else◌, slice_set};
ghost use Rattle.heap_words.specs.Ranges.{seat_count};
ghost use Rattle.heap_machines.specs.Turn.{order_for};
ghost use Rattle.shen_graph.specs.Valid.{IsValid, most_objects};
ghost use Rattle.step_core.specs.Machines.{reply_in, may_begin, made_of_machine};
ghost use Rattle.table_heap.specs.State.{config_in, view_of, orders_of, IsBundleOf, HasMachine, machine_at, order_at, has_turn, IsSameBundle, IsUnmoved, IsUnchanged};
ghost use Rattle.table_heap.specs.Turning.{IsTurn, HasHadTurns};
ghost use Rattle.table_heap.specs.Running.{HasNoOrder, CanStart, AreAtWork, next_for, IsIdleForGood, AreIdleForGood, HaveDone, AreSameJobs};

use crate::bundle::Bundle;
use crate::gate::Gate;
use crate::heap::Heap;
use crossbeam_utils::Backoff;
use heap_machines::Stepped;
use shen_graph::{Command, Work};
use std::sync::Wait;

// So many rounds in a row in which a machine goes on show that there is work. Who only looks for some, a helper or the control, makes
// fewer steps from one look that finds none to the next.
const WORKING: u32 = 8;

// What the machines of a bundle did in a round.
#[derive(Clone, Copy)]
pub(crate) enum Round {
    // None made a step.
    Idle,
    // Some made a step, and each of these waits.
    Waiting,
    // One made a step and goes on.
    Moving,
}

impl Round {
    // The round with one turn more.
    pub(crate) fn and(self, said: Stepped) -> Round
        ensures idle { (result ≡ Round.Idle) ↔ ((self ≡ Round.Idle) × (said ≡ Stepped.Idle)) }
        ensures calm { (result ≢ Round.Moving) ↔ ((self ≢ Round.Moving) × (said ≢ Stepped.More) × (said ≢ Stepped.Done)) }
    {
        match said {
            Stepped::Idle => self,
            Stepped::Again => match self {
                Round::Idle | Round::Waiting => Round::Waiting,
                Round::Moving => Round::Moving,
            },
            Stepped::More | Stepped::Done => Round::Moving,
        }
    }
}

impl Bundle {
    // Backs off after a round that waits, and ends that once several rounds in a row went on. How many they are with this one. Who
    // has backed off for long, and waits for nothing but the end of a pause, parks.
    pub(crate) fn back_off<R: Wait>(
        &self,
        rt: &R,
        heap: &Heap,
        backoff: &Backoff,
        moving: u32,
        round: Round,
    ) -> u32
        requires { HasNoOrder self.now }
    {
        match round {
            Round::Idle | Round::Waiting => {
                if backoff.is_completed() && self.awaits_pause_end() {
                    heap.park(rt);
                } else {
                    backoff.snooze();
                }
                0
            }
            Round::Moving => {
                if moving >= WORKING {
                    backoff.reset();
                }
                moving.saturating_add(1)
            }
        }
    }

    // The next command of the machine's script, if it is a mutator.
    fn next_command(&self, work: &Work, number: usize) -> Option<Command>
        requires here { HasMachine self.now number }
        requires work { AreAtWork self.now work.now }
        ensures { result ≡ next_for (config_in self.now) work.now number }
    {
        if number < self.config.mutators() {
            work.next(number)
        } else {
            None
        }
    }

    // The command that the machine begins on its turn, if it begins one. In a call none is looked for.
    fn next_to_begin(&self, work: &Work, number: usize) -> Option<Command>
        requires here { HasMachine self.now number }
        requires work { AreAtWork self.now work.now }
        ensures turn { order_for result (machine_at self.now number) ≡ order_for (next_for (config_in self.now) work.now number) (machine_at self.now number) }
        ensures begins { may_begin (machine_at self.now number) ≡ true → result ≡ next_for (config_in self.now) work.now number }
    {
        if self.may_begin(number) {
            self.next_command(work, number)
        } else {
            None
        }
    }

    // Gives the machine its order for its turn, if it has one: a mutator between two calls begins the command that follows, and
    // ends where there is none.
    fn order_next(&mut self, next: Option<Command>, number: usize) -> bool
        requires here { HasMachine self.old number }
        requires orders { HasNoOrder self.old }
        requires fits { may_begin (machine_at self.old number) ≡ true → IfSome next (λ command. IsValid command × (made_of_machine (machine_at self.old number) < most_objects)) }
        ensures turn { order_for next (machine_at self.old number) ≡ (if result then Some (order_at self.new number) else None) }
        ensures has { has_turn self.new number ≡ result }
        ensures orders { orders_of self.new ≡ slice_set (orders_of self.old) number (Some (order_at self.new number)) }
        ensures unchanged { result ≡ false → IsUnchanged self.old self.new }
        ensures unmoved { IsUnmoved self.old self.new }
    {
        let Some(machine) = self.machines[number].as_mut() else {
            unreachable!()
        };
        machine.order_next(next)
    }

    // One turn of a machine, where this command follows: it goes on with its call, begins the command, or ends.
    pub(crate) fn go_on<G: Gate>(
        &mut self,
        heap: &Heap,
        next: Option<Command>,
        gate: &G,
        number: usize,
    ) -> Stepped
        requires heap { IsBundleOf self.old heap.now }
        requires here { HasMachine self.old number }
        requires orders { HasNoOrder self.old }
        requires fits { may_begin (machine_at self.old number) ≡ true → IfSome next (λ command. IsValid command × (made_of_machine (machine_at self.old number) < most_objects)) }
        ensures same { IsSameBundle self.old self.new }
        ensures turn { result ≢ Stepped.Idle → IsTurn self.old self.new next number result }
        ensures unchanged { result ≡ Stepped.Idle → IsUnchanged self.old self.new }
        ensures idle { result ≡ Stepped.Idle → order_for next (machine_at self.old number) ≡ None }
        ensures replied { result ≡ Stepped.Done → reply_in (machine_at self.new number) ≢ None }
    {
        if !self.order_next(next, number) {
            return Stepped::Idle;
        }
        self.take_hint(gate, number);
        gate.pass(number);
        let said = self.step(heap, number);
        gate.leave(number);
        self.share_greyed(number);
        said
    }

    // One turn of a machine by its script.
    fn turn<G: Gate>(&mut self, heap: &Heap, work: &mut Work, gate: &G, number: usize) -> Stepped
        requires heap { IsBundleOf self.old heap.now }
        requires here { HasMachine self.old number }
        requires work { AreAtWork self.old work.old }
        ensures work { AreAtWork self.new work.new }
        ensures same { IsSameBundle self.old self.new }
        ensures jobs { AreSameJobs (view_of self.old) work.old work.new }
        ensures unchanged { result ≡ Stepped.Idle → IsUnchanged self.old self.new }
        ensures idle { result ≡ Stepped.Idle → IsIdleForGood (machine_at self.old number) }
    {
        let next = self.next_to_begin(work, number);
        let stepped = self.go_on(heap, next, gate, number);
        if let Stepped::Done = stepped {
            work.told(number, self.reply(number));
        }
        stepped
    }

    // One turn of each machine of the bundle, in the order of their numbers.
    fn round<G: Gate>(&mut self, heap: &Heap, work: &mut Work, gate: &G) -> Round
        requires heap { IsBundleOf self.old heap.now }
        requires work { AreAtWork self.old work.old }
        ensures work { AreAtWork self.new work.new }
        ensures same { IsSameBundle self.old self.new }
        ensures jobs { AreSameJobs (view_of self.old) work.old work.new }
        ensures idle { result ≡ Round.Idle → AreIdleForGood self.new }
    {
        let mut round = Round::Idle;
        for number in 0..self.machines.len() {
            if self.has(number) {
                round = round.and(self.turn(heap, work, gate, number));
            }
        }
        round
    }

    // The turns of the control in which it loads words of the image, one after the other, if the bundle has it.
    fn load_words<G: Gate>(&mut self, heap: &Heap, gate: &G, number: usize)
        requires heap { IsBundleOf self.old heap.now }
        requires orders { HasNoOrder self.old }
        requires number { number < seat_count (config_in self.old).mutators (config_in self.old).helpers }
        ensures turns { (count : ℕ) × HasHadTurns count self.old self.new number }
    {
        let mut left = self.words_to_load(number);
        while left > 0 {
            gate.pass(number);
            self.load_word(heap, number);
            gate.leave(number);
            left -= 1;
        }
    }

    // Those in which it stores words of the new one.
    fn store_words<G: Gate>(&mut self, heap: &Heap, gate: &G, number: usize)
        requires heap { IsBundleOf self.old heap.now }
        requires orders { HasNoOrder self.old }
        requires number { number < seat_count (config_in self.old).mutators (config_in self.old).helpers }
        ensures turns { (count : ℕ) × HasHadTurns count self.old self.new number }
    {
        let mut left = self.words_to_store(number);
        while left > 0 {
            gate.pass(number);
            self.store_word(heap, number);
            gate.leave(number);
            left -= 1;
        }
    }

    // The turns of the control from word to word of its image, one after the other, if the bundle has it. Nobody else of the heap can go
    // on before the pause has ended.
    pub(crate) fn go_through_image<G: Gate>(&mut self, heap: &Heap, gate: &G)
        requires heap { IsBundleOf self.old heap.now }
        requires orders { HasNoOrder self.old }
        ensures same { IsSameBundle self.old self.new }
        ensures turns { (number : ℕ) × (count : ℕ) × HasHadTurns count self.old self.new number }
    {
        let control = self.config.seats() - 1;
        self.load_words(heap, gate, control);
        self.store_words(heap, gate, control);
    }

    /// Runs the scripts of the bundle's mutators, whose replies it notes in `work`, until all machines of the bundle are idle.
    /// In a round each machine that is not idle makes one step, in the order of their numbers, when it has passed the gate; the
    /// control then goes on from word to word of its image, by steps that pass the gate too. A mutator between two calls begins the next command of its script, and ends where there is none; the control ends when
    /// all mutators of the heap have, and a helper when the control has. After a round in which every step waits for another
    /// machine the thread backs off, each time for longer, until several rounds in a row went on. Once it has
    /// backed off eleven times it parks instead, for two milliseconds at most, wherever all its machines that are not idle wait for the end
    /// of a pause; the thread of the control wakes all who park, behind the round that ends the pause. Neither is an access of the heap's
    /// table. What a step makes grey is added to the bundle's hints, and a helper or the control that is about to claim a unit of
    /// marking takes the latest of these, or one of another bundle. Memory is taken for hints alone, and a hint for which there is none is dropped.
    pub fn run<R: Wait, G: Gate>(&mut self, rt: &R, heap: &Heap, work: &mut Work, gate: &G)
        requires heap { IsBundleOf self.old heap.now }
        requires start { CanStart self.old work.old }
        ensures same { IsSameBundle self.old self.new }
        ensures orders { HasNoOrder self.new }
        ensures idle { AreIdleForGood self.new }
        ensures done { HaveDone self.new work.old work.new }
        ensures jobs { AreSameJobs (view_of self.old) work.old work.new }
    {
        let backoff = Backoff::new();
        let mut moving = 0;
        for _ in rt.forever() {
            let ends = self.ends_pause();
            let said = self.round(heap, work, gate);
            if let Round::Idle = said {
                return;
            }
            if ends {
                heap.wake();
            }
            moving = self.back_off(rt, heap, &backoff, moving, said);
            self.go_through_image(heap, gate);
        }
    }
}
