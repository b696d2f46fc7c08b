ghost use Rattle.std.specs.Prelude.{◌≡◌, ◌+◌, ◌<◌, ◌≤◌, List, length, Some, IfSome, slice_get, if◌then◌else◌, nat_lt};
ghost use Rattle.shen_graph.specs.Valid.{IsValid};
ghost use Rattle.table_heap.specs.State.{config_in, IsBundleOf, HasMachine, machine_at, IsSameBundle, IsUnchanged};
ghost use Rattle.table_heap.specs.Running.{HasNoOrder, IsIdleForGood, AreIdleForGood};
ghost use Rattle.table_heap.specs.Driving.{mutators_below, next_driven, CanDrive, AreDriving, HaveDriven, HasTaken};

use crate::bundle::Bundle;
use crate::gate::Gate;
use crate::heap::Heap;
use crate::run::Round;
use crossbeam_utils::Backoff;
use heap_machines::Stepped;
use shen_graph::{Command, Driver, Reply};
use std::sync::Wait;

// Hands a reply to the driver at the place.
fn hand_reply<D: Driver>(drivers: &mut [D], place: usize, reply: &Reply)
    requires { place < length drivers.old }
    ensures { (driver : D) → slice_get drivers.old place ≡ Some driver → HasTaken D.next_of D.replied D.to_come driver reply.now drivers.old place drivers.new }
{
    drivers[place].took(reply);
}

impl Bundle {
    // What the driver at the place gives next, if the machine is a mutator.
    fn next_of_driver<D: Driver>(
        &self,
        drivers: &[D],
        number: usize,
        place: usize,
    ) -> Option<Command>
        requires here { HasMachine self.now number }
        requires place { place ≡ mutators_below self.now number }
        requires driving { (firsts : List D) × AreDriving D.next_of D.replied D.to_come self.now firsts drivers.now }
        ensures next { result ≡ next_driven D.next_of self.now drivers.now number }
        ensures valid { IfSome result (λ command. IsValid command) }
    {
        if number < self.config.mutators() {
            drivers[place].next()
        } else {
            None
        }
    }

    // One turn of a machine, of a mutator by the driver at the place.
    fn drive_turn<D: Driver, G: Gate>(
        &mut self,
        heap: &Heap,
        drivers: &mut [D],
        gate: &G,
        number: usize,
        place: usize,
    ) -> Stepped
        requires heap { IsBundleOf self.old heap.now }
        requires here { HasMachine self.old number }
        requires place { place ≡ mutators_below self.old number }
        requires driving { (firsts : List D) × AreDriving D.next_of D.replied D.to_come self.old firsts drivers.old }
        ensures driving { (firsts : List D) → AreDriving D.next_of D.replied D.to_come self.old firsts drivers.old → AreDriving D.next_of D.replied D.to_come self.new firsts drivers.new }
        ensures same { IsSameBundle self.old self.new }
        ensures unchanged { result ≡ Stepped.Idle → IsUnchanged self.old self.new }
        ensures idle { result ≡ Stepped.Idle → IsIdleForGood (machine_at self.old number) }
    {
        let next = self.next_of_driver(drivers, number, place);
        let stepped = self.go_on(heap, next, gate, number);
        if let Stepped::Done = stepped {
            hand_reply(drivers, place, &self.reply(number));
        }
        stepped
    }

    // The place of the next driver behind a machine: one further behind a mutator.
    fn place_behind(&self, number: usize, place: usize) -> usize
        requires { place ≤ number }
        ensures { result ≡ (if nat_lt number (config_in self.now).mutators then place + 1 else place) }
    {
        if number < self.config.mutators() {
            place + 1
        } else {
            place
        }
    }

    // One turn of each machine of the bundle, in the order of their numbers.
    fn drive_round<D: Driver, G: Gate>(&mut self, heap: &Heap, drivers: &mut [D], gate: &G) -> Round
        requires heap { IsBundleOf self.old heap.now }
        requires driving { (firsts : List D) × AreDriving D.next_of D.replied D.to_come self.old firsts drivers.old }
        ensures driving { (firsts : List D) → AreDriving D.next_of D.replied D.to_come self.old firsts drivers.old → AreDriving D.next_of D.replied D.to_come self.new firsts drivers.new }
        ensures same { IsSameBundle self.old self.new }
        ensures idle { result ≡ Round.Idle → AreIdleForGood self.new }
    {
        let mut round = Round::Idle;
        let mut place = 0;
        for number in 0..self.machines.len() {
            if self.has(number) {
                round = round.and(self.drive_turn(heap, drivers, gate, number, place));
                place = self.place_behind(number, place);
            }
        }
        round
    }

    /// Runs the bundle's mutators by drivers, one for each in the order of their numbers, until all machines of the bundle are
    /// idle. It is as `run`, also in how the thread backs off and parks, where each mutator between two calls begins what its driver
    /// gives next, ends where that is `None`, and hands each reply to its driver.
    pub fn drive<R: Wait, D: Driver, G: Gate>(
        &mut self,
        rt: &R,
        heap: &Heap,
        drivers: &mut [D],
        gate: &G,
    )
        requires heap { IsBundleOf self.old heap.now }
        requires start { CanDrive D.to_come self.old drivers.old }
        ensures same { IsSameBundle self.old self.new }
        ensures orders { HasNoOrder self.new }
        ensures idle { AreIdleForGood self.new }
        ensures count { length drivers.new ≡ length drivers.old }
        ensures driven { HaveDriven D.next_of D.replied self.new drivers.old drivers.new }
    {
        let backoff = Backoff::new();
        let mut moving = 0;
        for _ in rt.forever() {
            let ends = self.ends_pause();
            let said = self.drive_round(heap, drivers, gate);
            if let Round::Idle = said {
                return;
            }
            if ends {
                heap.wake();
            }
            moving = self.back_off(rt, heap, &backoff, moving, said);
            self.go_through_image(heap, gate);
        }
    }
}
