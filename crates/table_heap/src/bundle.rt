ghost use Rattle.std.specs.Prelude.{◌≡◌, [], length};
ghost use Rattle.shen_graph.specs.Valid.{most_objects};
ghost use Rattle.heap_words.specs.Ranges.{seat_count};
ghost use Rattle.heap_machines.specs.Shown.{shown};
ghost use Rattle.shared_table.specs.Views.{kept_in_view};
ghost use Rattle.shared_table.specs.Counted.{uncounted_view};
ghost use Rattle.table_heap.specs.Core.{machine_in};
ghost use Rattle.table_heap.specs.Seen.{config_of};
ghost use Rattle.table_heap.specs.Known.{AreOfHeap, AreGreyedBy, AreThievesOf};

use crate::heap::Heap;
use crate::key::HeapKey;
use crate::machines::{Acting, OfHeaps};
use crate::{Hints, Thief};
use heap_machines::{Machine, Stepped};
use heap_words::{Access, Config, NoMemory, Place};
use shared_table::{ViewSeat, deal_bundle, deal_machines, join_bundle, join_machines, make_step};
use shen_graph::{Command, Order, Reply};
use std::alloc::Global;
use std::marker::Brand;
use std::snapshot::Snapshot;

/// Machines of a heap that one thread steps, each under its number. There is a place for each number, also for those of other
/// bundles.
#[derive(Drop)]
pub struct Bundle {
    pub(crate) config: Config,
    // By what its heap is known.
    pub(crate) key: Snapshot<HeapKey>,
    pub(crate) seat: ViewSeat<Acting>,
    pub(crate) machines: Vec<Option<Machine>>,
    // The address that each machine made grey with its last step, under its number, where it did so.
    pub(crate) greyed: Vec<Option<u64>>,
    // The hints of this bundle's own, and who steals from the other bundles.
    pub(crate) hints: Hints,
    pub(crate) thieves: Vec<Thief>,
    ghost same_sizes: { key.value.config ≡ config },
    ghost seats: { length machines.items ≡ seat_count config.mutators config.helpers },
    ghost kept: { kept_in_view machine_in (uncounted_view seat.me.0) ≡ kept_in_view shown machines.items },
    ghost slots: { seat.me.1 ≡ [] },
    ghost of_heap: { AreOfHeap config machines.items },
    ghost greys: { AreGreyedBy config machines.items greyed.items },
    ghost hints_of_heap: { config_of hints ≡ config },
    ghost thieves_of_heap: { AreThievesOf config thieves.items },
}

impl Bundle {
    ghost use Rattle.std.specs.Prelude.{◌+◌, ◌<◌, ◌↔◌, ◌≢◌, true, false, not, Some, None, IfOk, IfSome, slice_set};
    ghost use Rattle.std.specs.Option.{is_some};
    ghost use Rattle.heap_words.specs.declared.place.Place.TheVariants as places;
    ghost use Rattle.heap_words.specs.Words as words;
    ghost use Rattle.shared_table.specs.Views.{machine_of, merged, dealt_to, machines_left, is_dealt_to};
    ghost use Rattle.shen_graph.specs.Valid.{IsValid};
    ghost use Rattle.heap_machines.specs.Roles.{is_mutating, phase_in};
    ghost use Rattle.heap_machines.specs.Inside.{loads_left, stores_left};
    ghost use Rattle.step_core.specs.Machines.{takes_of, takes_hint, reply_in, place_in, may_begin, made_of_machine};
    ghost use Rattle.table_heap.specs.State.{config_in, view_of, machines_of, orders_of, steps_of, greyed_of, deques_of, IsBundleOf, HasMachine, machine_at, order_at, has_turn, IsSameBundle, IsUnmoved, IsUnchanged, IsBundleStep};

    /// Gives the machines of one bundle, of so many, to a bundle of their own: those whose numbers have the remainder `bundle`.
    /// The error is that memory was refused.
    pub(crate) fn deal(
        &mut self,
        alloc: Global,
        heap: &Heap,
        bundles: usize,
        bundle: usize,
    ) -> Result<Bundle, NoMemory>
        requires heap { IsBundleOf self.old heap.now }
        requires some { 0 < bundles }
        ensures dealt { IfOk result (λ dealt. IsBundleOf dealt heap.now × (view_of dealt ≡ dealt_to bundles bundle (view_of self.old)) × (orders_of dealt ≡ dealt_to bundles bundle (orders_of self.old)) × (steps_of dealt ≡ dealt_to bundles bundle (steps_of self.old)) × (greyed_of dealt ≡ dealt_to bundles bundle (greyed_of self.old))) }
        ensures heap { IsBundleOf self.new heap.now }
        ensures left { IfOk result (λ _. (view_of self.new ≡ machines_left (is_dealt_to bundles bundle) (view_of self.old)) × (orders_of self.new ≡ machines_left (is_dealt_to bundles bundle) (orders_of self.old)) × (steps_of self.new ≡ machines_left (is_dealt_to bundles bundle) (steps_of self.old)) × (greyed_of self.new ≡ machines_left (is_dealt_to bundles bundle) (greyed_of self.old))) }
    {
        let hints = Hints::open(alloc, self.config)?;
        let Ok(greyed) = deal_machines(alloc, &mut self.greyed, bundles, bundle) else {
            return Err(NoMemory);
        };
        let Ok(machines) = deal_machines(alloc, &mut self.machines, bundles, bundle) else {
            return Err(NoMemory);
        };
        let seat = deal_bundle::<Acting, Order, HeapKey, OfHeaps, Brand>(
            &heap.table.shared,
            &mut self.seat,
            bundles,
            bundle,
        );
        Ok(Bundle {
            config: self.config,
            key: Snapshot::of(&heap.key),
            seat,
            machines,
            greyed,
            hints,
            thieves: Vec::new(alloc),
        })
    }

    /// Whether the bundle has the machine.
    pub fn has(&self, number: usize) -> bool
        ensures machine { result ≡ is_some (machine_of (machines_of self.now) number) }
        ensures view { result ≡ is_some (machine_of (view_of self.now) number) }
    {
        number < self.machines.len() && self.machines[number].is_some()
    }

    /// Whether the machine may be given a command, or the end: a mutator between two calls that has not ended.
    pub fn may_begin(&self, number: usize) -> bool
        requires here { HasMachine self.now number }
        ensures { result ≡ may_begin (machine_at self.now number) }
    {
        let Some(machine) = &self.machines[number] else {
            unreachable!()
        };
        machine.may_begin()
    }

    /// How many objects the machine's thread has made. A helper or the control makes none.
    pub fn made(&self, number: usize) -> u32
        requires here { HasMachine self.now number }
        ensures { result ≡ made_of_machine (machine_at self.now number) }
    {
        let Some(machine) = &self.machines[number] else {
            unreachable!()
        };
        machine.made()
    }

    /// Whether the machine makes no step under its order.
    pub fn is_idle(&self, number: usize) -> bool
        requires here { HasMachine self.now number }
        ensures { has_turn self.now number ≡ not result }
    {
        let Some(machine) = &self.machines[number] else {
            unreachable!()
        };
        machine.is_idle()
    }

    /// The place of the machine's next access. Of a machine that has a step to make under its order.
    pub fn place(&self, number: usize) -> Place
        requires here { HasMachine self.now number }
        requires turn { has_turn self.now number ≡ true }
        ensures { result ≡ place_in (order_at self.now number) (machine_at self.now number) }
    {
        let Some(machine) = &self.machines[number] else {
            unreachable!()
        };
        machine.place()
    }

    /// The phase in which the control's last pause has left the heap, 0 to 3, and before the first one that of the opening; None of other
    /// machines. A pause has chosen it once its last word is loaded.
    pub fn phase(&self, number: usize) -> Option<u64>
        requires here { HasMachine self.now number }
        ensures { result ≡ phase_in (machine_at self.now number) }
    {
        let Some(machine) = &self.machines[number] else {
            unreachable!()
        };
        machine.phase()
    }

    /// Whether the machine takes hints: a helper or the control that is about to claim a unit of marking.
    pub fn takes_hint(&self, number: usize) -> bool
        requires here { HasMachine self.now number }
        ensures { result ≡ takes_hint (machine_at self.now number) }
    {
        let Some(machine) = &self.machines[number] else {
            unreachable!()
        };
        machine.takes_hint()
    }

    /// Gives the machine the hint of an address of the heap, for its next step: that scans the word that has the address's mark, and
    /// claims no unit. The address may be grey, black or white, or that of no object. Of a machine that takes hints.
    pub fn hint(&mut self, number: usize, address: u64)
        requires here { HasMachine self.old number }
        requires takes { takes_hint (machine_at self.old number) ≡ true }
        requires heap { words.IsWord (config_in self.old) (words.Heap address) }
        ensures order { orders_of self.new ≡ slice_set (orders_of self.old) number (Some (Order.Hint address)) }
        ensures takes { takes_of (machine_at self.old number) (Order.Hint address) ≡ true }
        ensures unmoved { IsUnmoved self.old self.new }
        ensures deques { deques_of self.new ≡ deques_of self.old }
    {
        let Some(machine) = self.machines[number].as_mut() else {
            unreachable!()
        };
        machine.give_hint(address);
    }

    /// The address, of the heap, that the machine's last step made grey, or None where that step did not do so, or there was none.
    pub fn greyed(&self, number: usize) -> Option<u64>
        requires here { HasMachine self.now number }
        ensures row { result ≡ machine_of (greyed_of self.now) number }
        ensures heap { IfSome result (λ address. words.IsWord (config_in self.now) (words.Heap address)) }
    {
        self.greyed[number]
    }

    /// Orders the command, which the mutator's next step begins. Between two calls only.
    pub fn begin(&mut self, number: usize, command: Command)
        requires here { HasMachine self.old number }
        requires rest { may_begin (machine_at self.old number) ≡ true }
        requires valid { IsValid command }
        requires made { made_of_machine (machine_at self.old number) < most_objects }
        ensures order { orders_of self.new ≡ slice_set (orders_of self.old) number (Some (Order.Begin command)) }
        ensures takes { takes_of (machine_at self.old number) (Order.Begin command) ≡ true }
        ensures unmoved { IsUnmoved self.old self.new }
    {
        let Some(machine) = self.machines[number].as_mut() else {
            unreachable!()
        };
        machine.begin(command);
    }

    /// Orders the end: the mutator's next step is its last one. Between two calls only, of a mutator that has not ended.
    pub fn finish(&mut self, number: usize)
        requires here { HasMachine self.old number }
        requires rest { may_begin (machine_at self.old number) ≡ true }
        ensures order { orders_of self.new ≡ slice_set (orders_of self.old) number (Some Order.End) }
        ensures takes { takes_of (machine_at self.old number) Order.End ≡ true }
        ensures unmoved { IsUnmoved self.old self.new }
    {
        let Some(machine) = self.machines[number].as_mut() else {
            unreachable!()
        };
        machine.finish();
    }

    /// Gives a machine of the bundle one step, which is one access of the heap's table, and exactly one event. It waits for
    /// nothing, touches no hints, and takes no memory.
    pub fn step(&mut self, heap: &Heap, number: usize) -> Stepped
        requires heap { IsBundleOf self.old heap.now }
        requires here { HasMachine self.old number }
        ensures idle { (result ≡ Stepped.Idle) ↔ (has_turn self.old number ≡ false) }
        ensures unchanged { has_turn self.old number ≡ false → IsUnchanged self.old self.new }
        ensures event { has_turn self.old number ≡ true → IsBundleStep self.old self.new number result }
        ensures same { IsSameBundle self.old self.new }
        ensures deques { deques_of self.new ≡ deques_of self.old }

        // A call ends exactly where its mutator leaves the heap, and its reply is at hand then.
        ensures done { (result ≡ Stepped.Done) ↔ ((has_turn self.old number ≡ true) × (is_mutating (machine_at self.old number) ≡ true) × (place_in (order_at self.old number) (machine_at self.old number) ≡ places.LV)) }
        ensures replied { result ≡ Stepped.Done → reply_in (machine_at self.new number) ≢ None }
    {
        let Some(machine) = self.machines[number].as_mut() else {
            unreachable!()
        };
        if machine.is_idle() {
            return Stepped::Idle;
        }
        let got = make_step::<Acting, Order, HeapKey, OfHeaps, Brand>(
            &heap.table.shared,
            &mut self.seat,
            number,
            &machine.order(),
            machine.plan(),
        );
        let greyed = machine.greys();
        let said = machine.took(got);
        self.greyed[number] = greyed;
        Stepped::of(said)
    }

    // How many words of the image the machine loads before the last one, one after the other, if it is the bundle's.
    pub(crate) fn words_to_load(&self, number: usize) -> usize
        requires { number < seat_count (config_in self.now).mutators (config_in self.now).helpers }
        ensures here { 0 < result → HasMachine self.now number }
        ensures left { 0 < result → result ≡ loads_left (config_in self.now) (machine_at self.now number) }
    {
        let Some(machine) = &self.machines[number] else {
            return 0;
        };
        machine.words_to_load()
    }

    // How many it stores.
    pub(crate) fn words_to_store(&self, number: usize) -> usize
        requires { number < seat_count (config_in self.now).mutators (config_in self.now).helpers }
        ensures here { 0 < result → HasMachine self.now number }
        ensures left { 0 < result → result ≡ stores_left (config_in self.now) (machine_at self.now number) }
    {
        let Some(machine) = &self.machines[number] else {
            return 0;
        };
        machine.words_to_store()
    }

    // The step of the control that loads a word of the image before the last one, by the shortest way: one access of the heap's table, and
    // exactly one event. Nothing of the machine is looked up but where it stands.
    #[inline(always)]
    pub(crate) fn load_word(&mut self, heap: &Heap, number: usize)
        requires heap { IsBundleOf self.old heap.now }
        requires here { HasMachine self.old number }
        requires left { 0 < loads_left (config_in self.old) (machine_at self.old number) }
        ensures event { IsBundleStep self.old self.new number Stepped.More }
        ensures same { IsSameBundle self.old self.new }
        ensures here { HasMachine self.new number }
        ensures left { loads_left (config_in self.new) (machine_at self.new number) + 1 ≡ loads_left (config_in self.old) (machine_at self.old number) }
    {
        let Some(machine) = self.machines[number].as_mut() else {
            unreachable!()
        };
        let at = machine.next_to_load();
        let got = make_step::<Acting, Order, HeapKey, OfHeaps, Brand>(
            &heap.table.shared,
            &mut self.seat,
            number,
            &Order::Nothing,
            Access::Load { at },
        );
        machine.loaded(got);
        self.greyed[number] = None;
    }

    // The same where it stores one.
    #[inline(always)]
    pub(crate) fn store_word(&mut self, heap: &Heap, number: usize)
        requires heap { IsBundleOf self.old heap.now }
        requires here { HasMachine self.old number }
        requires left { 0 < stores_left (config_in self.old) (machine_at self.old number) }
        ensures event { IsBundleStep self.old self.new number Stepped.More }
        ensures same { IsSameBundle self.old self.new }
        ensures here { HasMachine self.new number }
        ensures left { stores_left (config_in self.new) (machine_at self.new number) + 1 ≡ stores_left (config_in self.old) (machine_at self.old number) }
    {
        let Some(machine) = self.machines[number].as_mut() else {
            unreachable!()
        };
        let (at, value) = machine.next_to_store();
        let _ = make_step::<Acting, Order, HeapKey, OfHeaps, Brand>(
            &heap.table.shared,
            &mut self.seat,
            number,
            &Order::Nothing,
            Access::Store { at, value },
        );
        machine.stored();
        self.greyed[number] = None;
    }

    /// The reply of the last call that the mutator has ended, until the next one is ordered.
    pub fn reply(&self, number: usize) -> Reply
        requires here { HasMachine self.now number }
        requires ended { reply_in (machine_at self.now number) ≢ None }
        ensures { reply_in (machine_at self.now number) ≡ Some result }
    {
        let Some(machine) = &self.machines[number] else {
            unreachable!()
        };
        machine.reply()
    }

    /// The machines of both bundles. None makes a step. The hints are those of the first bundle, which steals from whom it stole; those of the other are dropped.
    pub fn join(mut self, heap: &Heap, other: Bundle) -> Bundle
        requires this { IsBundleOf self heap.now }
        requires other { IsBundleOf other heap.now }
        ensures heap { IsBundleOf result heap.now }
        ensures view { view_of result ≡ merged (view_of self) (view_of other) }
        ensures orders { orders_of result ≡ merged (orders_of self) (orders_of other) }
        ensures steps { steps_of result ≡ merged (steps_of self) (steps_of other) }
        ensures greyed { greyed_of result ≡ merged (greyed_of self) (greyed_of other) }
        ensures deques { deques_of result ≡ deques_of self }
    {
        let Bundle {
            config: _,
            key: _,
            seat,
            machines,
            greyed,
            hints: _,
            thieves: _,
        } = other;
        join_machines(&mut self.machines, machines);
        join_machines(&mut self.greyed, greyed);
        join_bundle::<Acting, Order, HeapKey, OfHeaps>(&heap.table.shared, &mut self.seat, seat);
        self
    }
}
