ghost use Rattle.std.specs.Prelude.{◌≡◌};
ghost use Rattle.std.specs.Arc.{arc_value};
ghost use Rattle.shen_graph.specs.Valid.{most_objects};
ghost use Rattle.table_heap.specs.State.{IsBundleOf, HasMachine, config_in, start_in};
ghost use Rattle.heap_seats.specs.Histories.{BeginsRenewable};
ghost use Rattle.heap_seats.specs.Known.{HaveRun, HasOnly};

use crate::progress::{Progress, Refused, State};
use heap_words::{Config, NoMemory, Place};
use shen_graph::Command;
use std::sync::Arc;
use table_heap::{Bundle, Heap, Stepped};

/// One machine of a heap, and its share of the heap. Whoever owns it makes its steps, in whatever thread.
#[derive(Drop)]
pub struct Seat {
    pub(crate) heap: Arc<Heap>,
    pub(crate) config: Config,
    pub(crate) bundle: Bundle,
    // The machine's number, counted from 0: mutators, then helpers, then the control.
    pub(crate) number: usize,
    ghost fits: { IsBundleOf bundle (arc_value heap) },
    ghost here: { HasMachine bundle number },
    ghost only: { HasOnly bundle number },
    ghost same_config: { config_in bundle ≡ config },
    ghost reached: { HaveRun bundle },
    ghost renewable: { ∥ BeginsRenewable config (start_in bundle) ∥₁ },
}

impl Seat {
    ghost use Rattle.std.specs.Prelude.{◌<◌, ◌≢◌, ◌↔◌, true, false, None, if◌then◌else◌, OnErr, OnOk, IfOk};
    ghost use Rattle.heap_words.specs.Ranges.{seat_count};
    ghost use Rattle.shared_table.specs.Views.{whole, dealt_to};
    ghost use Rattle.table_heap.specs.State.{IsFresh, config_of as heap_config, start_of_heap};
    ghost use Rattle.heap_seats.specs.FreshSeats.{IsFreshSeat};
    ghost use Rattle.std.specs.Result.{result_err};
    ghost use Rattle.shen_graph.specs.Valid.{is_valid};
    ghost use Rattle.shen_graph.specs.declared.order.Order.TheVariants as orders;
    ghost use Rattle.step_core.specs.Machines.{reply_in};
    ghost use Rattle.table_heap.specs.State.{has_turn};
    ghost use Rattle.heap_seats.specs.Seats.{config_of, number_of, machine_of_seat, objects_made_by, is_mutator, place_of_seat, phase_of_seat, state_in, IsSameSeat};
    ghost use Rattle.heap_seats.specs.Ordering.{refused_in, refused_command, HasOrder};
    ghost use Rattle.heap_seats.specs.Going.{IsAsItWas, HasStepped, progress_at, HasGoneOn};

    // The seat of a machine before the first event, with a share of its heap.
    pub(crate) fn open(
        heap: &Arc<Heap>,
        config: Config,
        bundle: Bundle,
        number: usize,
    ) -> Result<Seat, NoMemory>
        requires config { heap_config (arc_value heap.now) ≡ config }
        requires fresh { IsFresh (arc_value heap.now) bundle (dealt_to (seat_count config.mutators config.helpers) number (whole (start_of_heap (arc_value heap.now)).machines)) }
        requires inside { number < seat_count config.mutators config.helpers }
        requires begins { ∥ BeginsRenewable config (start_of_heap (arc_value heap.now)) ∥₁ }
        ensures { IfOk result (λ seat. IsFreshSeat config (arc_value heap.now) number seat) }
    {
        let Ok(heap) = Arc::try_clone(heap) else {
            return Err(NoMemory);
        };
        Ok(Seat {
            heap,
            config,
            bundle,
            number,
        })
    }

    // Its machine. The share of the heap is given up.
    pub(crate) fn into_bundle(self) -> Bundle
        ensures { result ≡ self.bundle }
    {
        let Seat {
            heap: _,
            config: _,
            bundle,
            number: _,
        } = self;
        bundle
    }

    /// The sizes of its heap.
    pub fn config(&self) -> Config
        ensures { result ≡ config_of self.now }
    {
        self.config
    }

    /// The machine's number, counted from 0.
    pub fn number(&self) -> usize
        ensures number { result ≡ number_of self.now }
        ensures inside { result < seat_count (config_of self.now).mutators (config_of self.now).helpers }
    {
        self.number
    }

    /// Whether the machine is a mutator.
    pub fn is_mutator(&self) -> bool
        ensures { result ≡ is_mutator self.now }
    {
        self.number < self.config.mutators()
    }

    /// How many objects it has made.
    pub fn made(&self) -> u32
        ensures { result ≡ objects_made_by self.now }
    {
        self.bundle.made(self.number)
    }

    /// The place of its next access, under the order that it was given; None where it has no step to make.
    pub fn place(&self) -> Option<Place>
        ensures { result ≡ place_of_seat self.now }
    {
        if self.bundle.is_idle(self.number) {
            None
        } else {
            Some(self.bundle.place(self.number))
        }
    }

    /// The phase in which the control's last pause has left the heap, 0 to 3, and before the first one 0; None where it is a mutator's or a
    /// helper's seat. A pause has chosen it once its last word is loaded.
    pub fn phase(&self) -> Option<u64>
        ensures { result ≡ phase_of_seat self.now }
    {
        self.bundle.phase(self.number)
    }

    /// Whether it may be given an order.
    pub fn state(&self) -> State
        ensures { result ≡ state_in self.now }
    {
        if !self.bundle.is_idle(self.number) {
            return State::AtWork;
        }
        if self.bundle.may_begin(self.number) {
            State::Free
        } else {
            State::Ended
        }
    }

    /// Orders a command, which the next step begins. Of a mutator between two calls. Otherwise nothing changes.
    pub fn begin(&mut self, command: Command) -> Result<(), Refused>
        ensures refused { result_err result ≡ refused_command (is_valid command) (objects_made_by self.old) (state_in self.old) }
        ensures unchanged { OnErr result (self.new ≡ self.old) }
        ensures ordered { OnOk result (HasOrder self.old self.new (orders.Begin command)) }
    {
        if let Some(refused) = self.refuses() {
            return Err(refused);
        }
        if !command.is_valid() {
            return Err(Refused::OutOfRange);
        }
        if self.made() == u32::MAX {
            return Err(Refused::Spent);
        }
        self.order_begin(command);
        Ok(())
    }

    // Orders the command.
    fn order_begin(&mut self, command: Command)
        requires free { state_in self.old ≡ State.Free }
        requires valid { is_valid command ≡ true }
        requires made { objects_made_by self.old < most_objects }
        ensures { HasOrder self.old self.new (orders.Begin command) }
    {
        self.bundle.begin(self.number, command);
    }

    /// Orders the end of a mutator between two calls: the next step is its last one. Otherwise nothing changes.
    pub fn finish(&mut self) -> Result<(), Refused>
        ensures refused { result_err result ≡ refused_in (state_in self.old) }
        ensures unchanged { OnErr result (self.new ≡ self.old) }
        ensures ordered { OnOk result (HasOrder self.old self.new orders.End) }
    {
        if let Some(refused) = self.refuses() {
            return Err(refused);
        }
        self.order_end();
        Ok(())
    }

    // Orders the end.
    fn order_end(&mut self)
        requires free { state_in self.old ≡ State.Free }
        ensures { HasOrder self.old self.new orders.End }
    {
        self.bundle.finish(self.number);
    }

    /// Why it takes no order now.
    pub fn refuses(&self) -> Option<Refused>
        ensures { result ≡ refused_in (state_in self.now) }
    {
        match self.state() {
            State::Free => None,
            State::AtWork => Some(Refused::Busy),
            State::Ended => Some(Refused::Ended),
        }
    }

    /// Makes so many steps at most, until one ends the call, one waits, or there is nothing to do. Each is one access of the
    /// heap's table, and one event. It waits for nothing, and takes no memory.
    pub fn go(&mut self, steps: u32) -> Progress
        ensures { HasGoneOn self.old self.new steps result }
    {
        for _made in 0..steps {
            match self.step() {
                Stepped::More => {}
                Stepped::Again => return Progress::Again,
                Stepped::Done => return Progress::Replied(self.bundle.reply(self.number)),
                Stepped::Idle => return self.rest(),
            }
        }
        self.rest()
    }

    // One step.
    fn step(&mut self) -> Stepped
        ensures same { IsSameSeat self.old self.new }
        ensures idle { (result ≡ Stepped.Idle) ↔ (has_turn self.old.bundle self.old.number ≡ false) }
        ensures still { result ≡ Stepped.Idle → IsAsItWas self.old self.new }
        ensures stepped { result ≢ Stepped.Idle → HasStepped self.old self.new result }
        ensures replied { result ≡ Stepped.Done → reply_in (machine_of_seat self.new) ≢ None }
    {
        self.bundle.step(&self.heap, self.number)
    }

    // What is left to do.
    fn rest(&self) -> Progress
        ensures { result ≡ progress_at (state_in self.now) }
    {
        match self.state() {
            State::Free => Progress::Idle,
            State::AtWork => Progress::More,
            State::Ended => Progress::Ended,
        }
    }
}
