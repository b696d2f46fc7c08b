ghost use Rattle.std.specs.Arc.{arc_value};
ghost use Rattle.table_heap.specs.Gathered.{IsGatheredOf};

use crate::seat::Seat;
use std::sync::Arc;
use table_heap::{Gathered, Heap};

/// Seats that are given up together, of which nobody knows whether they are of one heap. They make no step any more.
#[derive(Drop)]
pub struct Gathering {
    begun: Option<Begun>,
}

// The same, where there is one.
#[derive(Drop)]
struct Begun {
    // The heap of the first.
    heap: Arc<Heap>,
    // What is left of their machines.
    machines: Gathered,
    ghost fits: { IsGatheredOf machines (arc_value heap) },
}

impl Begun {
    ghost use Rattle.std.specs.Prelude.{◌≡◌, List, [], ◌∷◌, ◌++◌};
    ghost use Rattle.heap_seats.specs.declared.seat.Seat.{Seat as Seats};
    ghost use Rattle.heap_seats.specs.Seats.{number_of, heap_shared};
    ghost use Rattle.heap_seats.specs.GivenUp.{HaveNot, AreAllSeats, AreOver};
    ghost use Rattle.heap_seats.specs.Gathered.{heap_begun, sizes_begun, AreTogether, HaveHistory};

    // The first seat.
    fn of(seat: Seat) -> Begun
        ensures heap { heap_begun result ≡ heap_shared seat }
        ensures given { AreTogether (seat ∷ []) result }
    {
        let Seat {
            heap,
            config: _,
            bundle,
            number: _,
        } = seat;
        Begun {
            heap,
            machines: Gathered::of(bundle),
        }
    }

    // One seat more. Its share of its heap is given up.
    fn with(self, seat: Seat) -> Begun
        ensures heap { heap_begun result ≡ heap_begun self }
        ensures given { (before : List Seats) → AreTogether before self → heap_shared seat ≡ heap_begun self → HaveNot before (number_of seat) → AreTogether (before ++ seat ∷ []) result }
    {
        let Begun { heap, machines } = self;
        let machines = machines.with(&heap, seat.into_bundle());
        Begun { heap, machines }
    }

    // Lets all go.
    fn end(self)
        ensures { (seats : List Seats) → AreTogether seats self → AreAllSeats (sizes_begun self) (heap_begun self) seats → AreOver (sizes_begun self) seats → HaveHistory seats }
    {
        let Begun { heap, mut machines } = self;
        machines.know(&heap);
    }
}

impl Gathering {
    ghost use Rattle.std.specs.Prelude.{List, [], ◌∷◌, ◌++◌};
    ghost use Rattle.heap_seats.specs.declared.seat.Seat.{Seat as Seats};
    ghost use Rattle.heap_seats.specs.Gathered.{AreGathered, MakeUpHeap, HaveHistory};

    /// None yet.
    pub fn empty() -> Gathering
        ensures { AreGathered [] result }
    {
        Gathering { begun: None }
    }

    /// One seat more. Its share of its heap is given up, where it is not the first.
    pub fn with(self, seat: Seat) -> Gathering
        ensures { (before : List Seats) → AreGathered before self → AreGathered (before ++ seat ∷ []) result }
    {
        let Gathering { begun } = self;
        let begun = match begun {
            None => Begun::of(seat),
            Some(begun) => begun.with(seat),
        };
        Gathering { begun: Some(begun) }
    }

    /// Lets all go. Where they were all seats of one heap, by their numbers, and its mutators and its control have ended, there is one history
    /// of all their calls. No memory is taken.
    pub fn end(self)
        ensures { (seats : List Seats) → AreGathered seats self → MakeUpHeap seats → HaveHistory seats }
    {
        let Gathering { begun } = self;
        if let Some(begun) = begun {
            begun.end();
        }
    }
}
