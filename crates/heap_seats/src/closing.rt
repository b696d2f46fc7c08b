ghost use Rattle.std.specs.Arc.{arc_value};
ghost use Rattle.table_heap.specs.State.{IsBundleOf};

use crate::seat::Seat;
use std::sync::Arc;
use table_heap::{Bundle, Closed, Heap};

/// Seats of one heap that are given up together. They make no step any more.
#[derive(Drop)]
pub struct Closing {
    pub(crate) heap: Arc<Heap>,
    // Their machines.
    pub(crate) together: Bundle,
    ghost fits: { IsBundleOf together (arc_value heap) },
}

impl Closing {
    ghost use Rattle.std.specs.Prelude.{◌≡◌, List, [], ◌∷◌, ◌++◌, IfSome};
    ghost use Rattle.table_heap.specs.Closed as ends;
    ghost use Rattle.heap_seats.specs.declared.seat.Seat.{Seat as Seats};
    ghost use Rattle.heap_seats.specs.Seats.{number_of, heap_shared};
    ghost use Rattle.heap_seats.specs.GivenUp.{heap_closing, sizes_closing, start_closing, AreGivenUp, HaveNot, AreAllSeats, AreOver, MayEndHeap, HaveOneHistory, AreMachinesLeft};

    /// The first seat of a heap that is given up.
    pub fn of(seat: Seat) -> Closing
        ensures given { AreGivenUp (seat ∷ []) result }
        ensures heap { heap_closing result ≡ heap_shared seat }
    {
        let Seat {
            heap,
            config: _,
            bundle,
            number: _,
        } = seat;
        Closing {
            heap,
            together: bundle,
        }
    }

    /// One seat more, of the same heap. Its share of the heap is given up.
    pub fn with(self, seat: Seat) -> Closing
        requires heap { heap_shared seat ≡ heap_closing self }
        ensures given { (before : List Seats) → AreGivenUp before self → HaveNot before (number_of seat) → AreGivenUp (before ++ seat ∷ []) result }
        ensures heap { heap_closing result ≡ heap_closing self }
    {
        let Closing { heap, together } = self;
        let together = together.join(&heap, seat.into_bundle());
        Closing { heap, together }
    }

    /// Ends the heap, all of whose seats are given up; its mutators and its control have ended. What is left tells the graph. `None` where
    /// a share of the heap is elsewhere; nothing in this crate keeps one. No memory is taken.
    pub fn end(self) -> Option<Closed>
        requires whole { MayEndHeap self }
        ensures config { IfSome result (λ left. ends.config_of left ≡ sizes_closing self) }
        ensures history { (seats : List Seats) → AreGivenUp seats self → AreAllSeats (sizes_closing self) (heap_closing self) seats → AreOver (sizes_closing self) seats → IfSome result (λ left. HaveOneHistory (sizes_closing self) (start_closing self) seats left) }
        ensures machines { (seats : List Seats) → AreGivenUp seats self → AreAllSeats (sizes_closing self) (heap_closing self) seats → IfSome result (λ left. AreMachinesLeft seats left) }
        ensures rest { IfSome result (λ left. ends.AllRest left) }
    {
        let Closing { heap, together } = self;
        match Arc::into_inner(heap) {
            Some(heap) => Some(heap.close(together)),
            None => None,
        }
    }
}
