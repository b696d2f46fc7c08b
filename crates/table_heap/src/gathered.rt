ghost use Rattle.std.specs.Prelude.{◌≡◌, [], ◌<◌};

use crate::bundle::Bundle;
use crate::heap::Heap;
use crate::key::HeapKey;
use crate::machines::{Acting, OfHeaps};
use shared_table::{ViewSeat, gather_seat, read_run};
use shen_graph::Order;
use std::marker::Brand;

/// The right to the steps of machines of one heap, gathered of bundles of which nobody knows whether they are of that heap. What memory had
/// of them is let go, so that they make no step any more.
#[derive(Drop)]
pub struct Gathered {
    pub(crate) seat: ViewSeat<Acting>,
    ghost slots: { seat.me.1 ≡ [] },
}

impl Gathered {
    ghost use Rattle.shared_table.specs.Views.{merged};
    ghost use Rattle.table_heap.specs.State.{config_of, view_of as bundle_view, IsBundleOf};
    ghost use Rattle.table_heap.specs.Gathered.{view_of, IsGatheredOf, HasAllOf, StandInRun};
    ghost use Rattle.table_heap.specs.declared.heap.Heap.{Heap as Heaps};

    /// Those of one bundle.
    pub fn of(bundle: Bundle) -> Gathered
        ensures heap { (heap : Heaps) → IsBundleOf bundle heap → IsGatheredOf result heap }
        ensures view { view_of result ≡ bundle_view bundle }
    {
        let Bundle {
            config: _,
            key: _,
            seat,
            machines: _,
            greyed: _,
            hints: _,
            thieves: _,
        } = bundle;
        Gathered { seat }
    }

    /// Takes in those of a bundle, where it is one of this heap. Where it is not, they are let go.
    pub fn with(mut self, heap: &Heap, bundle: Bundle) -> Gathered
        requires { IsGatheredOf self heap.now }
        ensures heap { IsGatheredOf result heap.now }
        ensures view { IsBundleOf bundle heap.now → view_of result ≡ merged (view_of self) (bundle_view bundle) }
    {
        let other = Gathered::of(bundle);
        let Gathered { seat: other } = other;
        gather_seat::<Acting, Order, HeapKey, OfHeaps>(&heap.table.shared, &mut self.seat, other);
        self
    }

    /// Loads a word of the heap. Where all machines are gathered, they stand as one run of the heap left them.
    pub fn know(&mut self, heap: &Heap)
        requires { IsGatheredOf self.old heap.now }
        ensures heap { IsGatheredOf self.new heap.now }
        ensures view { view_of self.new ≡ view_of self.old }
        ensures run { HasAllOf (config_of heap.now) self.old → StandInRun heap.now self.old }
    {
        read_run::<Acting, Order, HeapKey, OfHeaps, Brand>(&heap.table.shared, &mut self.seat);
    }
}
