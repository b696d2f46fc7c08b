ghost use Rattle.std.specs.Prelude.{ℕ, ◌≡◌, length, Some, slice_get, IfOk};
ghost use Rattle.heap_words.specs.Ranges.{seat_count};
ghost use Rattle.shen_graph.specs.Graph.{Graph};
ghost use Rattle.image_graph.specs.State as images;
ghost use Rattle.heap_machines.specs.FromImage.{CanBeginFrom, stage_from};
ghost use Rattle.shared_table.specs.Views.{whole, dealt_to};
ghost use Rattle.graph_placing.specs.Renewable.{IsRenewable};
ghost use Rattle.table_heap.specs.declared.bundle.Bundle.{Bundle as Bundles};
ghost use Rattle.table_heap.specs.Core.{heap_opening};
ghost use Rattle.table_heap.specs.State.{config_of, start_of_heap, IsFresh};
ghost use Rattle.heap_seats.specs.FreshSeats.{AreFreshSeats};
ghost use Rattle.heap_seats.specs.Histories.{BeginsRenewable};

use crate::seat::Seat;
use heap_words::{Config, NoMemory};
use image_graph::Image;
use std::alloc::Global;
use std::sync::Arc;
use table_heap::{Bundle, Heap};

/// A heap of this configuration before the first event, as its seats, by their numbers: the mutators, the helpers, the control.
/// The error is that memory was refused, and then nothing is left of it.
pub fn open_seats(alloc: Global, config: Config) -> Result<Vec<Seat>, NoMemory>
    ensures { IfOk result (λ seats. AreFreshSeats config (heap_opening config) seats.items) }
{
    let (heap, bundles) = Heap::open(alloc, config, config.seats())?;
    seated(alloc, config, heap, bundles)
}

/// The heap of an image's words before the first event, as its seats, in the same order. Each thread has made so many objects before as `counts`
/// says, in the order of the mutators. The words stand for a graph with these counts, whose objects can be named anew; nobody waits, no pause is
/// wanted, no machine is inside, and no mutator has ended. The error is that memory was refused, and then nothing is left of it.
pub fn open_seats_from(alloc: Global, image: Image, counts: Vec<u32>) -> Result<Vec<Seat>, NoMemory>
    requires counts { length counts.items ≡ (images.config_of image).mutators }
    requires begins { ∥ ((graph : Graph) × CanBeginFrom (images.config_of image) (images.memory_of image) counts.items graph × IsRenewable (images.config_of image).mutators graph) ∥₁ }
    ensures { IfOk result (λ seats. AreFreshSeats (images.config_of image) (stage_from (images.config_of image) (images.words_of image) counts.items) seats.items) }
{
    let config = image.config();
    let (heap, bundles) = Heap::open_from(alloc, image, counts, config.seats())?;
    seated(alloc, config, heap, bundles)
}

// The seats of a heap's machines, of which each bundle has one.
fn seated(
    alloc: Global,
    config: Config,
    heap: Heap,
    mut bundles: Vec<Bundle>,
) -> Result<Vec<Seat>, NoMemory>
    requires config { config_of heap ≡ config }
    requires count { length bundles.items ≡ seat_count config.mutators config.helpers }
    requires bundles { (bundle_number : ℕ) (bundle : Bundles) → slice_get bundles.items bundle_number ≡ Some bundle → IsFresh heap bundle (dealt_to (seat_count config.mutators config.helpers) bundle_number (whole (start_of_heap heap).machines)) }
    requires begins { ∥ BeginsRenewable config (start_of_heap heap) ∥₁ }
    ensures { IfOk result (λ seats. AreFreshSeats config (start_of_heap heap) seats.items) }
{
    let Ok(heap) = Arc::new(alloc, heap) else {
        return Err(NoMemory);
    };
    let Ok(mut seats) = Vec::with_capacity(alloc, config.seats()) else {
        return Err(NoMemory);
    };
    bundles.reverse();
    for number in 0..config.seats() {
        let Some(bundle) = bundles.pop() else {
            unreachable!()
        };
        let seat = Seat::open(&heap, config, bundle, number)?;
        let Ok(()) = seats.push(seat) else {
            return Err(NoMemory);
        };
    }
    Ok(seats)
}
