ghost use Rattle.std.specs.Prelude.{◌≡◌, [], length, replicate, map, All, IfOk, None};
ghost use Rattle.std.specs.List.{range_with_len};
ghost use Rattle.shared_table.specs.Views.{whole};
ghost use Rattle.heap_words.specs.Words.{table_words};
ghost use Rattle.heap_machines.specs.Shown.{shown, order_of, config_of as machine_config};
ghost use Rattle.shen_graph.specs.declared.order.Order.TheVariants.{Nothing};
ghost use Rattle.table_heap.specs.Core.{table_start, start_of_key};
ghost use Rattle.heap_words.specs.Ranges.{seat_count};

use crate::Hints;
use crate::bundle::Bundle;
use crate::key::HeapKey;
use crate::left::Left;
use crate::machines::{Acting, OfHeaps};
use crate::sharing::share_hints;
use heap_machines::{Machine, machines_from, open_machines, words_from};
use heap_words::{Config, NoMemory};
use image_graph::Image;
use shared_table::{StepsTable, ViewSeat, open_table};
use shen_graph::Order;
use std::alloc::Global;
use std::snapshot::Snapshot;
use step_core::open_words;

/// A heap that threads share, by a `&`. Its machines are in bundles, each of which is one thread's own. For each word of the heap
/// the shared table and the control's image together have 29.5 bytes, the grey and black bits of the word with them.
#[derive(Drop)]
pub struct Heap {
    pub(crate) config: Config,
    pub(crate) key: HeapKey,
    pub(crate) table: StepsTable<Acting, Order, HeapKey, OfHeaps>,
    ghost same_sizes: { key.config ≡ config },
    ghost table_key: { table.shared.key ≡ key },
    ghost all_words: { table.shared.table_id.words ≡ table_words config },
    ghost no_slots: { table.shared.table_id.slots ≡ 0 },
}

// The table of this key before the first event, and the seat that has all its machines. The words that the table begins
// with are let go.
fn opened_table(
    alloc: Global,
    key: &HeapKey,
    words: Vec<u64>,
) -> Result<
    (
        StepsTable<Acting, Order, HeapKey, OfHeaps>,
        ViewSeat<Acting>,
    ),
    NoMemory,
>
    requires words { words.items ≡ (start_of_key key.now).words }
    requires count { length words.items ≡ table_words key.now.config }
    ensures key { IfOk result (λ opened. opened.0.shared.key ≡ key.now) }
    ensures words { IfOk result (λ opened. opened.0.shared.table_id.words ≡ table_words key.now.config) }
    ensures slots { IfOk result (λ opened. opened.0.shared.table_id.slots ≡ 0) }
    ensures seat { IfOk result (λ opened. (opened.1.table_id ≡ opened.0.shared.table_id) × (opened.1.me ≡ (whole (table_start key.now).machines, []))) }
{
    match open_table(alloc, &words, key) {
        Ok(opened) => Ok(opened),
        Err(_) => Err(NoMemory),
    }
}

// Machines, each in its place.
fn placed(alloc: Global, mut machines: Vec<Machine>) -> Result<Vec<Option<Machine>>, NoMemory>
    ensures { IfOk result (λ places. places.items ≡ whole machines.items) }
{
    let Ok(mut places) = Vec::with_capacity(alloc, machines.len()) else {
        return Err(NoMemory);
    };
    machines.reverse();
    while let Some(machine) = machines.pop() {
        let Ok(()) = places.push(Some(machine)) else {
            return Err(NoMemory);
        };
    }
    Ok(places)
}

// No machine of a heap has made an address grey.
fn none_greyed(alloc: Global, config: Config) -> Result<Vec<Option<u64>>, NoMemory>
    ensures { IfOk result (λ greyed. greyed.items ≡ replicate (seat_count config.mutators config.helpers) None) }
{
    match Vec::from_elem(alloc, None, config.seats()) {
        Ok(greyed) => Ok(greyed),
        Err(_) => Err(NoMemory),
    }
}

impl Heap {
    ghost use Rattle.std.specs.Prelude.{ℕ, ◌≤◌, Some, slice_get};
    ghost use Rattle.shen_graph.specs.Graph.{Graph};
    ghost use Rattle.image_graph.specs.State as images;
    ghost use Rattle.heap_machines.specs.FromImage.{CanBeginFrom, stage_from};
    ghost use Rattle.step_core.specs.Begins.{Begins};
    ghost use Rattle.table_heap.specs.Sharing.{StealFromEachOther};
    ghost use Rattle.table_heap.specs.Known.{AreMachinesOfStage};
    ghost use Rattle.table_heap.specs.declared.bundle.Bundle.{Bundle as Bundles};
    ghost use Rattle.shared_table.specs.Views.{dealt_to};
    ghost use Rattle.table_heap.specs.Core.{heap_opening};
    ghost use Rattle.table_heap.specs.State.{config_of, start_of_heap, view_of, IsBundleOf, IsFresh};

    // The heap of this key before the first event, with all its machines in one bundle.
    fn open_whole(
        alloc: Global,
        key: HeapKey,
        words: Vec<u64>,
        machines: Vec<Machine>,
    ) -> Result<(Heap, Bundle), NoMemory>
        requires words { words.items ≡ (start_of_key key).words }
        requires count { length words.items ≡ table_words key.config }
        requires machines { AreMachinesOfStage key.config machines.items (start_of_key key) }
        ensures config { IfOk result (λ opened. config_of opened.0 ≡ key.config) }
        ensures key { IfOk result (λ opened. start_of_heap opened.0 ≡ start_of_key key) }
        ensures bundle { IfOk result (λ opened. IsFresh opened.0 opened.1 (whole (start_of_heap opened.0).machines)) }
    {
        let config = key.config;
        let (table, seat) = opened_table(alloc, &key, words)?;
        let machines = placed(alloc, machines)?;
        let greyed = none_greyed(alloc, config)?;
        let hints = Hints::open(alloc, config)?;
        let bundle = Bundle {
            config,
            key: Snapshot::of(&key),
            seat,
            machines,
            greyed,
            hints,
            thieves: Vec::new(alloc),
        };
        let heap = Heap { config, key, table };
        Ok((heap, bundle))
    }

    // The machines of a heap in so many bundles.
    fn dealt(
        alloc: Global,
        heap: Heap,
        mut all: Bundle,
        workers: usize,
    ) -> Result<(Heap, Vec<Bundle>), NoMemory>
        requires workers { 1 ≤ workers }
        requires fresh { IsFresh heap all (whole (start_of_heap heap).machines) }
        ensures config { IfOk result (λ dealt. config_of dealt.0 ≡ config_of heap) }
        ensures start { IfOk result (λ dealt. start_of_heap dealt.0 ≡ start_of_heap heap) }
        ensures count { IfOk result (λ dealt. length dealt.1.items ≡ workers) }
        ensures stealing { IfOk result (λ dealt. StealFromEachOther dealt.1.items) }
        ensures bundles { IfOk result (λ dealt. (bundle_number : ℕ) (bundle : Bundles) → slice_get dealt.1.items bundle_number ≡ Some bundle → IsFresh dealt.0 bundle (dealt_to workers bundle_number (whole (start_of_heap heap).machines))) }
    {
        let Ok(mut bundles) = Vec::with_capacity(alloc, workers) else {
            return Err(NoMemory);
        };
        for bundle in 0..workers {
            let dealt = all.deal(alloc, &heap, workers, bundle)?;
            let Ok(()) = bundles.push(dealt) else {
                return Err(NoMemory);
            };
        }
        for bundle in 0..workers {
            share_hints(&mut bundles, bundle)?;
        }
        Ok((heap, bundles))
    }

    /// The heap of this configuration before the first event, and its machines in so many bundles: machine i, counted from 0,
    /// is in that of the number i modulo `workers`. Each bundle has hints of its own, and steals those of each other one. The error is that memory was refused.
    pub fn open(
        alloc: Global,
        config: Config,
        workers: usize,
    ) -> Result<(Heap, Vec<Bundle>), NoMemory>
        requires { 1 ≤ workers }
        ensures config { IfOk result (λ opened. config_of opened.0 ≡ config) }
        ensures opening { IfOk result (λ opened. start_of_heap opened.0 ≡ heap_opening config) }
        ensures count { IfOk result (λ opened. length opened.1.items ≡ workers) }
        ensures stealing { IfOk result (λ opened. StealFromEachOther opened.1.items) }
        ensures bundles { IfOk result (λ opened. (bundle_number : ℕ) (bundle : Bundles) → slice_get opened.1.items bundle_number ≡ Some bundle → IsFresh opened.0 bundle (dealt_to workers bundle_number (whole (heap_opening config).machines))) }
    {
        let words = open_words(alloc, config)?;
        let machines = open_machines(alloc, config)?;
        let key = HeapKey { config, left: None };
        let (heap, all) = Heap::open_whole(alloc, key, words, machines)?;
        Heap::dealt(alloc, heap, all, workers)
    }

    /// The heap of an image's words, before the first event, and its machines in so many bundles, as `open` deals them. Each thread has made
    /// so many objects before as `counts` says, in the order of the mutators. The words stand for a graph with these counts, nobody waits, no
    /// pause is wanted, no machine is inside, and no mutator has ended; runs from here are runs from that graph. The error is that memory was refused.
    pub fn open_from(
        alloc: Global,
        image: Image,
        counts: Vec<u32>,
        workers: usize,
    ) -> Result<(Heap, Vec<Bundle>), NoMemory>
        requires workers { 1 ≤ workers }
        requires counts { length counts.items ≡ (images.config_of image).mutators }
        requires begins { ∥ ((graph : Graph) × CanBeginFrom (images.config_of image) (images.memory_of image) counts.items graph) ∥₁ }
        ensures config { IfOk result (λ opened. config_of opened.0 ≡ images.config_of image) }
        ensures start { IfOk result (λ opened. start_of_heap opened.0 ≡ stage_from (images.config_of image) (images.words_of image) counts.items) }
        ensures begins { (graph : Graph) → CanBeginFrom (images.config_of image) (images.memory_of image) counts.items graph → Begins (images.config_of image) (stage_from (images.config_of image) (images.words_of image) counts.items) graph }
        ensures count { IfOk result (λ opened. length opened.1.items ≡ workers) }
        ensures stealing { IfOk result (λ opened. StealFromEachOther opened.1.items) }
        ensures bundles { IfOk result (λ opened. (bundle_number : ℕ) (bundle : Bundles) → slice_get opened.1.items bundle_number ≡ Some bundle → IsFresh opened.0 bundle (dealt_to workers bundle_number (whole (stage_from (images.config_of image) (images.words_of image) counts.items).machines))) }
    {
        let config = image.config();
        let words = words_from(alloc, &image)?;
        let left = Left {
            words: Snapshot::of(&words),
            counts: Snapshot::of(&counts),
        };
        let key = HeapKey {
            config,
            left: Some(left),
        };
        let machines = machines_from(alloc, image, &counts)?;
        let (heap, all) = Heap::open_whole(alloc, key, words, machines)?;
        Heap::dealt(alloc, heap, all, workers)
    }
}
