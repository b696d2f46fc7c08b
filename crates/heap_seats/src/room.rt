ghost use Rattle.std.specs.Prelude.{◌≡◌, ◌≤◌, length};
ghost use Rattle.heap_words.specs.Words.{heap_size};

use heap_words::{Config, NoMemory};
use shen_graph::GraphText;
use std::alloc::Global;

/// What a renewal takes of memory before the heap is given up: room for its graph, 48 bytes for each word of the heap, and for the
/// counts of its threads.
#[derive(Drop)]
pub struct RenewalRoom {
    pub(crate) config: Config,
    pub(crate) text: GraphText,
    pub(crate) counts: Vec<u32>,
    ghost words: { heap_size config ≤ text.room },
    ghost threads: { length text.roots ≡ config.mutators },
    ghost count: { length counts.items ≡ config.mutators },
}

impl RenewalRoom {
    ghost use Rattle.std.specs.Prelude.{IfOk};
    ghost use Rattle.heap_seats.specs.RenewalStage.{sizes_for};

    /// For a heap of this configuration. The error is that memory was refused.
    pub fn open(alloc: Global, config: Config) -> Result<RenewalRoom, NoMemory>
        ensures { IfOk result (λ room. sizes_for room ≡ config) }
    {
        let Ok(text) = GraphText::open(alloc, config.heap_size(), config.mutators()) else {
            return Err(NoMemory);
        };
        let Ok(counts) = Vec::from_elem(alloc, 0, config.mutators()) else {
            return Err(NoMemory);
        };
        Ok(RenewalRoom {
            config,
            text,
            counts,
        })
    }
}
