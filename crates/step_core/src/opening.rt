ghost use Rattle.std.specs.Prelude.{◌≡◌, ◌≤◌, IfOk};
ghost use Rattle.step_core.specs.Opening.{opening_words, first_free};

use heap_words::{Config, NoMemory, name_word, shape_of};
use std::alloc::Global;

/// The words of a heap of this configuration before the first event: the hub at the base of region 0, and in root 0 of each
/// mutator; all other regions are free. The error is that memory for the words was refused.
pub fn open_words(alloc: Global, config: Config) -> Result<Vec<u64>, NoMemory>
    ensures { IfOk result (λ words. words.items ≡ opening_words config) }
{
    let Ok(mut words) = vec![in alloc; 0u64; config.table_words()] else {
        return Err(NoMemory);
    };
    let hub = config.region_words() as u64;
    for mutator in 0..config.mutators() {
        words[config.root_at(mutator, 0)] = hub;
    }
    words[config.left_at()] = config.mutators() as u64;
    words[config.free_at()] = first_free(config.regions());
    words[config.top_at(0)] = 19;
    words[config.heap_at(hub)] = 1;
    words[config.heap_at(hub + 1)] = shape_of(16, 0);
    words[config.heap_at(hub + 2)] = name_word(0, 1);
    Ok(words)
}

/// The free word in which only region 0 is in use.
pub fn first_free(regions: usize) -> u64
    requires least { 4 ≤ regions }
    requires most { regions ≤ 64 }
    ensures { result ≡ first_free regions }
{
    ((1u128 << regions) - 2) as u64
}
