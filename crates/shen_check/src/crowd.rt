//! Whether an allocation was crowded out.
ghost use Rattle.std.specs.Prelude.{◌≡◌, length, ◌≤◌, ◌<◌, ◌*◌, ◌^◌, ℕ, IfOk, MatchBool};
ghost use Rattle.shen_graph.specs.Crowd.{words_asked};
ghost use Rattle.shen_graph.specs.PlainGraph.{graph_of, threads_of};
ghost use Rattle.shen_graph.specs.Reach.{Live};
ghost use Rattle.shen_graph.specs.Work.{HasScript};
ghost use Rattle.shen_check.specs.JudgeState.{words_beside, words_waiting, pins_held, names_held, words_held, regions_held, HasPinsOf, IsFullFor};

use heap_words::Config;
use shen_graph::{Command, Name, NoMemory, Pinned, PlainGraph, Work};
use std::alloc::Global;

/// The words of an object without fields: its header, its shape and its name.
const HEAD: u64 = 3;

/// The words of all objects that can be reached. `NoMemory` also where no u64 holds them.
pub fn live_words(alloc: Global, graph: &PlainGraph) -> Result<u64, NoMemory>
    ensures { IfOk result (Live (graph_of graph.now)) }
{
    let names = graph.reach(alloc)?;
    let mut words: u64 = 0;
    for name in &names {
        let more = graph.words_of(*name).unwrap_or(HEAD);
        let Some(sum) = words.checked_add(more) else {
            return Err(NoMemory);
        };
        words = sum;
    }
    Ok(words)
}

// What the pin slots of so many threads hold.
fn pinned(alloc: Global, graph: &PlainGraph, threads: u32) -> Result<Vec<Pinned>, NoMemory>
    requires threads { threads ≡ threads_of graph.now }
    ensures { IfOk result (λ held. held.items ≡ pins_held (graph_of graph.now) threads) }
{
    let mut held = Vec::new(alloc);
    for thread in 1..=threads {
        for slot in 0..4 {
            if let Some(pinned) = graph.pin_of(thread, slot) {
                held.push(pinned)?;
            }
        }
    }
    Ok(held)
}

// The words of the objects that are pinned, each once. `NoMemory` also where no u64 holds them.
fn held_words(alloc: Global, graph: &PlainGraph, held: &[Pinned]) -> Result<u64, NoMemory>
    ensures { IfOk result (λ words. words ≡ words_held (graph_of graph.now) (names_held held.now)) }
{
    let mut names: Vec<Name> = Vec::new(alloc);
    let mut words: u64 = 0;
    for pinned in held {
        if !names.contains(&pinned.name) {
            names.push(pinned.name)?;
            let more = graph.words_of(pinned.name).unwrap_or(HEAD);
            let Some(sum) = words.checked_add(more) else {
                return Err(NoMemory);
            };
            words = sum;
        }
    }
    Ok(words)
}

// How many regions of so many words have a pinned object.
fn pinned_regions(alloc: Global, region_words: u64, held: &[Pinned]) -> Result<u64, NoMemory>
    requires { 0 < region_words }
    ensures { IfOk result (λ count. count ≡ length (regions_held region_words held.now)) }
{
    let mut regions: Vec<u64> = Vec::new(alloc);
    for pinned in held {
        let region = pinned.place / region_words;
        if !regions.contains(&region) {
            regions.push(region)?;
        }
    }
    Ok(regions.len() as u64)
}

// The words that a command asks for.
fn words_asked(command: Option<Command>) -> u64
    ensures words { result ≡ words_asked command }
    ensures few { result < 2 ^ 40 }
{
    match command {
        Some(Command::New { refs, nums, .. }) => HEAD + u64::from(refs) + u64::from(nums),
        _ => 0,
    }
}

// The words that a mutator's next command asks for, where it is not that of the thread.
fn words_beside(work: &Work, mutator: usize, thread: u32) -> u64
    requires few { mutator < 8 }
    requires has { HasScript work.now mutator }
    ensures words { result ≡ words_beside work.now thread mutator }
    ensures few { result < 2 ^ 40 }
{
    if mutator + 1 == thread as usize {
        0
    } else {
        words_asked(work.next(mutator))
    }
}

// The words that the next commands of all threads but one ask for.
fn words_waiting(work: &Work, threads: usize, thread: u32) -> u64
    requires few { threads ≤ 8 }
    requires has { (mutator : ℕ) → mutator < threads → HasScript work.now mutator }
    ensures words { result ≡ words_waiting work.now threads thread }
    ensures few { result ≤ threads * 2 ^ 40 }
{
    let mut words = 0;
    for mutator in 0..threads {
        words += words_beside(work, mutator, thread);
    }
    words
}

/// Whether what can be reached and is not pinned, and what other threads ask for, is so much that a command finds no region
/// without a pinned object that has room.
pub fn is_full_for(
    alloc: Global,
    config: &Config,
    graph: &PlainGraph,
    work: &Work,
    thread: u32,
    command: Command,
) -> Result<bool, NoMemory>
    requires has { (mutator : ℕ) → mutator < config.now.mutators → HasScript work.now mutator }
    requires threads { config.now.mutators ≡ threads_of graph.now }
    requires pins { HasPinsOf config.now.mutators (graph_of graph.now) }
    ensures { IfOk result (λ full. MatchBool full (IsFullFor config.now (graph_of graph.now) work.now thread command)
        (IsFullFor config.now (graph_of graph.now) work.now thread command → ⊥)) }
{
    let live = live_words(alloc, graph)?;
    let held = pinned(alloc, graph, config.mutators() as u32)?;
    let held_words = held_words(alloc, graph, &held)?;
    let pinned = pinned_regions(alloc, config.region_words() as u64, &held)?;
    let open = (config.regions() as u64).saturating_sub(pinned);
    let waiting = words_waiting(work, config.mutators(), thread);
    let asked = words_asked(Some(command));
    let short = (config.region_words() as u64).saturating_sub(asked) + 1;
    Ok(open * short <= live.saturating_sub(held_words).saturating_add(waiting))
}
