ghost use Rattle.std.specs.Prelude.{◌≡◌, ◌≤◌, ℕ, IfOk};
ghost use Rattle.shen_graph.specs.Graph.{opening};
ghost use Rattle.shen_graph.specs.History.{after};
ghost use Rattle.shen_graph.specs.Noting.{seen};
ghost use Rattle.heap_words.specs.Narrow.{IsNarrow};
ghost use Rattle.heap_world.specs.Shows.{ShowsGraph};
ghost use Rattle.heap_dump.specs.Dumped.{dumped, most_made, IsDump, IsDumpOf};
ghost use Rattle.heap_dump.specs.ObjectsMade.{has_made, objects_made, objects_made_by_each, IsDumpable};

use crate::{Counts, Dump};
use heap_words::Config;
use shen_graph::{Command, Entry, GraphText, History, NoMemory, Reply};
use std::alloc::Global;

// Whether an entry is an allocation of this thread that was answered a name.
fn has_made(thread: u32, entry: &Entry) -> bool
    ensures { result ≡ has_made thread (seen entry.now) }
{
    let makes = match entry.command {
        Command::New { .. } => true,
        _ => false,
    };
    let named = match entry.reply {
        Reply::Ref(_) => true,
        _ => false,
    };
    entry.thread == thread && makes && named
}

// How many objects a thread made.
fn objects_made(history: &History, thread: u32) -> u32
    requires { objects_made history.now.list thread ≤ most_made }
    ensures { result ≡ objects_made history.now.list thread }
{
    let mut made = 0;
    for at in 0..history.len() {
        let entry = history.entry(at);
        if has_made(thread, &entry) {
            made += 1;
        }
    }
    made
}

// How many objects each of so many threads made.
fn counts_of(alloc: Global, history: &History, threads: usize) -> Result<Counts, NoMemory>
    requires threads { threads ≤ 8 }
    requires few { (thread : ℕ) → objects_made history.now.list thread ≤ most_made }
    ensures { IfOk result (λ counts. counts ≡ objects_made_by_each history.now.list threads) }
{
    let mut counts = Counts::open(alloc)?;
    for mutator in 0..threads {
        counts.push(alloc, objects_made(history, mutator as u32 + 1))?;
    }
    Ok(counts)
}

/// The dump of the graph that a history from the opening leads to, given the text that shows this graph. Its counts are how many
/// allocations of each thread were answered a name in the history.
pub fn dump_of(
    alloc: Global,
    config: Config,
    history: &History,
    graph: &GraphText,
) -> Result<Dump, NoMemory>
    requires narrow { IsNarrow config }
    requires history { IsDumpable config history.now.list }
    requires graph { ShowsGraph graph.now config.mutators (after (opening config.mutators) history.now.list) }
    ensures is_dump { IfOk result (λ dump. IsDump (dumped dump.config dump.counts dump.graph)) }
    ensures dump { IfOk result (λ dump. IsDumpOf config (after (opening config.mutators) history.now.list) (dumped dump.config dump.counts dump.graph)) }
    ensures counts { IfOk result (λ dump. dump.counts ≡ objects_made_by_each history.now.list config.mutators) }
{
    let counts = counts_of(alloc, history, config.mutators())?;
    Dump::of(alloc, config, counts, graph)
}
