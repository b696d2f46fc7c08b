//! `churn`: a large workload that is made from a number, on a heap that threads share.
ghost use Rattle.std.specs.Prelude.{◌≤◌, ℕ, List, IfOk};
ghost use Rattle.churn.specs.Laws.{SumsUpTurns};
ghost use Rattle.shen_base.specs.Sending.{outlet};
ghost use Rattle.trace_runs.specs.Words.{most_seed, most_rounds, Asks};
ghost use Rattle.trace_runs.specs.Churned.{IsChurnHeap};
ghost use Rattle.trace_runs.specs.Answered.{Input, StatusFits};

use crate::lines::say;
use crate::mode::{MOST_MACHINES, Mode, Workload};
use crate::runs::{graph_of, run_scripts};
use crate::status::Status;
use churn::{Summary, churn_scripts, summarize};
use heap_words::{Config, NoMemory};
use shen_base::Sink;
use std::alloc::Global;
use std::sync::Wait;
use std::thread::Threads;
use table_heap::Gate;
use trace_text::Line;

/// The sizes of the heap of a churn.
fn churn_heap() -> Config
    ensures { IsChurnHeap result }
{
    let Ok(config) = Config::new(16, 256, 3, 2, 2) else {
        unreachable!()
    };
    config
}

/// Runs the scripts of a churn on a heap of their own, each machine in a thread of its own, and sums up the replies and the
/// graph that the heap stands for in the end.
fn summary_of<R: Threads + Wait + Sync, G: Gate>(
    rt: &R,
    alloc: Global,
    workload: Workload,
    gate: &G,
) -> Result<Summary, NoMemory>
    requires seed { workload.seed ≤ most_seed }
    requires count { workload.count ≤ most_rounds }
    ensures { IfOk result (SumsUpTurns workload.seed workload.count) }
{
    let Workload { seed, count } = workload;
    let config = churn_heap();
    let Ok(scripts) = churn_scripts(alloc, seed, count) else {
        return Err(NoMemory);
    };
    let (replies, mut heap) = run_scripts(rt, alloc, config, scripts, MOST_MACHINES, gate)?;
    let graph = graph_of(alloc, config, &mut heap)?;
    Ok(summarize(seed, count, &replies, &graph))
}

/// Runs a churn and writes its summary, or the one line that says that there is no memory.
pub fn churn<R: Threads + Wait + Sync, K: Sink, G: Gate>(
    rt: &R,
    alloc: Global,
    workload: Workload,
    sink: &mut K,
    gate: &G,
) -> Status
    requires seed { workload.seed ≤ most_seed }
    requires count { workload.count ≤ most_rounds }
    ensures { (words : List (List ℕ)) (input : Input) → Asks words (Mode.Churn workload) → StatusFits words input
        (record { before = outlet (K.written sink.old) (K.faults sink.old) (K.calls sink.old); after = outlet (K.written sink.new) (K.faults sink.new) (K.calls sink.new) }) result }
{
    match summary_of(rt, alloc, workload, gate) {
        Ok(summary) => say(sink, Line::Churn(summary), Status::Ok),
        Err(NoMemory) => say(sink, Line::NoMemory, Status::NoMemory),
    }
}
