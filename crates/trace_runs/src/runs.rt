//! `run`: the scripts of a trace on a heap that threads share.
ghost use Rattle.std.specs.Prelude.{◌≡◌, ◌≤◌, ◌<◌, ℕ, List, IfOk, IfErr, All, length};
ghost use Rattle.heap_words.specs.Steps.{Event, go};
ghost use Rattle.shen_graph.specs.declared.order.Order.{Order};
ghost use Rattle.shen_graph.specs.Work.{HasScript};
ghost use Rattle.heap_world.specs.Shows.{ShowsGraph};
ghost use Rattle.heap_machines.specs.Pause.{pause_image};
ghost use Rattle.shen_core.specs.Progress.{IsRunnable};
ghost use Rattle.step_core.specs.Begins.{Run, ending, graph_after};
ghost use Rattle.shen_base.specs.Sending.{outlet};
ghost use Rattle.trace_reading.specs.Grammar.{Reads};
ghost use Rattle.trace_text.specs.Answer.{spelled_answer};
ghost use Rattle.table_heap.specs.Closed.{config_of, stage_of, AllRest};
ghost use Rattle.trace_runs.specs.Words.{Asks};
ghost use Rattle.trace_runs.specs.Replayed.{IsRun};
ghost use Rattle.trace_runs.specs.Running.{HasCome};
ghost use Rattle.trace_runs.specs.Answered.{StatusFits};

use crate::lines::{give, say, taken};
use crate::load::Load;
use crate::mode::Mode;
use crate::parts::{Part, dealt};
use crate::status::Status;
use crate::threads::run_parts;
use heap_words::{Config, NoMemory};
use shen_base::{Sink, Source};
use shen_graph::{GraphText, Script, Work};
use std::alloc::Global;
use std::sync::Wait;
use std::thread::Threads;
use table_heap::{Closed, Gate, Heap};
use trace_reading::Trace;
use trace_text::{Answer, Line};

/// Runs scripts, one for each mutator, on a heap of their own, in so many bundles at most, until all machines are idle.
pub fn run_scripts<R: Threads + Wait + Sync, G: Gate>(
    rt: &R,
    alloc: Global,
    config: Config,
    scripts: Vec<Script>,
    workers: u64,
    gate: &G,
) -> Result<(Work, Closed), NoMemory>
    requires workers { 1 ≤ workers }
    requires count { length scripts.items ≡ config.mutators }
    requires runnable { All IsRunnable scripts.items }
    ensures { IfOk result (λ ran. HasCome config scripts.items ran.0 ran.1) }
{
    let bundles = config.seats().min(workers as usize);
    let Ok(work) = Work::of(alloc, scripts) else {
        return Err(NoMemory);
    };
    let (heap, bundles) = Heap::open(alloc, config, bundles)?;
    let parts = dealt(alloc, &heap, work, bundles)?;
    let Part { bundle, load } = run_parts(rt, alloc, &heap, gate, parts)?;
    let closed = heap.close(bundle);
    match load {
        Load::Scripted(work) => Ok((work, closed)),
        Load::Driven(_) => unreachable!(),
    }
}

/// The graph that a heap stands for, as it is to be written.
pub fn graph_of(alloc: Global, config: Config, heap: &mut Closed) -> Result<GraphText, NoMemory>
    requires config { config_of heap.old ≡ config }
    requires rest { AllRest heap.old }
    ensures shows { IfOk result (λ text. (run : Run config) → ending pause_image config run ≡ stage_of heap.old → ShowsGraph text config.mutators (graph_after pause_image config run)) }
    ensures threads { IfOk result (λ text. length text.roots ≡ config.mutators) }
{
    let Ok(mut text) = GraphText::open(alloc, config.heap_size(), config.mutators()) else {
        return Err(NoMemory);
    };
    heap.graph(&mut text);
    Ok(text)
}

/// The answer to a trace.
pub fn run_answer<R: Threads + Wait + Sync, G: Gate>(
    rt: &R,
    alloc: Global,
    trace: Trace,
    workers: u64,
    gate: &G,
) -> Result<Answer, NoMemory>
    requires workers { 1 ≤ workers }
    requires reads { (bytes : List ℕ) × Reads bytes trace.version trace.config trace.scripts trace.schedule }
    ensures ok { IfOk result (λ answer. (bytes : List ℕ) → Reads bytes trace.version trace.config trace.scripts trace.schedule → IsRun bytes (spelled_answer answer)) }
    ensures scripts { IfOk result (λ answer. (mutator : ℕ) → mutator < length answer.graph.roots → HasScript answer.replies mutator) }
{
    let config = trace.config;
    let version = trace.version;
    let scripts = trace.scripts.into_vec();
    let (replies, mut heap) = run_scripts(rt, alloc, config, scripts, workers, gate)?;
    let graph = graph_of(alloc, config, &mut heap)?;
    Ok(Answer {
        version,
        replies,
        graph,
    })
}

/// Reads a trace, runs it in so many bundles at most, and writes its answer, or the one line that says why there is none.
pub fn run<R: Threads + Wait + Sync, S: Source, K: Sink, G: Gate>(
    rt: &R,
    alloc: Global,
    workers: u64,
    source: &mut S,
    sink: &mut K,
    gate: &G,
) -> Status
    requires { 1 ≤ workers }
    ensures { (words : List (List ℕ)) → Asks words (Mode.Run workers) → StatusFits words
        (record { before = S.left source.old; after = S.left source.new; faults_before = S.faults source.old; faults_after = S.faults source.new })
        (record { before = outlet (K.written sink.old) (K.faults sink.old) (K.calls sink.old); after = outlet (K.written sink.new) (K.faults sink.new) (K.calls sink.new) }) result }
{
    let trace = match taken(alloc, source, sink) {
        Ok(trace) => trace,
        Err(status) => return status,
    };
    match run_answer(rt, alloc, trace, workers, gate) {
        Ok(answer) => give(sink, &answer),
        Err(NoMemory) => say(sink, Line::NoMemory, Status::NoMemory),
    }
}
