//! `replay`: the schedule of a trace, step by step, on a heap of this thread.
ghost use Rattle.std.specs.Prelude.{◌≡◌, ◌<◌, ◌≤◌, ◌⊎◌, ◌++◌, ℕ, List, [], Some, Err, IfOk, IfErr, MatchOption, codes, length, map, sum_by};
ghost use Rattle.std.specs.String.{string_bytes};
ghost use Rattle.std.specs.Io.KnownBytes.{Appends};
ghost use Rattle.shen_base.specs.Count.{Rose};
ghost use Rattle.heap_words.specs.declared.config.Config.{Config as Sizes};
ghost use Rattle.heap_words.specs.declared.schedule.Item.{Item};
ghost use Rattle.shen_graph.specs.declared.command.Command.{Command};
ghost use Rattle.shen_graph.specs.Work.{HasScript};
ghost use Rattle.heap_world.specs.Shows.{ShowsGraph};
ghost use Rattle.heap_machines.specs.Pause.{pause_image};
ghost use Rattle.shen_graph.specs.History.{after};
ghost use Rattle.step_core.specs.Begins.{Run, ending, graph_after, first_graph};
ghost use Rattle.shen_core.specs.State as memory;
ghost use Rattle.shen_core.specs.State.{config_of};
ghost use Rattle.shen_core.specs.Progress.{AllRest};
ghost use Rattle.shen_base.specs.Sending.{outlet};
ghost use Rattle.trace_reading.specs.Grammar.{Came, Reads};
ghost use Rattle.trace_text.specs.Answer.{spelled_answer};
ghost use Rattle.trace_text.specs.History.{history_text};
ghost use Rattle.trace_runs.specs.Words.{Asks};
ghost use Rattle.trace_runs.specs.Replayed.{IsReplayed, IsReplayedNoted, IsUnfinished, IsWhole, events_of, history_of};
ghost use Rattle.trace_runs.specs.Running.{HasFinished};
ghost use Rattle.trace_runs.specs.Answered.{StatusFits};

use crate::lines::{give, give_noted, say, taken};
use crate::mode::Mode;
use crate::status::Status;
use heap_words::Config;
use shen_base::{Sink, Source};
use shen_core::{Plain, Ran};
use shen_graph::{GraphText, History, NoMemory, Work};
use std::alloc::Global;
use trace_reading::Trace;
use trace_text::{Answer, Line};

/// Why a trace that was read is not answered.
pub enum Refusal {
    /// A machine still had work after the steps that were allowed.
    Unfinished,
    /// Memory was refused.
    NoMemory,
}

/// Runs the schedule of a trace, and then rounds, on a heap of its own, until all mutators have ended and the control has.
fn run(alloc: Global, trace: Trace, steps: u64) -> Result<(Work, Plain), Refusal>
    requires { (bytes : List ℕ) × Reads bytes trace.version trace.config trace.scripts trace.schedule }
    ensures finished { IfOk result (λ ran. HasFinished trace.config trace.scripts trace.schedule steps ran.0 ran.1) }
    ensures unfinished { result ≡ Err Refusal.Unfinished → (bytes : List ℕ) → Reads bytes trace.version trace.config trace.scripts trace.schedule → IsUnfinished bytes steps }
{
    let Ok(mut work) = Work::of(alloc, trace.scripts.into_vec()) else {
        return Err(Refusal::NoMemory);
    };
    let Ok(mut plain) = Plain::open(alloc, trace.config) else {
        return Err(Refusal::NoMemory);
    };
    match plain.run(&mut work, &trace.schedule, steps) {
        Ran::Finished => Ok((work, plain)),
        Ran::Unfinished => Err(Refusal::Unfinished),
    }
}

// The number of all commands of a trace.
fn commands_of(trace: &Trace) -> usize
    requires { (bytes : List ℕ) × Reads bytes trace.now.version trace.now.config trace.now.scripts trace.now.schedule }
    ensures { result ≡ sum_by length trace.now.scripts }
{
    let mut commands = 0;
    for script in trace.scripts.list() {
        commands += script.list().len();
    }
    commands
}

// A history with memory for all entries of a trace.
fn history_for(alloc: Global, trace: &Trace) -> Result<History, NoMemory>
    requires { (bytes : List ℕ) × Reads bytes trace.now.version trace.now.config trace.now.scripts trace.now.schedule }
    ensures none { IfOk result (λ history. history.list ≡ []) }
    ensures spare { IfOk result (λ history. sum_by length trace.now.scripts ≤ history.spare) }
{
    let mut history = History::open(alloc)?;
    history.reserve(alloc, commands_of(trace))?;
    Ok(history)
}

/// Runs a trace as `run` does, and gives its history besides.
pub(crate) fn run_noted(
    alloc: Global,
    trace: Trace,
    steps: u64,
) -> Result<(Work, Plain, History), Refusal>
    requires { (bytes : List ℕ) × Reads bytes trace.version trace.config trace.scripts trace.schedule }
    ensures finished { IfOk result (λ ran. HasFinished trace.config trace.scripts trace.schedule steps ran.0 ran.1) }
    ensures history { IfOk result (λ ran. ran.2.list ≡ history_of trace.config trace.scripts trace.schedule steps) }
    ensures unfinished { result ≡ Err Refusal.Unfinished → (bytes : List ℕ) → Reads bytes trace.version trace.config trace.scripts trace.schedule → IsUnfinished bytes steps }
{
    let Ok(mut history) = history_for(alloc, &trace) else {
        return Err(Refusal::NoMemory);
    };
    let Ok(mut work) = Work::of(alloc, trace.scripts.into_vec()) else {
        return Err(Refusal::NoMemory);
    };
    let Ok(mut plain) = Plain::open(alloc, trace.config) else {
        return Err(Refusal::NoMemory);
    };
    match plain.run_noted(&mut work, &trace.schedule, steps, &mut history) {
        Ran::Finished => Ok((work, plain, history)),
        Ran::Unfinished => Err(Refusal::Unfinished),
    }
}

/// The graph that a heap stands for, as it is to be written.
pub(crate) fn graph_of(
    alloc: Global,
    config: Config,
    plain: &mut Plain,
) -> Result<GraphText, Refusal>
    requires config { config_of plain.old ≡ config }
    requires rest { AllRest plain.old }
    ensures shows { IfOk result (λ text. (run : Run config) → memory.Shows plain.old (ending pause_image config run) → ShowsGraph text config.mutators (graph_after pause_image config run)) }
    ensures threads { IfOk result (λ text. length text.roots ≡ config.mutators) }
    ensures fault { IfErr result (λ refusal. refusal ≡ Refusal.NoMemory) }
{
    let Ok(mut text) = GraphText::open(alloc, config.heap_size(), config.mutators()) else {
        return Err(Refusal::NoMemory);
    };
    plain.graph(&mut text);
    Ok(text)
}

/// The answer to a trace.
pub fn replayed_answer(alloc: Global, trace: Trace, steps: u64) -> Result<Answer, Refusal>
    requires { (bytes : List ℕ) × Reads bytes trace.version trace.config trace.scripts trace.schedule }
    ensures ok { IfOk result (λ answer. (bytes : List ℕ) → Reads bytes trace.version trace.config trace.scripts trace.schedule → IsReplayed bytes steps (spelled_answer answer)) }
    ensures scripts { IfOk result (λ answer. (mutator : ℕ) → mutator < length answer.graph.roots → HasScript answer.replies mutator) }
    ensures unfinished { result ≡ Err Refusal.Unfinished → (bytes : List ℕ) → Reads bytes trace.version trace.config trace.scripts trace.schedule → IsUnfinished bytes steps }
{
    let config = trace.config;
    let version = trace.version;
    let (replies, mut plain) = run(alloc, trace, steps)?;
    let graph = graph_of(alloc, config, &mut plain)?;
    Ok(Answer {
        version,
        replies,
        graph,
    })
}

/// The answer to a trace, and its history.
///
/// The history is that of exactly the events of the schedule and of the rounds after it, these come to their end, and the graph is that
/// to which the history leads.
pub fn noted_answer_to(
    alloc: Global,
    trace: Trace,
    steps: u64,
) -> Result<(Answer, History), Refusal>
    requires { (bytes : List ℕ) × Reads bytes trace.version trace.config trace.scripts trace.schedule }
    ensures whole { IfOk result (λ answered. IsWhole trace.config trace.scripts (events_of trace.config trace.scripts trace.schedule steps)) }
    ensures history { IfOk result (λ answered. answered.1.list ≡ history_of trace.config trace.scripts trace.schedule steps) }
    ensures graph { IfOk result (λ answered. ShowsGraph answered.0.graph trace.config.mutators (after (first_graph trace.config) (history_of trace.config trace.scripts trace.schedule steps))) }
    ensures ok { IfOk result (λ answered. (bytes : List ℕ) → Reads bytes trace.version trace.config trace.scripts trace.schedule → IsReplayedNoted bytes steps (spelled_answer answered.0 ++ history_text answered.1.list)) }
    ensures scripts { IfOk result (λ answered. (mutator : ℕ) → mutator < length answered.0.graph.roots → HasScript answered.0.replies mutator) }
    ensures unfinished { result ≡ Err Refusal.Unfinished → (bytes : List ℕ) → Reads bytes trace.version trace.config trace.scripts trace.schedule → IsUnfinished bytes steps }
{
    let config = trace.config;
    let version = trace.version;
    let (replies, mut plain, history) = run_noted(alloc, trace, steps)?;
    let graph = graph_of(alloc, config, &mut plain)?;
    let answer = Answer {
        version,
        replies,
        graph,
    };
    Ok((answer, history))
}

/// Replays a trace as `replay` does, and writes its history behind the answer.
pub fn replay_noted<S: Source, K: Sink>(
    alloc: Global,
    steps: u64,
    source: &mut S,
    sink: &mut K,
) -> Status
    ensures { (words : List (List ℕ)) → Asks words (Mode.Noted steps) → StatusFits words
        (record { before = S.left source.old; after = S.left source.new; faults_before = S.faults source.old; faults_after = S.faults source.new })
        (record { before = outlet (K.written sink.old) (K.faults sink.old) (K.calls sink.old); after = outlet (K.written sink.new) (K.faults sink.new) (K.calls sink.new) }) result }
{
    let trace = match taken(alloc, source, sink) {
        Ok(trace) => trace,
        Err(status) => return status,
    };
    match noted_answer_to(alloc, trace, steps) {
        Ok((answer, history)) => give_noted(sink, &answer, &history),
        Err(Refusal::Unfinished) => say(sink, Line::Unfinished { steps }, Status::Unfinished),
        Err(Refusal::NoMemory) => say(sink, Line::NoMemory, Status::NoMemory),
    }
}

/// Reads a trace, runs it with so many steps at most, and writes its answer, or the one line that says why there is none. It
/// starts no thread and waits for none.
pub fn replay<S: Source, K: Sink>(alloc: Global, steps: u64, source: &mut S, sink: &mut K) -> Status
    ensures { (words : List (List ℕ)) → Asks words (Mode.Replay steps) → StatusFits words
        (record { before = S.left source.old; after = S.left source.new; faults_before = S.faults source.old; faults_after = S.faults source.new })
        (record { before = outlet (K.written sink.old) (K.faults sink.old) (K.calls sink.old); after = outlet (K.written sink.new) (K.faults sink.new) (K.calls sink.new) }) result }
{
    let trace = match taken(alloc, source, sink) {
        Ok(trace) => trace,
        Err(status) => return status,
    };
    let answer = match replayed_answer(alloc, trace, steps) {
        Ok(answer) => answer,
        Err(Refusal::Unfinished) => {
            return say(sink, Line::Unfinished { steps }, Status::Unfinished);
        }
        Err(Refusal::NoMemory) => return say(sink, Line::NoMemory, Status::NoMemory),
    };
    give(sink, &answer)
}
