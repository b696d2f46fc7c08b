//! `replay --dump`, which writes the heap at the end of a replay down, and `resume`, which goes on from what was written.
ghost use Rattle.std.specs.Prelude.{◌≡◌, ◌<◌, ◌++◌, ℕ, List, Err, IfOk, IfErr, OnOk, length};
ghost use Rattle.shen_graph.specs.Work.{HasScript};
ghost use Rattle.shen_base.specs.Sending.{outlet};
ghost use Rattle.trace_reading.specs.Grammar.{Came, Reads};
ghost use Rattle.trace_text.specs.Answer.{spelled_answer};
ghost use Rattle.heap_dump.specs.Dumped.{dumped, IsDump};
ghost use Rattle.heap_dump.specs.DumpText.{dump_text};
ghost use Rattle.heap_dump.specs.DumpsToRun.{Resumes};
ghost use Rattle.trace_runs.specs.Words.{Asks};
ghost use Rattle.trace_runs.specs.Replayed.{IsReplayedToDump, IsUnfinished};
ghost use Rattle.trace_runs.specs.CallEnds.{EndsWith};
ghost use Rattle.trace_runs.specs.Answered.{StatusFits};

use crate::lines::{give, refuse, say, taken};
use crate::mode::Mode;
use crate::replays::{Refusal, graph_of, run_noted};
use crate::status::Status;
use heap_dump::{Continued, Dump, Resumed as Read, answer_from, dump_of, read_dump, write_dump};
use shen_base::{Sink, Source};
use std::alloc::Global;
use trace_reading::Trace;
use trace_text::Line;

/// The dump of the heap at the end of a trace.
fn dump_after(alloc: Global, trace: Trace, steps: u64) -> Result<Dump, Refusal>
    requires { (bytes : List ℕ) × Reads bytes trace.version trace.config trace.scripts trace.schedule }
    ensures is_dump { IfOk result (λ dump. IsDump (dumped dump.config dump.counts dump.graph)) }
    ensures ok { IfOk result (λ dump. (bytes : List ℕ) → Reads bytes trace.version trace.config trace.scripts trace.schedule → IsReplayedToDump bytes steps (dump_text (dumped dump.config dump.counts dump.graph))) }
    ensures unfinished { result ≡ Err Refusal.Unfinished → (bytes : List ℕ) → Reads bytes trace.version trace.config trace.scripts trace.schedule → IsUnfinished bytes steps }
{
    let config = trace.config;
    let (replies, mut plain, history) = run_noted(alloc, trace, steps)?;
    drop(replies);
    let graph = graph_of(alloc, config, &mut plain)?;
    match dump_of(alloc, config, &history, &graph) {
        Ok(dump) => Ok(dump),
        Err(_) => Err(Refusal::NoMemory),
    }
}

// Writes a dump.
fn give_dump<K: Sink>(sink: &mut K, dump: &Dump) -> Status
    requires { IsDump (dumped dump.now.config dump.now.counts dump.now.graph) }
    ensures { EndsWith (dump_text (dumped dump.now.config dump.now.counts dump.now.graph)) Status.Ok result (outlet (K.written sink.old) (K.faults sink.old) (K.calls sink.old))
        (outlet (K.written sink.new) (K.faults sink.new) (K.calls sink.new)) }
{
    match write_dump(sink, dump) {
        Ok(()) => Status::Ok,
        Err(_) => Status::WriteFault,
    }
}

/// Replays a trace as `replay` does, and writes a dump of the heap at the end in place of the answer.
pub fn replay_to_dump<S: Source, K: Sink>(
    alloc: Global,
    steps: u64,
    source: &mut S,
    sink: &mut K,
) -> Status
    ensures { (words : List (List ℕ)) → Asks words (Mode.Dump steps) → StatusFits words
        (record { before = S.left source.old; after = S.left source.new; faults_before = S.faults source.old; faults_after = S.faults source.new })
        (record { before = outlet (K.written sink.old) (K.faults sink.old) (K.calls sink.old); after = outlet (K.written sink.new) (K.faults sink.new) (K.calls sink.new) }) result }
{
    let trace = match taken(alloc, source, sink) {
        Ok(trace) => trace,
        Err(status) => return status,
    };
    match dump_after(alloc, trace, steps) {
        Ok(dump) => give_dump(sink, &dump),
        Err(Refusal::Unfinished) => say(sink, Line::Unfinished { steps }, Status::Unfinished),
        Err(Refusal::NoMemory) => say(sink, Line::NoMemory, Status::NoMemory),
    }
}

// Reads a dump with what is to run from it. Where what came is none, or the source or memory fails, the one line that says so is
// written.
fn dump_taken<S: Source, K: Sink>(
    alloc: Global,
    source: &mut S,
    sink: &mut K,
) -> Result<Read, Status>
    ensures ok { IfOk result (λ read. (bytes : List ℕ) × Came (S.left source.old) (S.left source.new) bytes
        × Resumes bytes (dumped read.dump.config read.dump.counts read.dump.graph) read.trace.scripts read.trace.schedule) }
    ensures unused { OnOk result (sink.new ≡ sink.old) }
    ensures refused { IfErr result (λ status. (words : List (List ℕ)) (steps : ℕ) → Asks words (Mode.Resume steps) → StatusFits words
        (record { before = S.left source.old; after = S.left source.new; faults_before = S.faults source.old; faults_after = S.faults source.new })
        (record { before = outlet (K.written sink.old) (K.faults sink.old) (K.calls sink.old); after = outlet (K.written sink.new) (K.faults sink.new) (K.calls sink.new) }) status) }
{
    match read_dump(alloc, source) {
        Ok(read) => Ok(read),
        Err(fault) => Err(refuse(sink, fault)),
    }
}

/// Reads a dump with what is to run from it, runs that by its schedule in a heap in which the dump's objects were placed, and writes the
/// answer, or the one line that says why there is none.
pub fn resume<S: Source, K: Sink>(alloc: Global, steps: u64, source: &mut S, sink: &mut K) -> Status
    ensures { (words : List (List ℕ)) → Asks words (Mode.Resume steps) → StatusFits words
        (record { before = S.left source.old; after = S.left source.new; faults_before = S.faults source.old; faults_after = S.faults source.new })
        (record { before = outlet (K.written sink.old) (K.faults sink.old) (K.calls sink.old); after = outlet (K.written sink.new) (K.faults sink.new) (K.calls sink.new) }) result }
{
    let read = match dump_taken(alloc, source, sink) {
        Ok(read) => read,
        Err(status) => return status,
    };
    match answer_from(alloc, read, steps) {
        Ok(Continued::Answered(answer)) => give(sink, &answer),
        Ok(Continued::Unfinished) => say(sink, Line::Unfinished { steps }, Status::Unfinished),
        Ok(Continued::TooSmall) => say(sink, Line::HeapTooSmall, Status::BadTrace),
        Err(_) => say(sink, Line::NoMemory, Status::NoMemory),
    }
}
