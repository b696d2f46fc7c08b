//! What the commands read and write: a trace comes in, and an answer or one line goes out.
ghost use Rattle.std.specs.Prelude.{◌≡◌, ◌<◌, ◌++◌, ℕ, List, IfOk, IfErr, OnOk, length};
ghost use Rattle.shen_graph.specs.Work.{HasScript};
ghost use Rattle.shen_base.specs.Sending.{outlet};
ghost use Rattle.trace_reading.specs.Grammar.{Came, Reads};
ghost use Rattle.trace_text.specs.Message.{line_text};
ghost use Rattle.trace_text.specs.Answer.{spelled_answer};
ghost use Rattle.trace_text.specs.History.{history_text};
ghost use Rattle.trace_runs.specs.CallEnds.{EndsWith};
ghost use Rattle.trace_runs.specs.Faults.{fault_line, fault_status, ReadsOnlyTrace};
ghost use Rattle.trace_runs.specs.Words.{Asked};
ghost use Rattle.trace_runs.specs.Answered.{StatusFits};

use crate::status::Status;
use shen_base::{Sink, Source};
use shen_graph::History;
use std::alloc::Global;
use trace_reading::{Trace, TraceFault, read_trace};
use trace_text::{Answer, Line, write_answer, write_history, write_line};

/// Writes the one line of a status, or the lines of a churn.
pub fn say<K: Sink>(sink: &mut K, line: Line, status: Status) -> Status
    ensures { EndsWith (line_text line) status result (outlet (K.written sink.old) (K.faults sink.old) (K.calls sink.old))
        (outlet (K.written sink.new) (K.faults sink.new) (K.calls sink.new)) }
{
    match write_line(sink, &line) {
        Ok(()) => status,
        Err(_) => Status::WriteFault,
    }
}

/// Writes an answer.
pub fn give<K: Sink>(sink: &mut K, answer: &Answer) -> Status
    requires { (mutator : ℕ) → mutator < length answer.now.graph.roots → HasScript answer.now.replies mutator }
    ensures { EndsWith (spelled_answer answer.now) Status.Ok result (outlet (K.written sink.old) (K.faults sink.old) (K.calls sink.old))
        (outlet (K.written sink.new) (K.faults sink.new) (K.calls sink.new)) }
{
    match write_answer(sink, answer) {
        Ok(()) => Status::Ok,
        Err(_) => Status::WriteFault,
    }
}

/// Writes an answer, and the history behind it.
pub fn give_noted<K: Sink>(sink: &mut K, answer: &Answer, history: &History) -> Status
    requires { (mutator : ℕ) → mutator < length answer.now.graph.roots → HasScript answer.now.replies mutator }
    ensures { EndsWith (spelled_answer answer.now ++ history_text history.now.list) Status.Ok result (outlet (K.written sink.old) (K.faults sink.old) (K.calls sink.old))
        (outlet (K.written sink.new) (K.faults sink.new) (K.calls sink.new)) }
{
    match write_answer(sink, answer) {
        Err(_) => Status::WriteFault,
        Ok(()) => match write_history(sink, history) {
            Ok(()) => Status::Ok,
            Err(_) => Status::WriteFault,
        },
    }
}

/// Writes the one line that says why nothing was read, with the status of that.
pub fn refuse<K: Sink>(sink: &mut K, fault: TraceFault) -> Status
    ensures { EndsWith (line_text (fault_line fault)) (fault_status fault) result (outlet (K.written sink.old) (K.faults sink.old) (K.calls sink.old))
        (outlet (K.written sink.new) (K.faults sink.new) (K.calls sink.new)) }
{
    match fault {
        TraceFault::BadLine { line, why } => {
            say(sink, Line::BadLine { line, why }, Status::BadTrace)
        }
        TraceFault::TooLong { .. } => say(sink, Line::TooLong, Status::BadTrace),
        TraceFault::ReadFault => say(sink, Line::ReadFault, Status::ReadFault),
        TraceFault::NoMemory => say(sink, Line::NoMemory, Status::NoMemory),
    }
}

/// Reads a trace. Where what came is none, or the source or memory fails, the one line that says so is written.
pub fn taken<S: Source, K: Sink>(
    alloc: Global,
    source: &mut S,
    sink: &mut K,
) -> Result<Trace, Status>
    ensures ok { IfOk result (λ trace. (bytes : List ℕ) × Came (S.left source.old) (S.left source.new) bytes × Reads bytes trace.version trace.config trace.scripts trace.schedule) }
    ensures unused { OnOk result (sink.new ≡ sink.old) }
    ensures refused { IfErr result (λ status. (words : List (List ℕ)) → Asked words ReadsOnlyTrace → StatusFits words
        (record { before = S.left source.old; after = S.left source.new; faults_before = S.faults source.old; faults_after = S.faults source.new })
        (record { before = outlet (K.written sink.old) (K.faults sink.old) (K.calls sink.old); after = outlet (K.written sink.new) (K.faults sink.new) (K.calls sink.new) }) status) }
{
    match read_trace(alloc, source) {
        Ok(trace) => Ok(trace),
        Err(fault) => Err(refuse(sink, fault)),
    }
}
