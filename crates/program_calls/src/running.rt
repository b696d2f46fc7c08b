//! The top call: words and a trace in, an answer or one line out.
ghost use Rattle.std.specs.Prelude.{◌≡◌, ◌⊎◌, ℕ, List, Some, map};
ghost use Rattle.std.specs.String.{string_bytes};
ghost use Rattle.shen_base.specs.Count.{Rose};
ghost use Rattle.shen_base.specs.Sending.{outlet};
ghost use Rattle.trace_runs.specs.Words.{Asked};
ghost use Rattle.trace_runs.specs.Readings.{reading_of, ReadsInput, ReadsNothing, Takes};
ghost use Rattle.trace_runs.specs.Answered.{HasAnswered, StatusFits, IsTraceStatus};

use shen_base::{Sink, Source};
use std::alloc::Global;
use std::sync::Wait;
use std::thread::Threads;
use table_heap::Gate;
use trace_runs::{
    Mode, Status, check, churn, mode_of, queue, replay, replay_noted, replay_to_dump, resume, run,
    say,
};
use trace_text::Line;

/// Runs the program on these words of the command line, which are without the program's name. `replay` and `run` read a trace
/// from the source to its end, run it on a heap that collects in pauses, and write the replies and the final graph to the
/// sink. `replay` makes the steps of the schedule and then of rounds on the caller's thread; with `--steps N` it makes N
/// steps at most, and with `--history`, which comes last, it writes the history behind the answer; with `--dump` in that place it writes
/// the heap at the end down, in place of the answer. `resume` reads a dump, the line `trace` and what is to run from it, goes on as
/// `replay` does in a heap in which the dump's objects were placed, and writes the answer and what each thread has pinned, which is nothing.
/// `run` gives each machine a
/// thread of its own, and takes no notice of the schedule; with `--workers K` the machines are dealt to K threads at most, of
/// which the caller's is one. `churn SEED COUNT` reads nothing: it makes the scripts of three threads from the two numbers,
/// runs them as `run` does, and writes what is told of the run in eight lines. `queue COUNT` reads nothing either: it runs four users
/// of a queue in the heap, each machine in a thread, and writes what the two takers got in three lines. Each step of a machine passes
/// the gate in these three. `check` reads a trace with an answer and a history that somebody claims for it, and writes in one line
/// whether they are right. Any other words are refused before anything is read. Where there is no answer one line says why; if that cannot be written
/// either, the status is `WriteFault`.
pub fn shenrun<R: Threads + Wait + Sync, S: Source, K: Sink, G: Gate>(
    rt: &R,
    alloc: Global,
    words: &[String],
    source: &mut S,
    sink: &mut K,
    gate: &G,
) -> Status
    // The words asked for a mode, and its answer was written. The replies and the graph are those of one legal history, in which
    // each thread's commands are its script. Of a replay it is that of exactly the events of the schedule and of the rounds after it,
    // and with `--history` that very history is written behind them; with `--dump` the dump of the graph after it is written in their
    // place. Of a resumed dump it is that of exactly such events in a heap of the dump's objects, and goes on from the dump's graph. Of a
    // run it is that of some events, after which all machines are idle. It is a history of a graph that never moves or frees an object,
    // whatever pauses collect; and it has an allocation that was refused only where live objects and the other threads' allocations that
    // were not answered yet crowded the regions. Of a churn the
    // eight lines are those of the history in which its threads run one after the other and no allocation is refused, whatever order
    // they ran in. Of a queue the three lines are what its takers got in such a history of its users. Of a check the line is that
    // of the one verdict on the history and the answer that came with the trace.
    ensures headline { result ≡ Status.Ok → HasAnswered (map string_bytes words.now)
        (record { before = S.left source.old; after = S.left source.new; faults_before = S.faults source.old; faults_after = S.faults source.new })
        (record { before = outlet (K.written sink.old) (K.faults sink.old) (K.calls sink.old); after = outlet (K.written sink.new) (K.faults sink.new) (K.calls sink.new) }) }

    // What each status says of the words, of what came and of what was written; and that the sink was called at most once for
    // each byte of the text.
    ensures answered { StatusFits (map string_bytes words.now)
        (record { before = S.left source.old; after = S.left source.new; faults_before = S.faults source.old; faults_after = S.faults source.new })
        (record { before = outlet (K.written sink.old) (K.faults sink.old) (K.calls sink.old); after = outlet (K.written sink.new) (K.faults sink.new) (K.calls sink.new) }) result }

    // Where the source has the bytes of what the words ask for, a dump among them one that fits its heap, and nothing fails, there is an answer, or the steps are used up, or
    // memory is refused.
    ensures complete { (bytes : List ℕ) → Asked (map string_bytes words.now) (λ mode. Takes (reading_of mode) bytes) → S.left source.old ≡ Some bytes
        → (Rose (S.faults source.old) (S.faults source.new) → ⊥) → (Rose (K.faults sink.old) (K.faults sink.new) → ⊥) → IsTraceStatus (map string_bytes words.now) result }

    // Where what reads nothing is asked for and the sink does not fail, there is an answer, or memory is refused.
    ensures made { Asked (map string_bytes words.now) ReadsNothing → (Rose (K.faults sink.old) (K.faults sink.new) → ⊥) → (result ≡ Status.Ok) ⊎ (result ≡ Status.NoMemory) }

    // Nothing is read but by a mode that reads something: other words are refused before.
    ensures unread { (Asked (map string_bytes words.now) ReadsInput → ⊥) → source.new ≡ source.old }
{
    let Some(mode) = mode_of(words) else {
        return say(sink, Line::BadWords, Status::BadWords);
    };
    match mode {
        Mode::Replay { steps } => replay(alloc, steps, source, sink),
        Mode::Noted { steps } => replay_noted(alloc, steps, source, sink),
        Mode::Dump { steps } => replay_to_dump(alloc, steps, source, sink),
        Mode::Resume { steps } => resume(alloc, steps, source, sink),
        Mode::Run { workers } => run(rt, alloc, workers, source, sink, gate),
        Mode::Churn(workload) => churn(rt, alloc, workload, sink, gate),
        Mode::Queue { count } => queue(rt, alloc, count, sink, gate),
        Mode::Check => check(alloc, source, sink),
    }
}
