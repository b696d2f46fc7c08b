//! The top call: a trace in, the same with a schedule of a run out.
ghost use Rattle.std.specs.Prelude.{◌≡◌, ◌<◌, length};
ghost use Rattle.shen_base.specs.Sending.{outlet};
ghost use Rattle.trace_runs.specs.CallEnds.{EndsWith};
ghost use Rattle.program_calls.specs.NoteTellings.{NotingTells};

use crate::note::{Noted, note_trace};
use shen_base::{Sink, Source, write_all};
use std::alloc::Global;
use std::sync::Wait;
use std::thread::Threads;
use trace_reading::{all_bytes, trace_of};
use trace_runs::{Status, refuse, say};
use trace_text::Line;

// Writes a text, with the status that goes with it.
fn tell<K: Sink>(sink: &mut K, text: &[u8], status: Status) -> Status
    ensures { EndsWith text.now status result (outlet (K.written sink.old) (K.faults sink.old) (K.calls sink.old))
        (outlet (K.written sink.new) (K.faults sink.new) (K.calls sink.new)) }
{
    match write_all(sink, text) {
        Ok(()) => status,
        Err(_) => Status::WriteFault,
    }
}

/// Reads a trace from the source to its end, runs its scripts on threads, each machine in one, by one step at a time, and writes the trace
/// with the schedule of these steps into the sink, once its replay was seen to have the run's answer. There are no words, and any are
/// refused before anything is read. Where no trace is written one line among the errors says why; if that or the trace cannot be written,
/// the status is `WriteFault`.
#[tactic(auto, using(crate::proofs::Statuses::words_tell, crate::proofs::Statuses::memory_tells, crate::proofs::Statuses::long_tells, crate::proofs::Statuses::other_tells, crate::proofs::Statuses::trace_tells, crate::proofs::Statuses::unread_tells, crate::proofs::Statuses::refused_tells, crate::proofs::Statuses::not_words, crate::proofs::Statuses::fault_no_words))]
pub fn shennote<R: Threads + Wait + Sync, S: Source, K: Sink, E: Sink>(
    rt: &R,
    alloc: Global,
    words: &[String],
    source: &mut S,
    sink: &mut K,
    errors: &mut E,
) -> Status
    // What each status says of what came and of what was written. Where it is `Ok`, a trace came whole and a trace of the same heap and the
    // same scripts was written; some run of the first and the replay of the second have one answer; and the second's schedule says of each
    // step to the end which machine makes it.
    ensures fits { NotingTells result
        (record { before = S.left source.old; after = S.left source.new; faults_before = S.faults source.old; faults_after = S.faults source.new })
        (record { before = outlet (K.written sink.old) (K.faults sink.old) (K.calls sink.old); after = outlet (K.written sink.new) (K.faults sink.new) (K.calls sink.new) })
        (record { before = outlet (E.written errors.old) (E.faults errors.old) (E.calls errors.old); after = outlet (E.written errors.new) (E.faults errors.new) (E.calls errors.new) }) }

    // Words are refused, and nothing is read then.
    ensures words { result ≡ Status.BadWords → 0 < length words.now }
    ensures unread { 0 < length words.now → source.new ≡ source.old }
{
    if !words.is_empty() {
        return say(errors, Line::BadWords, Status::BadWords);
    }
    let bytes = match all_bytes(alloc, source) {
        Ok(bytes) => bytes,
        Err(fault) => return refuse(errors, fault),
    };
    let trace = match trace_of(alloc, &bytes) {
        Ok(trace) => trace,
        Err(fault) => return refuse(errors, fault),
    };
    match note_trace(rt, alloc, &bytes, trace) {
        Err(_) => say(errors, Line::NoMemory, Status::NoMemory),
        Ok(Noted::Text(text)) => tell(sink, text.bytes(), Status::Ok),
        Ok(Noted::Long) => tell(errors, b"too many steps to note them\n", Status::Unfinished),
        Ok(Noted::Other) => tell(
            errors,
            b"the replay has another answer\n",
            Status::Unfinished,
        ),
    }
}
