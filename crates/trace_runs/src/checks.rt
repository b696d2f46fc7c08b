//! `check`: a history that somebody claims for a trace, judged.
ghost use Rattle.std.specs.Prelude.{◌≡◌, ℕ, List, IfOk, IfErr, OnOk};
ghost use Rattle.shen_base.specs.Sending.{outlet};
ghost use Rattle.trace_reading.specs.Grammar.{Came};
ghost use Rattle.trace_text.specs.Pairs.{IsPair};
ghost use Rattle.trace_runs.specs.Checked.{verdict_line};
ghost use Rattle.trace_runs.specs.Words.{Asks};
ghost use Rattle.trace_runs.specs.Answered.{StatusFits};

use crate::lines::{refuse, say};
use crate::mode::Mode;
use crate::status::Status;
use shen_base::{Sink, Source};
use shen_check::Verdict;
use std::alloc::Global;
use trace_text::{Line, Pair, read_pair};

// The line of a verdict.
fn verdict_line(verdict: Verdict) -> Line
    ensures { result ≡ verdict_line verdict }
{
    match verdict {
        Verdict::Yes => Line::Yes,
        Verdict::Entry { at } => Line::NoEntry { at },
        Verdict::Script { thread } => Line::NoScript { thread },
        Verdict::Text => Line::NoText,
    }
}

// Reads a trace with what is claimed for it. Where what came is none, or the source or memory fails, the one line that says so
// is written.
fn pair_taken<S: Source, K: Sink>(
    alloc: Global,
    source: &mut S,
    sink: &mut K,
) -> Result<Pair, Status>
    ensures ok { IfOk result (λ pair. (bytes : List ℕ) × Came (S.left source.old) (S.left source.new) bytes
        × IsPair bytes pair.trace.version pair.trace.config pair.trace.scripts pair.trace.schedule pair.body pair.history.list) }
    ensures unused { OnOk result (sink.new ≡ sink.old) }
    ensures refused { IfErr result (λ status. (words : List (List ℕ)) → Asks words Mode.Check → StatusFits words
        (record { before = S.left source.old; after = S.left source.new; faults_before = S.faults source.old; faults_after = S.faults source.new })
        (record { before = outlet (K.written sink.old) (K.faults sink.old) (K.calls sink.old); after = outlet (K.written sink.new) (K.faults sink.new) (K.calls sink.new) }) status) }
{
    match read_pair(alloc, source) {
        Ok(pair) => Ok(pair),
        Err(fault) => Err(refuse(sink, fault)),
    }
}

/// Reads a trace, and the answer and the history that somebody claims for it, and writes what is to be said of them in one
/// line: `yes`, or what is the first thing that is wrong.
pub fn check<S: Source, K: Sink>(alloc: Global, source: &mut S, sink: &mut K) -> Status
    ensures { (words : List (List ℕ)) → Asks words Mode.Check → StatusFits words
        (record { before = S.left source.old; after = S.left source.new; faults_before = S.faults source.old; faults_after = S.faults source.new })
        (record { before = outlet (K.written sink.old) (K.faults sink.old) (K.calls sink.old); after = outlet (K.written sink.new) (K.faults sink.new) (K.calls sink.new) }) result }
{
    let pair = match pair_taken(alloc, source, sink) {
        Ok(pair) => pair,
        Err(status) => return status,
    };
    match shen_check::check(alloc, &pair.trace, &pair.history, pair.body.bytes()) {
        Ok(verdict) => say(sink, verdict_line(verdict), Status::Ok),
        Err(_) => say(sink, Line::NoMemory, Status::NoMemory),
    }
}
