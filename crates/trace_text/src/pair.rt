//! Reading a pair.
ghost use Rattle.std.specs.Prelude.{◌≡◌, ◌⊎◌, ◌++◌, ◌+◌, ◌≤◌, ℕ, List, Err, codes, length, IfOk, IfErr};
ghost use Rattle.std.specs.List.{flat_map, AllByRecursion};
ghost use Rattle.std.specs.Io.KnownBytes.{Consumes};
ghost use Rattle.shen_base.specs.Count.{Rose};
ghost use Rattle.trace_reading.specs.Grammar.{most_bytes, Came};
ghost use Rattle.trace_reading.specs.declared.why.Why.{Why as Cause};
ghost use Rattle.trace_reading.specs.Causes.{parts};
ghost use Rattle.trace_reading.specs.Calls.{HasFewCalls};
ghost use Rattle.trace_reading.specs.Faults.{IsTextFault};
ghost use Rattle.trace_text.specs.Pairs.{HasTrace, HasClaims, IsPair};
ghost use Rattle.trace_text.specs.Refusals.{LacksTrace, LacksAnswer, LacksHistory, LacksEntry, wanted_behind, wanted_at, IsPairRefused};
ghost use Rattle.trace_text.specs.LineCuts.{HasNoLine, last_line};

use crate::body::Body;
use crate::entries::entries_in;
use crate::line_cuts::{cut_at, last_line};
use shen_base::Source;
use shen_graph::History;
use std::alloc::Global;
use trace_reading::{Trace, TraceFault, Why, all_bytes, line_at, trace_of};

/// A trace, and what somebody claims that a heap has made of it.
#[derive(Drop)]
pub struct Pair {
    /// The trace.
    pub trace: Trace,
    /// The text that is to be its answer.
    pub body: Body,
    /// The history that is to be behind the answer.
    pub history: History,
}

/// Why there is no trace before a line `answer`, where there is no such line.
fn no_answer(alloc: Global, bytes: &[u8]) -> TraceFault
    requires few { length bytes.now ≤ most_bytes }
    requires none { HasNoLine (codes "answer") bytes.now }
    ensures fault { IsTextFault result }
    ensures bad_line { (line_number : ℕ) (why : Cause) → result ≡ TraceFault.BadLine line_number why → LacksTrace bytes.now line_number why ⊎ LacksAnswer bytes.now line_number why }
{
    match trace_of(alloc, bytes) {
        Ok(_) => TraceFault::BadLine {
            line: last_line(bytes),
            why: Why::AnswerWanted,
        },
        Err(fault) => fault,
    }
}

/// The trace before the line `answer`, and the bytes behind that line.
fn trace_before(alloc: Global, bytes: &[u8]) -> Result<(Trace, &[u8]), TraceFault>
    requires few { length bytes.now ≤ most_bytes }
    ensures ok { IfOk result (λ found. HasTrace bytes.now found.0.version found.0.config found.0.scripts found.0.schedule found.1.now) }
    ensures fault { IfErr result IsTextFault }
    ensures bad_line { (line_number : ℕ) (why : Cause) → result ≡ Err (TraceFault.BadLine line_number why) → LacksTrace bytes.now line_number why ⊎ LacksAnswer bytes.now line_number why }
{
    let Some((front, behind)) = cut_at(b"answer", bytes) else {
        return Err(no_answer(alloc, bytes));
    };
    match trace_of(alloc, front) {
        Ok(trace) => Ok((trace, behind)),
        Err(fault) => Err(fault),
    }
}

/// What is wanted behind these bytes: the line `history`, or the end of their last line.
fn wanted_behind(bytes: &[u8]) -> Why
    ensures { result ≡ wanted_behind bytes.now }
{
    match bytes.last() {
        Some(byte) if *byte != b'\n' => Why::EndOfLine,
        _ => Why::HistoryWanted,
    }
}

/// What is wanted where these bytes begin: an entry, or the end of the line.
fn wanted_at(bytes: &[u8]) -> Why
    ensures { result ≡ wanted_at (parts 10 bytes.now) }
{
    match line_at(bytes) {
        Some(_) => Why::EntryWanted,
        None => Why::EndOfLine,
    }
}

/// The fault of a line behind the line `history` that is none of an entry, where these bytes begin with it, of all bytes.
fn no_entry(bytes: &[u8], from_it: &[u8]) -> TraceFault
    requires few { length bytes.now ≤ most_bytes }
    requires part { (before : List ℕ) × (bytes.now ≡ before ++ from_it.now) }
    ensures { (line_number : ℕ) × ((before : List ℕ) × (result ≡ TraceFault.BadLine line_number (wanted_at (parts 10 from_it.now))) × (bytes.now ≡ before ++ from_it.now) × (line_number ≡ last_line before)) }
{
    let before = &bytes[..bytes.len() - from_it.len()];
    TraceFault::BadLine {
        line: last_line(before),
        why: wanted_at(from_it),
    }
}

/// What is claimed behind the line `answer`, of all bytes: the body, and the history of a version and of so many threads.
fn claims_in(
    alloc: Global,
    version: u32,
    threads: u32,
    bytes: &[u8],
    behind: &[u8],
) -> Result<(Body, History), TraceFault>
    requires few { length bytes.now ≤ most_bytes }
    requires part { (before : List ℕ) × (bytes.now ≡ before ++ behind.now) }
    ensures ok { IfOk result (λ claims. HasClaims version threads behind.now claims.0 claims.1.list) }
    ensures fault { IfErr result IsTextFault }
    ensures bad_line { (line_number : ℕ) (why : Cause) → result ≡ Err (TraceFault.BadLine line_number why) → LacksHistory bytes.now behind.now line_number why ⊎ LacksEntry version threads bytes.now behind.now line_number why }
{
    let Some((body, claimed)) = cut_at(b"history", behind) else {
        return Err(TraceFault::BadLine {
            line: last_line(bytes),
            why: wanted_behind(behind),
        });
    };
    let Ok((history, rest)) = entries_in(alloc, version, threads, claimed) else {
        return Err(TraceFault::NoMemory);
    };
    if !rest.is_empty() {
        return Err(no_entry(bytes, rest));
    }
    match Body::of(alloc, body) {
        Ok(body) => Ok((body, history)),
        Err(_) => Err(TraceFault::NoMemory),
    }
}

/// The pair that these bytes spell.
fn pair_of(alloc: Global, bytes: &[u8]) -> Result<Pair, TraceFault>
    requires { length bytes.now ≤ most_bytes }
    ensures ok { IfOk result (λ pair. IsPair bytes.now pair.trace.version pair.trace.config pair.trace.scripts pair.trace.schedule pair.body pair.history.list) }
    ensures fault { IfErr result IsTextFault }
    ensures bad_line { (line_number : ℕ) (why : Cause) → result ≡ Err (TraceFault.BadLine line_number why) → IsPairRefused bytes.now line_number why }
{
    let (trace, behind) = match trace_before(alloc, bytes) {
        Ok(taken) => taken,
        Err(fault) => return Err(fault),
    };
    let threads = trace.config.mutators() as u32;
    match claims_in(alloc, trace.version, threads, bytes, behind) {
        Ok((body, history)) => Ok(Pair {
            trace,
            body,
            history,
        }),
        Err(fault) => Err(fault),
    }
}

/// Reads a trace, and the answer and the history that somebody claims for it. It reads to the end of the source, or until one
/// byte more came than such a text may have, and then looks at the lines: those of the trace, the line `answer`, those of the
/// body, the line `history`, and those of the entries. What is refused is the first line that is at fault.
pub fn read_pair<S: Source>(alloc: Global, source: &mut S) -> Result<Pair, TraceFault>
    ensures ok { IfOk result (λ pair. (bytes : List ℕ) × Came (S.left source.old) (S.left source.new) bytes
        × IsPair bytes pair.trace.version pair.trace.config pair.trace.scripts pair.trace.schedule pair.body pair.history.list) }

    // The bytes came whole, and are refused at that line and for that cause.
    ensures bad_line { (line_number : ℕ) (why : Cause) → result ≡ Err (TraceFault.BadLine line_number why) → (bytes : List ℕ) × Came (S.left source.old) (S.left source.new) bytes × IsPairRefused bytes line_number why }

    ensures too_long { (byte_count : ℕ) → result ≡ Err (TraceFault.TooLong byte_count) → (byte_count ≡ most_bytes + 1)
        × ((bytes : List ℕ) × Consumes (S.left source.old) (S.left source.new) bytes × (length bytes ≡ most_bytes + 1)) }
    ensures read_fault { result ≡ Err TraceFault.ReadFault → Rose (S.faults source.old) (S.faults source.new) }
    ensures faults_never_fall { S.faults source.old ≤ S.faults source.new }

    // In every outcome the source is called at most once for each byte that it gives, and once for the end or the fault.
    ensures few_calls { HasFewCalls (S.left source.old) (S.left source.new) (S.calls source.old) (S.calls source.new) }
{
    let bytes = all_bytes(alloc, source)?;
    pair_of(alloc, &bytes)
}
