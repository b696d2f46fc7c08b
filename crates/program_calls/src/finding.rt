//! The top call: words and a test in, a trace and a report out.
ghost use Rattle.std.specs.Prelude.{◌≡◌, ◌⊎◌, IfOk, OnOk, OnErr};
ghost use Rattle.std.specs.Io.KnownBytes.{Appends};
ghost use Rattle.shen_base.specs.Count.{Rose};
ghost use Rattle.shen_base.specs.Sending.{outlet};
ghost use Rattle.program_calls.specs.FaultLines.{refusal_text, refusal_status};
ghost use Rattle.program_calls.specs.FindTellings.{status_of, Reports, HasSearched, StatusTells};

use crate::find_status::Status;
use crate::report::{write_bad_line, write_report};
use crate::words::{Asked, asked_by};
use find_play::{Test, TestFault, Verdict, read_test};
use find_search::{Break, Hunted, hunt};
use heap_words::NoMemory;
use shen_base::{Sink, Source, WriteFault, write_all};
use std::alloc::Global;

/// The most steps of a replay, as many as `shenrun replay` makes where its words do not say.
const STEPS: u64 = 100_000_000;

// Writes the line that says why no test was read.
fn refuse<E: Sink>(errors: &mut E, fault: TestFault) -> Result<Status, WriteFault>
    ensures status { IfOk result (λ status. status ≡ refusal_status fault) }
    ensures text { OnOk result (Appends (E.written errors.old) (E.written errors.new) (refusal_text fault)) }
    ensures fault { OnErr result (Rose (E.faults errors.old) (E.faults errors.new)) }
{
    match fault {
        TestFault::BadLine { line, why } => {
            write_bad_line(errors, line, why)?;
            Ok(Status::BadTest)
        }
        TestFault::TooLong { .. } => {
            write_all(errors, b"too long: more than 16777216 bytes\n")?;
            Ok(Status::BadTest)
        }
        TestFault::ReadFault => {
            write_all(errors, b"read fault\n")?;
            Ok(Status::ReadFault)
        }
        TestFault::NoMemory => {
            write_all(errors, b"out of memory\n")?;
            Ok(Status::NoMemory)
        }
    }
}

// The status of a verdict.
fn status_of(verdict: Verdict) -> Status
    ensures { result ≡ status_of verdict }
{
    match verdict {
        Verdict::Holds => Status::Holds,
        Verdict::Fails(_) => Status::Fails,
        Verdict::Stuck(_) => Status::Stuck,
    }
}

// Writes a trace that breaks the test, and the report on the search.
fn give<K: Sink, E: Sink>(
    hunted: &Hunted,
    broken: &Break,
    sink: &mut K,
    errors: &mut E,
) -> Result<Status, WriteFault>
    ensures status { IfOk result (λ status. status ≡ status_of broken.now.verdict) }
    ensures written { OnOk result (Appends (K.written sink.old) (K.written sink.new) broken.now.text.items) }
    ensures reports { OnOk result (Reports broken.now.verdict (E.written errors.old) (E.written errors.new)) }
    ensures fault { OnErr result (Rose (K.faults sink.old) (K.faults sink.new) ⊎ Rose (E.faults errors.old) (E.faults errors.new)) }
{
    write_all(sink, &broken.text)?;
    write_report(errors, &hunted.tally, broken.verdict, hunted.preemptions)?;
    Ok(status_of(broken.verdict))
}

// Searches a test, and tells what was found.
fn search<K: Sink, E: Sink>(
    alloc: Global,
    test: &Test,
    asked: Asked,
    sink: &mut K,
    errors: &mut E,
) -> Result<Status, WriteFault>
    ensures fits { IfOk result (λ status. HasSearched status test.now
        (record { before = outlet (K.written sink.old) (K.faults sink.old) (K.calls sink.old); after = outlet (K.written sink.new) (K.faults sink.new) (K.calls sink.new) })
        (record { before = outlet (E.written errors.old) (E.faults errors.old) (E.calls errors.old); after = outlet (E.written errors.new) (E.faults errors.new) (E.calls errors.new) })) }
    ensures fault { OnErr result (Rose (K.faults sink.old) (K.faults sink.new) ⊎ Rose (E.faults errors.old) (E.faults errors.new)) }
{
    let hunted = match hunt(alloc, test, asked.plan, asked.drawn, STEPS) {
        Ok(hunted) => hunted,
        Err(NoMemory) => {
            write_all(errors, b"out of memory\n")?;
            return Ok(Status::NoMemory);
        }
    };
    match &hunted.broken {
        Some(broken) => give(&hunted, broken, sink, errors),
        None if hunted.found => {
            write_all(errors, b"unfinished\n")?;
            Ok(Status::Unfinished)
        }
        None => {
            write_report(errors, &hunted.tally, Verdict::Holds, 0)?;
            Ok(Status::Holds)
        }
    }
}

// Reads a test, searches it as the words ask, and tells what was found.
fn told<S: Source, K: Sink, E: Sink>(
    alloc: Global,
    words: &[String],
    source: &mut S,
    sink: &mut K,
    errors: &mut E,
) -> Result<Status, WriteFault>
    ensures fits { IfOk result (λ status. StatusTells status
        (record { before = S.left source.old; after = S.left source.new; faults_before = S.faults source.old; faults_after = S.faults source.new })
        (record { before = outlet (K.written sink.old) (K.faults sink.old) (K.calls sink.old); after = outlet (K.written sink.new) (K.faults sink.new) (K.calls sink.new) })
        (record { before = outlet (E.written errors.old) (E.faults errors.old) (E.calls errors.old); after = outlet (E.written errors.new) (E.faults errors.new) (E.calls errors.new) })) }
    ensures fault { OnErr result (Rose (K.faults sink.old) (K.faults sink.new) ⊎ Rose (E.faults errors.old) (E.faults errors.new)) }
{
    let Some(asked) = asked_by(words) else {
        write_all(errors, b"bad words\n")?;
        return Ok(Status::BadWords);
    };
    match read_test(alloc, source) {
        Ok(test) => search(alloc, &test, asked, sink, errors),
        Err(fault) => refuse(errors, fault),
    }
}

/// Runs the program on these words of the command line, which are without the program's name: reads a test from the source to its end,
/// runs the schedules that the words ask for, writes the trace of the first that breaks the test, made short, into the sink, and what
/// was counted among the errors. Other words are refused before anything is read. Where nothing is searched, one line among the errors
/// says why; if that or anything else cannot be written, the status is `WriteFault`.
pub fn shenfind<S: Source, K: Sink, E: Sink>(
    alloc: Global,
    words: &[String],
    source: &mut S,
    sink: &mut K,
    errors: &mut E,
) -> Status
    // What each status says of what came and of what was written. Where it is `Fails` or `Stuck`, a test came whole, a trace of its heap
    // was written, and the verdict of the test on that trace's own replay, whose history is legal and in which each thread gives the
    // commands that its program means, is that one; the report's last line names it.
    ensures fits { StatusTells result
        (record { before = S.left source.old; after = S.left source.new; faults_before = S.faults source.old; faults_after = S.faults source.new })
        (record { before = outlet (K.written sink.old) (K.faults sink.old) (K.calls sink.old); after = outlet (K.written sink.new) (K.faults sink.new) (K.calls sink.new) })
        (record { before = outlet (E.written errors.old) (E.faults errors.old) (E.calls errors.old); after = outlet (E.written errors.new) (E.faults errors.new) (E.calls errors.new) }) }
{
    match told(alloc, words, source, sink, errors) {
        Ok(status) => status,
        Err(WriteFault) => Status::WriteFault,
    }
}
