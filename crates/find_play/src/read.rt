//! Reading a test.
ghost use Rattle.std.specs.Prelude.{◌≡◌, ℕ, ◌+◌, ◌≤◌, List, [], ◌++◌, Err, Some, length, vec_len, IfOk, OnOk, IfErr};
ghost use Rattle.std.specs.Io.KnownBytes.{Consumes};
ghost use Rattle.shen_base.specs.Count.{Rose};
ghost use Rattle.trace_reading.specs.Spelling.{header};
ghost use Rattle.trace_reading.specs.Grammar.{most_bytes, HasNoHead, Came};
ghost use Rattle.trace_reading.specs.declared.why.Why.{Why as Cause};
ghost use Rattle.trace_reading.specs.Causes.{parts};
ghost use Rattle.trace_reading.specs.Refused.{StopsAt};
ghost use Rattle.trace_reading.specs.Calls.{HasFewCalls};
ghost use Rattle.find_play.specs.declared.fault.TestWhy.{TestWhy as Said};
ghost use Rattle.find_play.specs.TestFaults.{IsLineFault, IsTraceRefusal};
ghost use Rattle.find_play.specs.Told.{told_in, untold};
ghost use Rattle.find_play.specs.Lines.{line_in};
ghost use Rattle.find_play.specs.Tests.{TestLineFollows, test_said, test_end_cause, LineStops, StopsBehind, HasToldLines, HasToldLine, IsWholeTest, IsTestBody, IsTest, RefusesTest};

use crate::draft::Draft;
use crate::fault::{TestFault, TestWhy};
use crate::line::line_in;
use crate::{Bounds, Test};
use heap_words::Config;
use shen_base::Source;
use std::alloc::Global;
use trace_reading::{TraceFault, Why, all_bytes, head_at, head_refusal, line_at};

/// The fault of bytes that do not begin with the head of a test.
fn bad_head(bytes: &[u8]) -> TestFault
    requires { HasNoHead bytes.now }
    ensures { (line_number : ℕ) × (why : Cause) × (result ≡ TestFault.BadLine line_number (TestWhy.Trace why)) × StopsAt bytes.now line_number why }
{
    let refusal = head_refusal(bytes).unwrap();
    TestFault::BadLine {
        line: refusal.line,
        why: TestWhy::Trace(refusal.why),
    }
}

/// Takes a line, which is line `line`, given without its end.
fn take_text(alloc: Global, draft: &mut Draft, line: u64, text: &[u8]) -> Result<(), TestFault>
    ensures ok { OnOk result (TestLineFollows (told_in draft.old) text.now (told_in draft.new)) }
    ensures fault { IfErr result IsLineFault }
    ensures bad_line { (line_number : ℕ) (why : Said) → result ≡ Err (TestFault.BadLine line_number why) → (line_number ≡ line) × (line_in (told_in draft.old) (parts 32 text.now) ≡ Err why) }
{
    match line_in(draft, text) {
        Ok(read) => match draft.take(alloc, read) {
            Ok(()) => Ok(()),
            Err(_) => Err(TestFault::NoMemory),
        },
        Err(why) => Err(TestFault::BadLine { line, why }),
    }
}

/// Takes the line at the front, which is line `line`, and returns the bytes behind it.
fn take_line<'a>(
    alloc: Global,
    draft: &mut Draft,
    line: u64,
    bytes: &'a [u8],
) -> Result<&'a [u8], TestFault>
    requires { 1 ≤ length bytes.now }
    ensures shorter { IfOk result (λ rest. length rest.now + 1 ≤ length bytes.now) }
    ensures ok { IfOk result (λ rest. HasToldLine (told_in draft.old) bytes.now rest.now (told_in draft.new)) }
    ensures fault { IfErr result IsLineFault }
    ensures bad_line { (line_number : ℕ) (why : Said) → result ≡ Err (TestFault.BadLine line_number why) → (line_number ≡ line) × LineStops (told_in draft.old) (parts 10 bytes.now) why }
{
    match line_at(bytes) {
        Some((text, rest)) => {
            take_text(alloc, draft, line, text)?;
            Ok(rest)
        }
        None => {
            let why = TestWhy::Trace(Why::EndOfLine);
            Err(TestFault::BadLine { line, why })
        }
    }
}

/// Takes all lines behind the head, the first of which is line 4, and returns the number of the line behind them.
fn take_lines(alloc: Global, draft: &mut Draft, bytes: &[u8]) -> Result<u64, TestFault>
    requires { length bytes.now ≤ most_bytes }
    ensures ok { IfOk result (λ line. HasToldLines (told_in draft.old) 4 bytes.now [] line (told_in draft.new)) }
    ensures fault { IfErr result IsLineFault }
    ensures bad_line { (line_number : ℕ) (why : Said) → result ≡ Err (TestFault.BadLine line_number why) → StopsBehind (told_in draft.old) 4 bytes.now line_number why }
{
    let mut rest = bytes;
    let mut line = 4;
    'lines: while !rest.is_empty() {
        rest = take_line(alloc, draft, line, rest)?;
        line += 1;
    }
    Ok(line)
}

/// The test of a draft whose next line would be line `line`.
fn finish(config: Config, draft: Draft, line: u64) -> Result<Test, TestFault>
    ensures ok { IfOk result (λ test. IsWholeTest config (told_in draft) (test_said test)) }
    ensures config { IfOk result (λ test. test.config ≡ config) }
    ensures version { IfOk result (λ test. test.version ≡ draft.version) }
    ensures threads { IfOk result (λ test. vec_len test.programs ≡ draft.threads) }
    ensures bad_line { (line_number : ℕ) (why : Said) → result ≡ Err (TestFault.BadLine line_number why) → (line_number ≡ line) × (test_end_cause (told_in draft) [] ≡ Some why) }
    ensures fault { IfErr result IsLineFault }
{
    let whole = draft.is_whole();
    let why = TestWhy::More;
    match draft.bounds {
        Some(bounds) if whole => Ok(Test {
            version: draft.version,
            config,
            bounds,
            programs: draft.programs,
            notes: draft.notes,
            place_names: draft.place_names,
            places: draft.places,
            claims: draft.claims,
        }),
        _ => Err(TestFault::BadLine { line, why }),
    }
}

/// The test of this version and configuration whose lines behind the head these bytes are.
fn body_of(alloc: Global, version: u32, config: Config, bytes: &[u8]) -> Result<Test, TestFault>
    requires { length bytes.now ≤ most_bytes }
    ensures ok { IfOk result (λ test. IsTestBody version config bytes.now (test_said test)) }
    ensures version { IfOk result (λ test. test.version ≡ version) }
    ensures config { IfOk result (λ test. test.config ≡ config) }
    ensures threads { IfOk result (λ test. vec_len test.programs ≡ config.mutators) }
    ensures bad_line { (line_number : ℕ) (why : Said) → result ≡ Err (TestFault.BadLine line_number why) → StopsBehind (untold version config.mutators) 4 bytes.now line_number why }
    ensures fault { IfErr result IsLineFault }
{
    let Ok(mut draft) = Draft::open(alloc, version, config.mutators()) else {
        return Err(TestFault::NoMemory);
    };
    let line = take_lines(alloc, &mut draft, bytes)?;
    finish(config, draft, line)
}

/// The test that these bytes spell; or the first line that is refused, or `NoMemory`.
pub fn test_of(alloc: Global, bytes: &[u8]) -> Result<Test, TestFault>
    requires { length bytes.now ≤ most_bytes }
    ensures ok { IfOk result (λ test. IsTest bytes.now (test_said test)) }
    ensures refused { (line_number : ℕ) (why : Said) → result ≡ Err (TestFault.BadLine line_number why) → RefusesTest bytes.now line_number why }
    ensures head { IfOk result (λ test. (rest : List ℕ) × (bytes.now ≡ header test.version test.config ++ rest)) }
    ensures threads { IfOk result (λ test. vec_len test.programs ≡ test.config.mutators) }
    ensures fault { IfErr result IsLineFault }

    // Bytes without a head are refused where a trace would be, for the same cause.
    ensures bad_head { HasNoHead bytes.now → (line_number : ℕ) × (why : Cause) × (result ≡ Err (TestFault.BadLine line_number (TestWhy.Trace why))) × StopsAt bytes.now line_number why }
    ensures bad_line { (line_number : ℕ) (why : Said) → result ≡ Err (TestFault.BadLine line_number why) → IsTraceRefusal bytes.now line_number why }
{
    match head_at(bytes) {
        Some((version, config, rest)) => body_of(alloc, version, config, rest),
        None => Err(bad_head(bytes)),
    }
}

/// Reads a test. It reads to the end of the source, or until one byte more came than a test may have, and then looks at
/// the lines.
pub fn read_test<S: Source>(alloc: Global, source: &mut S) -> Result<Test, TestFault>
    ensures ok { IfOk result (λ test. (bytes : List ℕ) × Came (S.left source.old) (S.left source.new) bytes × IsTest bytes (test_said test)) }

    // The bytes came whole, and are refused at that line and for that cause.
    ensures refused { (line_number : ℕ) (why : Said) → result ≡ Err (TestFault.BadLine line_number why) → (bytes : List ℕ) × Came (S.left source.old) (S.left source.new) bytes × RefusesTest bytes line_number why }

    ensures head { IfOk result (λ test. (bytes : List ℕ) × Came (S.left source.old) (S.left source.new) bytes × (rest : List ℕ) × (bytes ≡ header test.version test.config ++ rest)) }
    ensures threads { IfOk result (λ test. vec_len test.programs ≡ test.config.mutators) }

    // The bytes came whole; and where they have no head, a trace would be refused at that line and for that cause.
    ensures bad_line { (line_number : ℕ) (why : Said) → result ≡ Err (TestFault.BadLine line_number why)
        → (bytes : List ℕ) × Came (S.left source.old) (S.left source.new) bytes × (length bytes ≤ most_bytes) × IsTraceRefusal bytes line_number why }

    ensures too_long { (byte_count : ℕ) → result ≡ Err (TestFault.TooLong byte_count) → (byte_count ≡ most_bytes + 1)
        × ((bytes : List ℕ) × Consumes (S.left source.old) (S.left source.new) bytes × (length bytes ≡ most_bytes + 1)) }
    ensures read_fault { result ≡ Err TestFault.ReadFault → Rose (S.faults source.old) (S.faults source.new) }
    ensures faults_never_fall { S.faults source.old ≤ S.faults source.new }
    ensures few_calls { HasFewCalls (S.left source.old) (S.left source.new) (S.calls source.old) (S.calls source.new) }
{
    match all_bytes(alloc, source) {
        Ok(bytes) => test_of(alloc, &bytes),
        Err(TraceFault::TooLong { bytes }) => Err(TestFault::TooLong { bytes }),
        Err(TraceFault::ReadFault) => Err(TestFault::ReadFault),
        Err(_) => Err(TestFault::NoMemory),
    }
}
