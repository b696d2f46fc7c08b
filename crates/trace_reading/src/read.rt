//! Reading a trace.
ghost use Rattle.std.specs.Prelude.{false, ◌≡◌, ◌≢◌, ◌↔◌, ℕ, ◌+◌, ◌^◌, ◌<◌, ◌≤◌, List, [], ◌++◌, Err, length, take, Some, IfSome, IfNone, IfOk, IfErr, IsTrue};
ghost use Rattle.std.specs.Option.{option_map};
ghost use Rattle.std.specs.Io.KnownBytes.{Consumes};
ghost use Rattle.shen_base.specs.Count.{Rose};
ghost use Rattle.heap_words.specs.Narrow.{IsNarrow};
ghost use Rattle.trace_reading.specs.Spelling.{TraceLine, IsVersion, IsLine, line, header};
ghost use Rattle.trace_reading.specs.Scanning.{sizes_at};
ghost use Rattle.trace_reading.specs.Front.{IsBehindCommands};
ghost use Rattle.trace_reading.specs.Grammar.{most_bytes, with_line, scripts_of, HasReadLines, Reads, HasNoHead, Came};
ghost use Rattle.trace_reading.specs.declared.why.Why.{Why as Cause};
ghost use Rattle.trace_reading.specs.Causes.{parts};
ghost use Rattle.trace_reading.specs.Refused.{body_stage, cause_of, StopsAt, Refused};
ghost use Rattle.trace_reading.specs.Calls.{HasFewCalls};
ghost use Rattle.trace_reading.specs.Stops.{HasReadBody, StopsBody, StopsCommands};
ghost use Rattle.trace_reading.specs.Faults.{IsTextFault};

use crate::fault::{NotTaken, TraceFault};
use crate::line::line_at;
use crate::schedule_lines::take_schedule;
use crate::source_bytes::all_bytes;
use crate::{Scripts, Trace, body_refusal, head_refusal, numbers_at, positive_at, text_at};
use heap_words::{Config, Schedule};
use shen_base::Source;
use shen_graph::Script;
use std::alloc::Global;

/// The numbers at the head of a trace: its version, those of its heap, and those of its threads.
#[derive(Clone, Copy)]
struct HeadNumbers {
    version: u64,
    heap: [u64; 4],
    threads: [u64; 4],
}

/// The numbers at the head of a trace, and the bytes behind its three lines.
#[tactic(auto, unfolding(crate::specs::Scanning::sizes_at))]
fn sizes_at(bytes: &[u8]) -> Option<(HeadNumbers, &[u8])>
    ensures { option_map (λ x. (record { version = x.0.version; heap = take 3 x.0.heap; threads = take 2 x.0.threads }, x.1.now)) result ≡ sizes_at bytes.now }
{
    let rest = text_at(b"shen ", bytes)?;
    let (version, rest) = positive_at(2, rest)?;
    let rest = text_at(b"\nheap", rest)?;
    let (heap, rest) = numbers_at(&[64, 1024, 63], rest)?;
    let rest = text_at(b"\nthreads", rest)?;
    let (threads, rest) = numbers_at(&[8, 3], rest)?;
    let rest = text_at(b"\n", rest)?;
    let numbers = HeadNumbers {
        version,
        heap,
        threads,
    };
    Some((numbers, rest))
}

/// The version and the configuration at the head of a trace, and the bytes behind its three lines.
pub fn head_at(bytes: &[u8]) -> Option<(u32, Config, &[u8])>
    ensures found { IfSome result (λ head. bytes.now ≡ header head.0 head.1 ++ head.2.now) }
    ensures known { IfSome result (λ head. IsVersion head.0) }
    ensures narrow { IfSome result (λ head. IsNarrow head.1) }
    ensures none { IfNone result (HasNoHead bytes.now) }
{
    let (numbers, rest) = sizes_at(bytes)?;
    let [regions, region_words, reserve, _] = numbers.heap;
    let [mutators, helpers, _, _] = numbers.threads;
    match Config::new(
        regions as usize,
        region_words as usize,
        mutators as usize,
        helpers as usize,
        reserve as usize,
    ) {
        Ok(config) => Some((numbers.version as u32, config, rest)),
        Err(_) => None,
    }
}

/// Takes one line, and adds its command to the script of its thread.
fn take_line<'a>(
    alloc: Global,
    version: u32,
    threads: u32,
    bytes: &'a [u8],
    scripts: &mut Vec<Script>,
) -> Result<&'a [u8], NotTaken>
    requires { length scripts.old.items ≡ threads }
    ensures ok { IfOk result (λ rest. (trace_line : TraceLine) × IsLine version threads trace_line × (bytes.now ≡ line trace_line ++ rest.now) × (scripts.new.items ≡ with_line scripts.old.items trace_line)) }
    ensures refused { result ≡ Err NotTaken.Refused → (trace_line : TraceLine) (rest : List ℕ) → IsLine version threads trace_line → bytes.now ≢ line trace_line ++ rest }
{
    let Some((thread, command, rest)) = line_at(version, threads, bytes) else {
        return Err(NotTaken::Refused);
    };
    match scripts[thread as usize - 1].push(alloc, command) {
        Ok(()) => Ok(rest),
        Err(_) => Err(NotTaken::NoMemory),
    }
}

/// Whether no line of a command begins here: the bytes end, or a line of the schedule follows.
fn is_behind_commands(bytes: &[u8]) -> bool
    ensures { IsTrue result ↔ IsBehindCommands bytes.now }
{
    match bytes {
        [first, ..] => *first == b'!',
        [] => true,
    }
}

/// Takes all lines of commands, the first of which has this number, and returns the number of the line behind them and the
/// bytes from it on.
fn take_lines<'a>(
    alloc: Global,
    version: u32,
    config: &Config,
    first: u64,
    bytes: &'a [u8],
    scripts: &mut Vec<Script>,
) -> Result<(u64, &'a [u8]), TraceFault>
    requires scripts { scripts.old.items ≡ scripts_of config.now.mutators [] }
    requires few { first + length bytes.now < 2 ^ 64 }
    ensures ok { IfOk result (λ reached. (taken : HasReadLines version config.now.mutators bytes.now reached.1.now scripts.new.items) × (reached.0 ≡ first + length taken.lines)) }
    ensures behind { IfOk result (λ reached. IsBehindCommands reached.1.now) }
    ensures fault { IfErr result IsTextFault }
    ensures bad_line { (line_number : ℕ) (why : Cause) → result ≡ Err (TraceFault.BadLine line_number why) → StopsCommands version config.now first bytes.now line_number why }
{
    let threads = config.mutators() as u32;
    let mut rest = bytes;
    let mut line = first;
    'lines: while !is_behind_commands(rest) {
        rest = match take_line(alloc, version, threads, rest, scripts) {
            Ok(behind) => behind,
            Err(NotTaken::NoMemory) => return Err(TraceFault::NoMemory),
            Err(NotTaken::Refused) => return Err(bad_command(version, config, line, rest)),
        };
        line += 1;
    }
    Ok((line, rest))
}

/// The fault of bytes that do not begin with a line of a command of the version, where this is line `number`.
fn bad_command(version: u32, config: &Config, number: u64, bytes: &[u8]) -> TraceFault
    requires some { IsBehindCommands bytes.now → ⊥ }
    requires refused { (trace_line : TraceLine) (rest : List ℕ) → IsLine version config.now.mutators trace_line → bytes.now ≢ line trace_line ++ rest }
    ensures { (why : Cause) × (result ≡ TraceFault.BadLine number why) × (cause_of (body_stage version config.now false) (parts 10 bytes.now) ≡ Some why) }
{
    let why = body_refusal(version, config, false, bytes).unwrap();
    TraceFault::BadLine { line: number, why }
}

/// The fault of bytes that do not begin with the head of a trace.
fn bad_head(bytes: &[u8]) -> TraceFault
    requires { HasNoHead bytes.now }
    ensures { (line_number : ℕ) × (why : Cause) × (result ≡ TraceFault.BadLine line_number why) × StopsAt bytes.now line_number why }
{
    let refusal = head_refusal(bytes).unwrap();
    TraceFault::BadLine {
        line: refusal.line,
        why: refusal.why,
    }
}

/// A script without a command for each of so many threads.
fn empty_scripts(alloc: Global, threads: u32) -> Result<Vec<Script>, TraceFault>
    ensures ok { IfOk result (λ scripts. scripts.items ≡ scripts_of threads []) }
    ensures fault { IfErr result (λ fault. fault ≡ TraceFault.NoMemory) }
{
    let mut scripts = Vec::new(alloc);
    for _ in 0..threads {
        let Ok(script) = Script::open(alloc) else {
            return Err(TraceFault::NoMemory);
        };
        if scripts.push(script).is_err() {
            return Err(TraceFault::NoMemory);
        }
    }
    Ok(scripts)
}

/// The trace that these bytes spell; or the first line that is refused, or `NoMemory`.
pub fn trace_of(alloc: Global, bytes: &[u8]) -> Result<Trace, TraceFault>
    requires { length bytes.now ≤ most_bytes }
    ensures ok { IfOk result (λ trace. Reads bytes.now trace.version trace.config trace.scripts trace.schedule) }
    ensures fault { IfErr result IsTextFault }
    ensures bad_line { (line_number : ℕ) (why : Cause) → result ≡ Err (TraceFault.BadLine line_number why) → Refused bytes.now line_number why }
{
    let Some((version, config, rest)) = head_at(bytes) else {
        return Err(bad_head(bytes));
    };
    trace_behind(alloc, version, config, 4, rest)
}

/// The trace of this version and configuration whose lines of commands and of a schedule these bytes are. The first of the lines
/// has this number.
pub fn trace_behind(
    alloc: Global,
    version: u32,
    config: Config,
    first: u64,
    bytes: &[u8],
) -> Result<Trace, TraceFault>
    requires { first + length bytes.now < 2 ^ 64 }
    ensures version { IfOk result (λ trace. trace.version ≡ version) }
    ensures config { IfOk result (λ trace. trace.config ≡ config) }
    ensures ok { IfOk result (λ trace. HasReadBody version config bytes.now trace.scripts trace.schedule) }
    ensures fault { IfErr result IsTextFault }
    ensures bad_line { (line_number : ℕ) (why : Cause) → result ≡ Err (TraceFault.BadLine line_number why) → StopsBody version config first bytes.now line_number why }
{
    let mut scripts = empty_scripts(alloc, config.mutators() as u32)?;
    let Ok(mut schedule) = Schedule::open(alloc) else {
        return Err(TraceFault::NoMemory);
    };
    let (line, turns) = take_lines(alloc, version, &config, first, bytes, &mut scripts)?;
    take_schedule(alloc, version, &config, line, turns, &mut schedule)?;
    Ok(Trace {
        version,
        config,
        scripts: Scripts::from_vec(scripts),
        schedule,
    })
}

/// Reads a trace. It reads to the end of the source, or until one byte more came than a trace may have, and then looks at
/// the lines.
pub fn read_trace<S: Source>(alloc: Global, source: &mut S) -> Result<Trace, TraceFault>
    ensures ok { IfOk result (λ trace. (bytes : List ℕ) × Came (S.left source.old) (S.left source.new) bytes × Reads bytes trace.version trace.config trace.scripts trace.schedule) }

    // The bytes came whole, and are refused at that line and for that cause.
    ensures bad_line { (line_number : ℕ) (why : Cause) → result ≡ Err (TraceFault.BadLine line_number why) → (bytes : List ℕ) × Came (S.left source.old) (S.left source.new) bytes × Refused bytes line_number why }

    ensures too_long { (byte_count : ℕ) → result ≡ Err (TraceFault.TooLong byte_count) → (byte_count ≡ most_bytes + 1)
        × ((bytes : List ℕ) × Consumes (S.left source.old) (S.left source.new) bytes × (length bytes ≡ most_bytes + 1)) }
    ensures read_fault { result ≡ Err TraceFault.ReadFault → Rose (S.faults source.old) (S.faults source.new) }
    ensures faults_never_fall { S.faults source.old ≤ S.faults source.new }

    // In every outcome the source is called at most once for each byte that it gives, and once for the end or the fault.
    ensures few_calls { HasFewCalls (S.left source.old) (S.left source.new) (S.calls source.old) (S.calls source.new) }
{
    let bytes = all_bytes(alloc, source)?;
    trace_of(alloc, &bytes)
}
