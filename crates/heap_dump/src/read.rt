//! Reading a dump and what is to run from it.
ghost use Rattle.std.specs.Prelude.{◌≡◌, ◌≢◌, ◌⊎◌, ◌+◌, ◌^◌, ◌<◌, ◌≤◌, ℕ, List, [], ◌∷◌, ◌++◌, Err, length, IfOk, IfErr, map};
ghost use Rattle.std.specs.Io.KnownBytes.{Consumes};
ghost use Rattle.shen_base.specs.Count.{Rose};
ghost use Rattle.heap_words.specs.declared.config.Config.{Config as Sizes};
ghost use Rattle.shen_graph.specs.Graph.{Reference};
ghost use Rattle.shen_graph.specs.GraphText.{names_of};
ghost use Rattle.shen_graph.specs.Reach.{InOrder, IsReach};
ghost use Rattle.trace_reading.specs.Causes.{parts};
ghost use Rattle.trace_reading.specs.Grammar.{most_bytes, Came};
ghost use Rattle.trace_reading.specs.declared.why.Why.{Why as Cause};
ghost use Rattle.trace_reading.specs.Calls.{HasFewCalls};
ghost use Rattle.trace_reading.specs.Faults.{IsTextFault};
ghost use Rattle.heap_dump.specs.Dumped.{Dumped, dumped};
ghost use Rattle.heap_dump.specs.DumpsToRun.{Resumes, run_version, mark_line};
ghost use Rattle.heap_dump.specs.DumpLines.{DumpRefused, Listed, Spells};
ghost use Rattle.heap_dump.specs.Steps.{IsStop};
ghost use Rattle.heap_dump.specs.Listing.{separators, listed, HasTakenRows, HasTakenRoots, NoObjectLine, IsHeldDump};
ghost use Rattle.heap_dump.specs.RowsReached.{graph_from};

use crate::Dump;
use crate::fields::take_object;
use crate::head::{take_config, take_counts};
use crate::line::{dump_wanted, line_at, line_of};
use crate::roots::take_roots;
use crate::whole::is_whole;
use shen_base::Source;
use shen_graph::GraphText;
use std::alloc::Global;
use trace_reading::{Trace, TraceFault, all_bytes, trace_behind};

/// The version of the lines of commands behind a dump.
const RUN_VERSION: u32 = 2;

/// A dump, and what is to run from it.
#[derive(Drop)]
pub struct Resumed {
    /// The heap to begin with.
    pub dump: Dump,
    /// What each thread is to run then, and the schedule. Its version is 2, and its configuration that of the dump.
    pub trace: Trace,
}

/// The spaces and the ends of lines among these bytes. The words of room that the objects need which the bytes list are at most as
/// many.
fn separators(bytes: &[u8]) -> usize
    ensures { result ≡ separators bytes.now }
{
    let mut count: usize = 0;
    for byte in bytes {
        if *byte == b' ' || *byte == b'\n' {
            count += 1;
        }
    }
    count
}

/// Takes the lines of objects, the first of which is line 5, and adds their rows to a graph without any. Returns how many lines were
/// taken, and the bytes behind them.
fn take_objects<'a>(
    counts: &[u32],
    bytes: &'a [u8],
    graph: &mut GraphText,
) -> Result<(u64, &'a [u8]), TraceFault>
    requires counts { length counts.now ≤ 8 }
    requires few { 5 + length bytes.now < 2 ^ 64 }
    requires empty { graph.old.rows ≡ [] }
    requires room { separators bytes.now ≤ graph.old.spare }
    ensures ok { IfOk result (λ taken. HasTakenRows counts.now bytes.now taken.1.now taken.0 graph.old graph.new) }
    ensures behind { IfOk result (λ taken. NoObjectLine taken.1.now) }
    ensures err { IfErr result (λ fault. (config : Sizes) → IsStop (Listed (listed config counts.now [] [])) 5 bytes.now fault) }
{
    let mut rest = bytes;
    let mut lines = 0;
    'objects: while let Some((words, behind)) = line_of(b"object", rest) {
        if !take_object(counts, words, graph) {
            return Err(dump_wanted(5 + lines));
        }
        rest = behind;
        lines += 1;
    }
    Ok((lines, rest))
}

/// Takes the lines of the roots of all threads, the first of which has this number. Returns the bytes behind them.
fn take_all_roots<'a>(
    first: u64,
    bytes: &'a [u8],
    graph: &mut GraphText,
) -> Result<&'a [u8], TraceFault>
    requires threads { (1 ≤ length graph.old.roots) × (length graph.old.roots ≤ 8) }
    requires few { first + length bytes.now < 2 ^ 64 }
    requires object { NoObjectLine bytes.now }
    ensures ok { IfOk result (λ rest. (all : List (List Reference)) × HasTakenRoots bytes.now rest.now (length graph.old.roots) graph.old graph.new all × (length all ≡ length graph.old.roots)) }
    ensures err { IfErr result (λ fault. (dump : Dumped) → dump.roots ≡ [] → dump.config.mutators ≡ length graph.old.roots → IsStop (Listed dump) first bytes.now fault) }
{
    let mut rest = bytes;
    for mutator in 0..graph.mutators() {
        let line = first + mutator as u64;
        let (text, behind) = line_at(line, rest)?;
        if !take_roots(mutator as u32 + 1, text, graph) {
            return Err(dump_wanted(line));
        }
        rest = behind;
    }
    Ok(rest)
}

/// Takes the line `trace`, of this number, behind a whole dump. Returns the bytes behind it.
fn take_mark<'a>(
    alloc: Global,
    line: u64,
    bytes: &'a [u8],
    graph: &GraphText,
) -> Result<&'a [u8], TraceFault>
    requires order { InOrder (names_of graph.now) }
    requires few { length graph.now.roots ≤ 8 }
    ensures ok { IfOk result (λ rest. (text : List ℕ) × (parts 10 bytes.now ≡ text ∷ parts 10 rest.now) × Spells text mark_line × IsReach (graph_from graph.now) (names_of graph.now)) }
    ensures err { IfErr result (λ fault. (fault ≡ TraceFault.NoMemory) ⊎ ((dump : Dumped) → IsHeldDump dump graph.now → dump.roots ≢ [] → IsStop (Listed dump) line bytes.now fault)) }
{
    let (text, behind) = line_at(line, bytes)?;
    if text == b"trace".as_slice() {
        match is_whole(alloc, graph) {
            Ok(true) => Ok(behind),
            Ok(false) => Err(dump_wanted(line)),
            Err(_) => Err(TraceFault::NoMemory),
        }
    } else {
        Err(dump_wanted(line))
    }
}

/// The dump and the trace that these bytes spell.
fn resumed_of(alloc: Global, bytes: &[u8]) -> Result<Resumed, TraceFault>
    requires { length bytes.now ≤ most_bytes }
    ensures version { IfOk result (λ resumed. resumed.trace.version ≡ run_version) }
    ensures config { IfOk result (λ resumed. resumed.trace.config ≡ resumed.dump.config) }
    ensures ok { IfOk result (λ resumed. Resumes bytes.now (dumped resumed.dump.config resumed.dump.counts resumed.dump.graph) resumed.trace.scripts resumed.trace.schedule) }
    ensures fault { IfErr result IsTextFault }
    ensures bad_line { (line_number : ℕ) (why : Cause) → result ≡ Err (TraceFault.BadLine line_number why) → DumpRefused bytes.now line_number why }
{
    let (config, rest) = take_config(bytes)?;
    let (counts, rest) = take_counts(alloc, config.mutators(), rest)?;
    let Ok(mut graph) = GraphText::open(alloc, separators(rest), config.mutators()) else {
        return Err(TraceFault::NoMemory);
    };
    let (lines, rest) = take_objects(counts.list(), rest, &mut graph)?;
    let rest = take_all_roots(5 + lines, rest, &mut graph)?;
    let mark = 5 + lines + config.mutators() as u64;
    let rest = take_mark(alloc, mark, rest, &graph)?;
    let trace = trace_behind(alloc, RUN_VERSION, config, mark + 1, rest)?;
    Ok(Resumed {
        dump: Dump {
            config,
            counts,
            graph,
        },
        trace,
    })
}

/// Reads a dump, the line `trace`, and the lines of commands and of a schedule that are to run from it. It reads to the end of the source, or until one
/// byte more came than these may have together, and then looks at the lines.
pub fn read_dump<S: Source>(alloc: Global, source: &mut S) -> Result<Resumed, TraceFault>
    ensures version { IfOk result (λ resumed. resumed.trace.version ≡ run_version) }
    ensures config { IfOk result (λ resumed. resumed.trace.config ≡ resumed.dump.config) }
    ensures ok { IfOk result (λ resumed. (bytes : List ℕ) × Came (S.left source.old) (S.left source.new) bytes
        × Resumes bytes (dumped resumed.dump.config resumed.dump.counts resumed.dump.graph) resumed.trace.scripts resumed.trace.schedule) }

    // The bytes came whole, and are refused at that line and for that cause.
    ensures bad_line { (line_number : ℕ) (why : Cause) → result ≡ Err (TraceFault.BadLine line_number why) → (bytes : List ℕ) × Came (S.left source.old) (S.left source.new) bytes × DumpRefused bytes line_number why }

    ensures too_long { (byte_count : ℕ) → result ≡ Err (TraceFault.TooLong byte_count) → (byte_count ≡ most_bytes + 1)
        × ((bytes : List ℕ) × Consumes (S.left source.old) (S.left source.new) bytes × (length bytes ≡ most_bytes + 1)) }
    ensures read_fault { result ≡ Err TraceFault.ReadFault → Rose (S.faults source.old) (S.faults source.new) }
    ensures faults_never_fall { S.faults source.old ≤ S.faults source.new }

    // In every outcome the source is called at most once for each byte that it gives, and once for the end or the fault.
    ensures few_calls { HasFewCalls (S.left source.old) (S.left source.new) (S.calls source.old) (S.calls source.new) }
{
    let bytes = all_bytes(alloc, source)?;
    resumed_of(alloc, &bytes)
}
