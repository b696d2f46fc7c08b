//! The first four lines of a dump.
ghost use Rattle.std.specs.Prelude.{◌≡◌, ◌≢◌, ◌⊎◌, ◌++◌, ◌∷◌, [], ℕ, List, codes, IfOk, IfErr, MatchOption};
ghost use Rattle.heap_words.specs.declared.config.Config.{Config as Sizes};
ghost use Rattle.heap_words.specs.Narrow.{IsNarrow};
ghost use Rattle.std.specs.Option.{option_map};
ghost use Rattle.trace_reading.specs.Scanning.{numbers_at};
ghost use Rattle.heap_dump.specs.Dumped.{most_made};
ghost use Rattle.trace_reading.specs.Spelling.{titled};
ghost use Rattle.heap_dump.specs.DumpLines.{Spells, IsHeapOf, heap_line, threads_line, Version, Heap, Threads, Counts as CountsStage, Listed};
ghost use Rattle.heap_dump.specs.Steps.{Leads, IsStop};

use crate::Counts;
use crate::line::{dump_wanted, line_at};
use heap_words::Config;
use std::alloc::Global;
use trace_reading::{TraceFault, numbers_at, text_at};

/// The most objects that a dumped thread has made.
const MOST_MADE: u64 = 4_000_000_000;

/// Takes the line of the version.
fn take_version(bytes: &[u8]) -> Result<&[u8], TraceFault>
    ensures ok { IfOk result (λ rest. Leads Version bytes.now rest.now 1 Heap) }
    ensures err { IfErr result (IsStop Version 1 bytes.now) }
{
    let (text, rest) = line_at(1, bytes)?;
    if text == b"dump 1".as_slice() {
        Ok(rest)
    } else {
        Err(dump_wanted(1))
    }
}

/// The heap whose sizes a line spells, with one mutator.
fn heap_in(text: &[u8]) -> Option<Config>
    ensures { MatchOption result ((config : Sizes) → IsNarrow config → Spells text.now (heap_line config) → ⊥) (λ config. IsNarrow config × Spells text.now (heap_line config)) }
{
    let rest = text_at(b"heap", text)?;
    let (sizes, rest) = numbers_at(&[64, 1024, 63], rest)?;
    let [regions, region_words, reserve, _] = sizes;
    match Config::new(
        regions as usize,
        region_words as usize,
        1,
        0,
        reserve as usize,
    ) {
        Ok(heap) if rest.is_empty() => Some(heap),
        _ => None,
    }
}

/// The heap, with the mutators and helpers that a line spells.
fn threads_in(heap: &Config, text: &[u8]) -> Option<Config>
    requires { IsNarrow heap.now }
    ensures { MatchOption result ((config : Sizes) → IsHeapOf heap.now config → Spells text.now (threads_line config) → ⊥) (λ config. IsHeapOf heap.now config × Spells text.now (threads_line config)) }
{
    let rest = text_at(b"threads", text)?;
    let (threads, rest) = numbers_at(&[8, 3], rest)?;
    let [mutators, helpers, _, _] = threads;
    match Config::new(
        heap.regions(),
        heap.region_words(),
        mutators as usize,
        helpers as usize,
        heap.reserve(),
    ) {
        Ok(config) if rest.is_empty() => Some(config),
        _ => None,
    }
}

/// The configuration of a dump, and the bytes behind its first three lines.
pub(crate) fn take_config(bytes: &[u8]) -> Result<(Config, &[u8]), TraceFault>
    ensures ok { IfOk result (λ taken. Leads Version bytes.now taken.1.now 3 (CountsStage taken.0)) }
    ensures err { IfErr result (IsStop Version 1 bytes.now) }
{
    let rest = take_version(bytes)?;
    let (text, rest) = line_at(2, rest)?;
    let Some(heap) = heap_in(text) else {
        return Err(dump_wanted(2));
    };
    let (text, rest) = line_at(3, rest)?;
    match threads_in(&heap, text) {
        Some(config) => Ok((config, rest)),
        None => Err(dump_wanted(3)),
    }
}

/// The count after a space, and the bytes behind it.
fn count_at(bytes: &[u8]) -> Option<(u32, &[u8])>
    ensures { option_map (λ x. (x.0 ∷ [], x.1.now)) result ≡ numbers_at (most_made ∷ []) bytes.now }
{
    let (numbers, rest) = numbers_at(&[MOST_MADE], bytes)?;
    let [count, _, _, _] = numbers;
    Some((count as u32, rest))
}

/// The counts of so many threads, and the bytes behind their line, the fourth.
pub(crate) fn take_counts(
    alloc: Global,
    threads: usize,
    bytes: &[u8],
) -> Result<(Counts, &[u8]), TraceFault>
    ensures ok { IfOk result (λ taken. (config : Sizes) → config.mutators ≡ threads → Leads (CountsStage config) bytes.now taken.1.now 1 (Listed (record { config = config; counts = taken.0; rows = []; roots = [] }))) }
    ensures err { IfErr result (λ fault. (fault ≡ TraceFault.NoMemory) ⊎ ((config : Sizes) → config.mutators ≡ threads → IsStop (CountsStage config) 4 bytes.now fault)) }
{
    let (text, behind) = line_at(4, bytes)?;
    let Some(words) = text_at(b"counts", text) else {
        return Err(dump_wanted(4));
    };
    let Ok(mut counts) = Counts::open(alloc) else {
        return Err(TraceFault::NoMemory);
    };
    let mut rest = words;
    'counts: for _ in 0..threads {
        let Some((count, more)) = count_at(rest) else {
            return Err(dump_wanted(4));
        };
        if counts.push(alloc, count).is_err() {
            return Err(TraceFault::NoMemory);
        }
        rest = more;
    }
    if rest.is_empty() {
        Ok((counts, behind))
    } else {
        Err(dump_wanted(4))
    }
}
