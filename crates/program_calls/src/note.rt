//! A trace of a run on threads, judged by its own replay.
ghost use Rattle.std.specs.Prelude.{◌≡◌, ◌<◌, ℕ, List, [], length, IfOk, IfSome};
ghost use Rattle.std.specs.List.{AllByRecursion};
ghost use Rattle.shen_graph.specs.Work.{HasScript};
ghost use Rattle.trace_reading.specs.Grammar.{Reads};
ghost use Rattle.trace_reading.specs.Spelling.{IsItem};
ghost use Rattle.trace_text.specs.Answer.{spelled_answer};
ghost use Rattle.trace_text.specs.Canonical.{spelling_of, IsWritable};
ghost use Rattle.program_calls.specs.Noted.{IsOfSteps, IsReplayIn, IsNotedAs};

use crate::turns::Turns;
use heap_words::{NoMemory, Schedule};
use shen_base::MemorySink;
use std::alloc::Global;
use std::sync::Wait;
use std::thread::Threads;
use trace_reading::{Trace, trace_of};
use trace_runs::{Refusal, replayed_answer, run_answer};
use trace_text::{Answer, write_answer, write_trace};

/// What comes of a run.
#[derive(Drop)]
pub enum Noted {
    /// The trace of the run: its replay has the answer of the run.
    Text(MemorySink),
    /// The run made more steps than are noted, or its answer or its trace is longer than a trace may be.
    Long,
    /// The replay of what was noted has not the answer of the run. No clause says that this never comes.
    Other,
}

// The most bytes of a trace, and of an answer that is compared.
const MOST_BYTES: usize = 16_777_216;

// The most bytes of an item of steps, with the space before it and the mark and the end of its line: the machine has two digits, and the
// steps have ten.
const ITEM_BYTES: usize = 16;

// Items of which a trace has fewer, whatever else it has.
const MOST_ITEMS: usize = 1_048_576;

// The steps of a run that are noted.
const STEPS: usize = 4_000_000;

// Machines of a heap at most, each of which gets a thread.
const WORKERS: u64 = 12;

// An empty sink with room for a text.
fn empty(alloc: Global) -> Result<MemorySink, NoMemory>
    ensures { IfOk result (λ sink. sink.stored ≡ []) }
{
    match MemorySink::with_room(alloc, MOST_BYTES, MOST_BYTES, Vec::new(alloc)) {
        Ok(sink) => Ok(sink),
        Err(_) => Err(NoMemory),
    }
}

// The text of a trace.
fn text_of(alloc: Global, trace: &Trace) -> Result<MemorySink, NoMemory>
    requires { IsWritable trace.now.version trace.now.config trace.now.scripts trace.now.schedule }
    ensures spelled { IfOk result (λ text. text.stored ≡ spelling_of trace.now.version trace.now.config trace.now.scripts trace.now.schedule) }
    ensures reads { IfOk result (λ text. Reads text.stored trace.now.version trace.now.config trace.now.scripts trace.now.schedule) }
{
    let mut sink = empty(alloc)?;
    match write_trace(&mut sink, trace) {
        Ok(()) => Ok(sink),
        Err(_) => Err(NoMemory),
    }
}

// The text of an answer. None where it is too long to be compared.
fn told(alloc: Global, answer: &Answer) -> Result<Option<MemorySink>, NoMemory>
    requires { (mutator : ℕ) → mutator < length answer.now.graph.roots → HasScript answer.now.replies mutator }
    ensures { IfOk result (λ found. IfSome found (λ text. text.stored ≡ spelled_answer answer.now)) }
{
    let mut sink = empty(alloc)?;
    match write_answer(&mut sink, answer) {
        Ok(()) => Ok(Some(sink)),
        Err(_) => Ok(None),
    }
}

// The trace with another schedule, of steps. None where its text might be longer than that of a trace.
#[tactic(auto, using(crate::proofs::Schedules::fits_behind))]
fn with_schedule(alloc: Global, trace: Trace, schedule: Schedule) -> Result<Option<Trace>, NoMemory>
    requires writable { IsWritable trace.version trace.config trace.scripts trace.schedule }
    requires items { AllByRecursion (IsItem trace.config) schedule }
    requires of_steps { AllByRecursion IsOfSteps schedule }
    ensures same { IfOk result (λ found. IfSome found (λ noted. (noted.version ≡ trace.version) × (noted.config ≡ trace.config) × (noted.scripts ≡ trace.scripts) × (noted.schedule ≡ schedule))) }
    ensures writable { IfOk result (λ found. IfSome found (λ noted. IsWritable noted.version noted.config noted.scripts noted.schedule)) }
{
    let size = text_of(alloc, &trace)?.bytes().len();
    let count = schedule.list().len();
    if count > MOST_ITEMS || size + ITEM_BYTES * count > MOST_BYTES {
        return Ok(None);
    }
    let mut noted = trace;
    noted.schedule = schedule;
    Ok(Some(noted))
}

// The text of a trace whose replay, of so many steps at most, has the answer of a run.
#[tactic(auto, using(crate::proofs::Replays::replay_text, crate::proofs::Replays::some_bytes))]
fn replayed(alloc: Global, noted: Trace, steps: u64, answer: &Answer) -> Result<Noted, NoMemory>
    requires writable { IsWritable noted.version noted.config noted.scripts noted.schedule }
    requires answer { (mutator : ℕ) → mutator < length answer.now.graph.roots → HasScript answer.now.replies mutator }
    ensures { IfOk result (λ found. IsReplayIn noted.version noted.config noted.scripts noted.schedule steps (spelled_answer answer.now) found) }
{
    let text = text_of(alloc, &noted)?;
    let Some(wanted) = told(alloc, answer)? else {
        return Ok(Noted::Long);
    };
    let replay = match replayed_answer(alloc, noted, steps) {
        Ok(replay) => replay,
        Err(Refusal::Unfinished) => return Ok(Noted::Other),
        Err(Refusal::NoMemory) => return Err(NoMemory),
    };
    match told(alloc, &replay)? {
        None => Ok(Noted::Long),
        Some(found) if found.bytes() == wanted.bytes() => Ok(Noted::Text(text)),
        Some(_) => Ok(Noted::Other),
    }
}

/// Runs a trace on threads, one machine's step at a time, and writes the trace with the schedule of these steps. Its own schedule has no
/// part in it. The replay of what is written has the run's answer.
#[tactic(auto, using(crate::proofs::Replays::noted_as, trace_text::proofs::Rewritten::can_be_written))]
pub fn note_trace<R: Threads + Wait + Sync>(
    rt: &R,
    alloc: Global,
    bytes: &[u8],
    trace: Trace,
) -> Result<Noted, NoMemory>
    requires { Reads bytes.now trace.version trace.config trace.scripts trace.schedule }
    ensures { IfOk result (IsNotedAs bytes.now) }
{
    let Ok(again) = trace_of(alloc, bytes) else {
        return Err(NoMemory);
    };
    let turns = Turns::with_room(alloc, again.config.seats(), STEPS)?;
    let answer = run_answer(rt, alloc, trace, WORKERS, &turns)?;
    let Some((schedule, steps)) = turns.schedule(alloc, &again.config)? else {
        return Ok(Noted::Long);
    };
    match with_schedule(alloc, again, schedule)? {
        Some(noted) => replayed(alloc, noted, steps, &answer),
        None => Ok(Noted::Long),
    }
}
