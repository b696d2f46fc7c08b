//! The top call: words and a trace in, a listing or one line out.
ghost use Rattle.std.specs.Prelude.{◌≡◌, ◌<◌, ◌≤◌, ℕ, List, All, None};
ghost use Rattle.shen_core.specs.State.{config_of};
ghost use Rattle.shen_core.specs.Progress.{CanRun, IsInSeats, AllIdle, AllRest, SomeBusy, Runs};
ghost use Rattle.shen_core.specs.WholeRun.{RunsSchedule};
ghost use Rattle.shen_core.specs.Agendas.{agenda_in, IsWalkOf};
ghost use Rattle.shen_core.specs.Nexts.{HasNoNext, MakesNext};
ghost use Rattle.trace_reading.specs.Grammar.{Reads};
ghost use Rattle.program_calls.specs.Listed.{CountsEvents};

use crate::list_status::Status;
use crate::named::may_be_made;
use heap_words::{Config, Schedule};
use listing::Row;
use listing_lines::{
    Asked, FORM, Listing, Needle, Refusal, Stranger, Wanted, asked_by, limit_of, write_head,
};
use shen_base::{Sink, Source, write_all};
use shen_core::{Plain, Ran, Seen, Walk};
use shen_graph::{GraphText, Work};
use std::alloc::Global;
use trace_reading::{Trace, TraceFault, read_trace};
use trace_text::{Line, write_line};

// Makes the next event of the schedule, and lists it under the headings of the parts that have begun. None where there is none.
fn list_next<K: Sink, E: Sink>(
    listing: &mut Listing,
    walk: &mut Walk,
    plain: &mut Plain,
    work: &mut Work,
    sink: &mut K,
    errors: &mut E,
) -> Option<Seen>
    requires run { CanRun plain.old work.old }
    requires walk { IsWalkOf (config_of plain.old) walk.old }
    ensures run { CanRun plain.new work.new }
    ensures config { config_of plain.new ≡ config_of plain.old }
    ensures walk { IsWalkOf (config_of plain.new) walk.new }
    ensures next { MakesNext plain.old work.old (agenda_in walk.old) plain.new work.new (agenda_in walk.new) result }
    ensures none { result ≡ None → HasNoNext plain.new work.new (agenda_in walk.new) }
    ensures idle { result ≡ None → AllIdle plain.new work.new }
{
    let found = walk.find(plain, work);
    listing.headings(walk, sink);
    if found.is_some() {
        listing.rounds(walk, sink);
    }
    let seen = walk.next(plain, work);
    if let Some(seen) = &seen {
        listing.event(plain, work, seen, sink);
        listing.progress(errors);
    }
    seen
}

// Makes at most so many events of the schedule and lists each. How many were not made, since there were no more.
fn list_all<K: Sink, E: Sink>(
    listing: &mut Listing,
    walk: &mut Walk,
    plain: &mut Plain,
    work: &mut Work,
    sink: &mut K,
    errors: &mut E,
    limit: u64,
) -> u64
    requires run { CanRun plain.old work.old }
    requires walk { IsWalkOf (config_of plain.old) walk.old }
    ensures run { CanRun plain.new work.new }
    ensures config { config_of plain.new ≡ config_of plain.old }
    ensures walk { IsWalkOf (config_of plain.new) walk.new }
    ensures events { Runs plain.old work.old (agenda_in walk.old) limit plain.new work.new (agenda_in walk.new) result }
    ensures less { result ≤ limit }
    ensures ended { 0 < result → HasNoNext plain.new work.new (agenda_in walk.new) }
    ensures idle { 0 < result → AllIdle plain.new work.new }
{
    let mut left = limit;
    while left > 0 {
        match list_next(listing, walk, plain, work, sink, errors) {
            Some(_) => left -= 1,
            None => return left,
        }
    }
    left
}

// How the events have ended of which so many were allowed still: all machines are idle where one was left.
fn ended(plain: &Plain, work: &Work, left: u64) -> Ran
    requires run { CanRun plain.now work.now }
    ensures finished { result ≡ Ran.Finished → 0 ≡ left → AllIdle plain.now work.now }
    ensures unfinished { result ≡ Ran.Unfinished → (0 ≡ left) × SomeBusy plain.now work.now }
{
    if left > 0 || !plain.any_next() {
        Ran::Finished
    } else {
        Ran::Unfinished
    }
}

/// How a listing has ended.
#[derive(Clone, Copy)]
struct Listed {
    /// Whether all machines are idle.
    ran: Ran,
    /// The events that were made.
    events: u64,
}

// Makes the events of a schedule, at most as many as are wanted, and lists those from the first that is wanted on.
fn list<K: Sink, E: Sink>(
    listing: &mut Listing,
    wanted: Wanted,
    schedule: Schedule,
    plain: &mut Plain,
    work: &mut Work,
    sink: &mut K,
    errors: &mut E,
) -> Listed
    requires run { CanRun plain.old work.old }
    requires items { All (IsInSeats (config_of plain.old)) schedule }
    ensures run { CanRun plain.new work.new }
    ensures config { config_of plain.new ≡ config_of plain.old }
    ensures events { RunsSchedule plain.old work.old schedule wanted.steps plain.new work.new result.ran }
    ensures count { CountsEvents plain.old work.old schedule wanted.steps result.events }
{
    let mut walk = Walk::open(schedule);
    listing.columns(sink);
    let left = list_all(listing, &mut walk, plain, work, sink, errors, wanted.steps);
    listing.end_progress(errors);
    let ran = ended(plain, work, left);
    listing.end(plain, work, matches!(ran, Ran::Finished), sink);
    Listed {
        ran,
        events: wanted.steps - left,
    }
}

// Writes the one line of a status.
fn say<K: Sink>(sink: &mut K, line: Line, status: Status) -> Status {
    match write_line(sink, &line) {
        Ok(()) => status,
        Err(_) => Status::WriteFault,
    }
}

// Writes the line that is set, of words that are refused.
fn refuse<E: Sink>(errors: &mut E, row: &Row) -> Status {
    match write_all(errors, row.text()) {
        Ok(()) => Status::BadWords,
        Err(_) => Status::WriteFault,
    }
}

// Writes the line that the heap has no such machine.
fn no_machine<E: Sink>(errors: &mut E, stranger: Stranger, config: Config) -> Status {
    let mut row = Row::new();
    row.put(b"bad words: there is no ");
    stranger.put(&mut row);
    row.put(b" in this heap, which has ");
    row.put_count(config.mutators() as u64, b"thread");
    row.put(b", ");
    row.put_count(config.helpers() as u64, b"helper");
    row.put(b" and the control\n");
    refuse(errors, &row)
}

// Writes the line that the schedule has no such item.
fn no_item<E: Sink>(errors: &mut E, item: u64, items: usize) -> Status {
    let mut row = Row::new();
    row.put(b"bad words: there is no item ");
    row.put_number(item);
    row.put(b" in this schedule, which has ");
    row.put_number(items as u64);
    row.put(b"\n");
    refuse(errors, &row)
}

// Writes the line that no place has this code.
fn no_place<E: Sink>(errors: &mut E, code: Needle) -> Status {
    let mut row = Row::new();
    row.put(b"bad words: there is no place ");
    row.put(code.text());
    row.put(b"\n");
    refuse(errors, &row)
}

// Writes the line that no object of the trace can have this name.
fn no_object<E: Sink>(errors: &mut E, name: Needle) -> Status {
    let mut row = Row::new();
    row.put(b"bad words: there is no object ");
    row.put(name.text());
    row.put(b" in this trace\n");
    refuse(errors, &row)
}

// The object that is looked for, where the trace cannot have it.
fn strange_object(trace: &Trace, asked: &Asked) -> Option<Needle> {
    let name = asked.filter.object?;
    if may_be_made(trace, name.text()) {
        None
    } else {
        Some(name)
    }
}

// How a call ends whose words name what the trace does not have.
fn refusal<E: Sink>(errors: &mut E, trace: &Trace, asked: &Asked) -> Option<Status> {
    if let Some(stranger) = asked.filter.stranger(trace.config) {
        return Some(no_machine(errors, stranger, trace.config));
    }
    if let Some(name) = strange_object(trace, asked) {
        return Some(no_object(errors, name));
    }
    let items = trace.schedule.list().len();
    match asked.wanted.item {
        Some(item) if item > items as u64 => Some(no_item(errors, item, items)),
        _ => None,
    }
}

// Writes the graph that the heap stands for, for a trace of a version, where all machines are idle; nothing where memory is refused.
fn list_graph<K: Sink>(
    alloc: Global,
    version: u32,
    listing: &mut Listing,
    plain: &mut Plain,
    sink: &mut K,
)
    requires { AllRest plain.old }
{
    let config = plain.config();
    if let Ok(mut text) = GraphText::open(alloc, config.heap_size(), config.mutators()) {
        plain.graph(&mut text);
        listing.graph(version, &text, sink);
    }
}

// How a listing ends that is written.
fn status_of<K: Sink>(sink: &mut K, listed: Listed, json: bool) -> Status {
    match listed.ran {
        Ran::Finished => Status::Ok,
        Ran::Unfinished if json => Status::Unfinished,
        Ran::Unfinished => {
            let steps = listed.events;
            say(sink, Line::Unfinished { steps }, Status::Unfinished)
        }
    }
}

// Lists what a trace does.
fn list_trace<K: Sink, E: Sink>(
    alloc: Global,
    trace: Trace,
    asked: Asked,
    sink: &mut K,
    errors: &mut E,
) -> Status
    requires { (bytes : List ℕ) × Reads bytes trace.version trace.config trace.scripts trace.schedule }
{
    if let Some(status) = refusal(errors, &trace, &asked) {
        return status;
    }
    let json = asked.wanted.json;
    let version = trace.version;
    if json && write_head(&trace, sink).is_err() {
        return Status::WriteFault;
    }
    let steps = limit_of(alloc, &trace, asked.wanted.steps);
    let Ok(mut work) = Work::of(alloc, trace.scripts.into_vec()) else {
        return say(errors, Line::NoMemory, Status::NoMemory);
    };
    let Ok(mut plain) = Plain::open(alloc, trace.config) else {
        return say(errors, Line::NoMemory, Status::NoMemory);
    };
    let Ok(mut listing) = Listing::open(alloc, &asked, &plain) else {
        return say(errors, Line::NoMemory, Status::NoMemory);
    };
    let listed = list(
        &mut listing,
        Wanted {
            steps,
            ..asked.wanted
        },
        trace.schedule,
        &mut plain,
        &mut work,
        sink,
        errors,
    );
    if let Ran::Finished = listed.ran {
        list_graph(alloc, version, &mut listing, &mut plain, sink);
    }
    if listing.finish(sink).is_err() {
        return Status::WriteFault;
    }
    status_of(sink, listed, json)
}

// Writes why words are refused.
fn refuse_words<E: Sink>(errors: &mut E, why: Refusal) -> Status {
    match why {
        Refusal::NoPlace(code) => no_place(errors, code),
        Refusal::Form => match write_all(errors, FORM) {
            Ok(()) => Status::BadWords,
            Err(_) => Status::WriteFault,
        },
    }
}

/// Runs the program on these words of the command line, which are without the program's name: reads a trace from the source to
/// its end, makes the events of its schedule and of the rounds after it, and lists them into the sink. Other words are refused before
/// anything is read. Lines have so many columns, as far as is known. Where there is no listing one line among the errors says why; if
/// that cannot be written either, the status is `WriteFault`.
pub fn shensteps<S: Source, K: Sink, E: Sink>(
    alloc: Global,
    words: &[String],
    width: u64,
    source: &mut S,
    sink: &mut K,
    errors: &mut E,
) -> Status {
    let asked = match asked_by(words, width) {
        Ok(asked) => asked,
        Err(why) => return refuse_words(errors, why),
    };
    match read_trace(alloc, source) {
        Ok(trace) => list_trace(alloc, trace, asked, sink, errors),
        Err(TraceFault::BadLine { line, why }) => {
            say(errors, Line::BadLine { line, why }, Status::BadTrace)
        }
        Err(TraceFault::TooLong { .. }) => say(errors, Line::TooLong, Status::BadTrace),
        Err(TraceFault::ReadFault) => say(errors, Line::ReadFault, Status::ReadFault),
        Err(TraceFault::NoMemory) => say(errors, Line::NoMemory, Status::NoMemory),
    }
}
