//! Whether a schedule goes on: its items are run once before they are listed, so that a listing ends where nothing more happens.
ghost use Rattle.std.specs.Prelude.{◌≡◌, ◌≤◌, ℕ, List, All, IfOk};
ghost use Rattle.shen_graph.specs.declared.order.Order.TheVariants.{Nothing};
ghost use Rattle.shen_core.specs.State.{config_of, orders_of};
ghost use Rattle.shen_core.specs.Progress.{CanRun};
ghost use Rattle.shen_core.specs.Agendas.{IsWalkOf};
ghost use Rattle.trace_reading.specs.Grammar.{Reads};

use heap_words::{Item, NoMemory, Schedule, Took};
use listing::{Event, Stall};
use shen_core::{Plain, Seen, Stepped, Walk};
use shen_graph::Work;
use std::alloc::Global;
use trace_reading::Trace;

/// An event as memory saw it, with its number.
pub fn event_of(plain: &Plain, number: u64, seen: &Seen) -> Event {
    let said = match seen.said {
        Stepped::Again => Took::Again,
        Stepped::Done => Took::Done,
        Stepped::More | Stepped::Idle => Took::More,
    };
    let next = if seen.number < plain.seats() {
        plain.place(seen.number)
    } else {
        None
    };
    Event {
        number,
        seat: seen.number,
        place: seen.place,
        access: seen.access,
        found: seen.found,
        said,
        next,
    }
}

/// The item at work; None where it is the rounds.
pub fn item_at_work(walk: &Walk) -> Option<Item> {
    if walk.is_at_item() {
        walk.items().get(walk.begun().saturating_sub(1)).copied()
    } else {
        None
    }
}

/// Whether an item cannot end, by what is known of its machine and of the control, which steps beside one whose replies are counted.
pub fn is_stalled(stall: &Stall, plain: &Plain, item: Option<Item>) -> bool
    requires { All (λ order. order ≡ Nothing) (orders_of plain.now) }
{
    match item {
        Some(Item::Until { number, .. }) => stall.waits(number),
        Some(Item::Replies { number, .. }) => {
            let control = plain.seats() - 1;
            stall.waits(number) && (stall.waits(control) || !plain.has_next(control))
        }
        _ => false,
    }
}

// A schedule like this one.
fn copy_of(alloc: Global, schedule: &Schedule) -> Result<Schedule, NoMemory>
    ensures { IfOk result (λ copy. copy ≡ schedule.now) }
{
    let mut copy = Schedule::open(alloc)?;
    for item in schedule.list() {
        copy.push(alloc, *item)?;
    }
    Ok(copy)
}

// How many of so many events are made before an item is found not to end; all where each ends.
fn made_before(walk: &mut Walk, plain: &mut Plain, work: &mut Work, limit: u64) -> u64
    requires run { CanRun plain.old work.old }
    requires walk { IsWalkOf (config_of plain.old) walk.old }
    ensures { result ≤ limit }
{
    let mut stall = Stall::new();
    let mut begun = 0;
    let mut made = 0;
    while made < limit {
        let Some(seen) = walk.next(plain, work) else {
            return limit;
        };
        made += 1;
        let item = item_at_work(walk);
        if item.is_none() {
            return limit;
        }
        if walk.begun() != begun {
            begun = walk.begun();
            stall.clear();
        }
        stall.note(&event_of(plain, made, &seen));
        if is_stalled(&stall, plain, item) {
            return made;
        }
    }
    limit
}

// The same of a trace.
fn made_of(alloc: Global, trace: &Trace, steps: u64) -> Result<u64, NoMemory>
    requires { (bytes : List ℕ) × Reads bytes trace.now.version trace.now.config trace.now.scripts trace.now.schedule }
{
    let Ok(mut work) = Work::open(alloc, trace.scripts.list()) else {
        return Err(NoMemory);
    };
    let Ok(mut plain) = Plain::open(alloc, trace.config) else {
        return Err(NoMemory);
    };
    let schedule = copy_of(alloc, &trace.schedule)?;
    let mut walk = Walk::open(schedule);
    Ok(made_before(&mut walk, &mut plain, &mut work, steps))
}

/// How many of so many events of a trace are worth making: all, or as many as lead to where an item cannot end. Where there is no
/// memory to find out, all.
pub fn limit_of(alloc: Global, trace: &Trace, steps: u64) -> u64
    requires { (bytes : List ℕ) × Reads bytes trace.now.version trace.now.config trace.now.scripts trace.now.schedule }
{
    made_of(alloc, trace, steps).unwrap_or(steps)
}
