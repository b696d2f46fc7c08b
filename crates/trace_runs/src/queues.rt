//! `queue`: users of a queue in the heap, on a heap of their own that threads share.
ghost use Rattle.std.specs.Prelude.{◌≡◌, ◌+◌, ◌≤◌, ◌<◌, ◌^◌, ℕ, List, Some, IfOk, length, slice_get};
ghost use Rattle.shen_base.specs.Sending.{outlet};
ghost use Rattle.managed_queue.specs.Users.{Use};
ghost use Rattle.table_heap.specs.declared.heap.Heap.{Heap as Shared};
ghost use Rattle.trace_text.specs.Message.{line_text};
ghost use Rattle.trace_text.specs.declared.message.Line.TheVariants as lines;
ghost use Rattle.trace_runs.specs.Words.{most_numbers, Asks};
ghost use Rattle.trace_runs.specs.DealtParts.{crew_of, AreReady};
ghost use Rattle.trace_runs.specs.DealtParts.Assigned.{users};
ghost use Rattle.trace_runs.specs.Queued.{IsQueueHeap, queue_users, CanBeCrewed, IsQueued};
ghost use Rattle.trace_runs.specs.Answered.{Input, StatusFits};

use crate::lines::say;
use crate::load::Load;
use crate::mode::Mode;
use crate::parts::Part;
use crate::status::Status;
use crate::threads::run_parts;
use arrayvec::ArrayVec;
use heap_words::{Config, NoMemory};
use managed_queue::{Gotten, User};
use shen_base::Sink;
use std::alloc::Global;
use std::sync::Wait;
use std::thread::Threads;
use table_heap::{Bundle, Gate, Heap};
use trace_text::Line;

/// The sizes of the heap of a queue.
fn queue_heap() -> Config
    ensures { IsQueueHeap result }
{
    let Ok(config) = Config::new(16, 256, 4, 1, 2) else {
        unreachable!()
    };
    config
}

/// The user of a mutator, counted from 0, if there is one: two put numbers, of which the first sets the queue up, and two take
/// some.
fn user_of(count: u64, mutator: usize) -> Option<User>
    requires { count ≤ most_numbers }
    ensures { result ≡ slice_get (queue_users count) mutator }
{
    match mutator {
        0 => Some(User::putter(true, 1_000_001, count)),
        1 => Some(User::putter(false, 2_000_001, count)),
        2 | 3 => Some(User::taker(count)),
        _ => None,
    }
}

/// The users of the one machine of a bundle.
fn crew_at(count: u64, bundle: usize) -> ArrayVec<User, 8>
    requires { count ≤ most_numbers }
    ensures { result.items ≡ crew_of (queue_users count) bundle (bundle + 1) }
{
    let mut crew = ArrayVec::new();
    if let Some(user) = user_of(count, bundle) {
        crew.push(user);
    }
    crew
}

/// Gives each bundle, which has one machine, the user of that one. The error is that memory was refused.
fn crewed(alloc: Global, count: u64, bundles: Vec<Bundle>) -> Result<Vec<Part>, NoMemory>
    requires { count ≤ most_numbers }
    ensures count { IfOk result (λ parts. length parts.items ≡ length bundles.items) }
    ensures ready { IfOk result (λ parts. (heap : Shared) → CanBeCrewed heap bundles.items → AreReady heap (users (queue_users count)) (length bundles.items) parts.items) }
{
    let workers = bundles.len();
    let Ok(mut parts) = Vec::with_capacity(alloc, workers) else {
        return Err(NoMemory);
    };
    for bundle in bundles {
        let load = Load::Driven(crew_at(count, parts.len()));
        let Ok(()) = parts.push(Part { bundle, load }) else {
            return Err(NoMemory);
        };
    }
    Ok(parts)
}

/// What the two takers got, both together.
fn taken_by(crew: &[User]) -> Gotten
    requires { (one : Use) × (other : Use) × (slice_get crew.now 2 ≡ Some one) × (slice_get crew.now 3 ≡ Some other) × (one.got.items + other.got.items < 2 ^ 64) × (one.got.sum + other.got.sum < 2 ^ 128) }
    ensures { (one other : Use) → slice_get crew.now 2 ≡ Some one → slice_get crew.now 3 ≡ Some other → (result.items ≡ one.got.items + other.got.items) × (result.sum ≡ one.got.sum + other.got.sum) }
{
    let (one, other) = (crew[2].got(), crew[3].got());
    Gotten {
        items: one.items + other.items,
        sum: one.sum + other.sum,
    }
}

/// Runs the users on a heap of their own, each machine in a thread of its own, and counts what the takers got.
fn got_of<R: Threads + Wait + Sync, G: Gate>(
    rt: &R,
    alloc: Global,
    count: u64,
    gate: &G,
) -> Result<Gotten, NoMemory>
    requires { count ≤ most_numbers }
    ensures { IfOk result (λ got. IsQueued count (line_text (lines.Queue count got.items got.sum))) }
{
    let config = queue_heap();
    let (heap, bundles) = Heap::open(alloc, config, config.seats())?;
    let parts = crewed(alloc, count, bundles)?;
    let Part { bundle, load } = run_parts(rt, alloc, &heap, gate, parts)?;
    let _closed = heap.close(bundle);
    match load {
        Load::Driven(crew) => Ok(taken_by(crew.as_slice())),
        Load::Scripted(_) => unreachable!(),
    }
}

/// Runs a queue and writes what its takers got, or the one line that says that there is no memory.
pub fn queue<R: Threads + Wait + Sync, K: Sink, G: Gate>(
    rt: &R,
    alloc: Global,
    count: u64,
    sink: &mut K,
    gate: &G,
) -> Status
    requires { count ≤ most_numbers }
    ensures { (words : List (List ℕ)) (input : Input) → Asks words (Mode.Queue count) → StatusFits words input
        (record { before = outlet (K.written sink.old) (K.faults sink.old) (K.calls sink.old); after = outlet (K.written sink.new) (K.faults sink.new) (K.calls sink.new) }) result }
{
    match got_of(rt, alloc, count, gate) {
        Ok(got) => {
            let (items, sum) = (got.items, got.sum);
            say(sink, Line::Queue { count, items, sum }, Status::Ok)
        }
        Err(NoMemory) => say(sink, Line::NoMemory, Status::NoMemory),
    }
}
