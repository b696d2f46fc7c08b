//! Runs of a heap's machines in threads: each part in a thread of its own, but those that the caller keeps.
ghost use Rattle.std.specs.Prelude.{◌≡◌, ◌+◌, ◌≤◌, ◌<◌, ℕ, [], IfOk, IfErr, length, vec_capacity};
ghost use Rattle.trace_runs.specs.DealtParts.{Assigned, PartCanRun, IsGivenBack, PartIsReady, IsDone, AreReady};
ghost use Rattle.trace_runs.specs.Started.{IsThread, AreThreads, AreSplit};

use crate::parts::{Part, Returned, together};
use heap_words::NoMemory;
use std::alloc::Global;
use std::snapshot::Snapshot;
use std::sync::Wait;
use std::sync::atomic::{AtomicBool, Ordering};
use std::thread;
use std::thread::{Promise, PromisedHandle, Scope, Threads};
use table_heap::{Gate, Heap};

/// What was given to a thread, which gives it back after its run, or as it was.
#[derive(Drop)]
pub struct Given(Snapshot<Part>);

impl Promise<Returned> for Given {
    ghost kept_by = { λ given back. IsGivenBack given.0.value back };
}

/// A part that is not the caller's.
#[derive(Drop)]
pub enum Thread {
    /// A thread runs it.
    Running(PromisedHandle<Returned, Given>),
    /// It has run, though no thread was made for it.
    Over(Part),
}

// Runs the part, or gives it back as it is where it is to stay.
fn run_unless<R: Wait, G: Gate>(
    rt: &R,
    heap: &Heap,
    gate: &G,
    stays: &AtomicBool,
    mut part: Part,
) -> Returned
    requires { PartCanRun heap.now part }
    ensures { IsGivenBack part result }
{
    if stays.load(Ordering::SeqCst) {
        return Returned { part, ran: false };
    }
    part.run(rt, heap, gate);
    Returned { part, ran: true }
}

// Starts a thread that runs the part. Where none can be made the part comes back as it was given.
fn start<'s, E, R: Wait + Sync, G: Gate>(
    scope: &Scope<'s, E>,
    rt: &'s R,
    heap: &'s Heap,
    gate: &'s G,
    stays: &'s AtomicBool,
    part: Part,
) -> Result<Thread, Part>
    requires { PartCanRun heap.now part }
    ensures ok { IfOk result (λ thread. (assigned : Assigned) (workers bundle_number : ℕ) → PartIsReady heap.now assigned workers bundle_number (bundle_number + 1) part → IsThread heap.now assigned workers bundle_number thread) }
    ensures err { IfErr result (λ back. back ≡ part) }
{
    let given = Given(Snapshot::of(&part));
    let started = scope.spawn_with(
        given,
        move || -> Returned
            requires { PartCanRun heap.now part }
            ensures { IsGivenBack part result }
        { run_unless(rt, heap, gate, stays, part) },
    );
    match started {
        Ok(handle) => Ok(Thread::Running(handle)),
        Err(refused) => {
            stays.store(true, Ordering::SeqCst);
            let Returned { part, ran } = (refused.value)();
            if ran {
                Ok(Thread::Over(part))
            } else {
                Err(part)
            }
        }
    }
}

// Starts threads for the parts from the last one on, but for the first. Where no thread can be made the parts that are left
// stay here.
fn start_all<'s, E, R: Wait + Sync, G: Gate>(
    scope: &Scope<'s, E>,
    rt: &'s R,
    heap: &'s Heap,
    gate: &'s G,
    stays: &'s [AtomicBool],
    parts: &mut Vec<Part>,
    threads: &mut Vec<Thread>,
)
    requires some { 0 < length parts.old.items }
    requires flags { length parts.old.items ≤ length stays.now }
    requires none { threads.old.items ≡ [] }
    requires room { length parts.old.items ≤ vec_capacity threads.old }
    requires ready { (assigned : Assigned) × AreReady heap.now assigned (length parts.old.items) parts.old.items }
    ensures { (assigned : Assigned) → AreReady heap.now assigned (length parts.old.items) parts.old.items → AreSplit heap.now assigned (length parts.old.items) parts.new.items threads.new.items }
{
    while parts.len() > 1 {
        let Some(part) = parts.pop() else {
            unreachable!()
        };
        match start(scope, rt, heap, gate, &stays[parts.len()], part) {
            Ok(thread) => {
                let Ok(()) = threads.push(thread) else {
                    unreachable!()
                };
            }
            Err(part) => {
                let Ok(()) = parts.push(part) else {
                    unreachable!()
                };
                return;
            }
        }
    }
}

// The part of a thread, once it has run.
fn ended<R: Threads + Wait, G: Gate>(rt: &R, heap: &Heap, gate: &G, thread: Thread) -> Part
    requires { (assigned : Assigned) × (workers : ℕ) × (bundle_number : ℕ) × IsThread heap.now assigned workers bundle_number thread }
    ensures { (assigned : Assigned) (workers bundle_number : ℕ) → IsThread heap.now assigned workers bundle_number thread → IsDone heap.now assigned workers bundle_number (bundle_number + 1) result }
{
    match thread {
        Thread::Over(part) => part,
        Thread::Running(handle) => {
            let Returned { mut part, ran } = handle.join(rt);
            if !ran {
                part.run(rt, heap, gate);
            }
            part
        }
    }
}

// Joins the threads, and what they have run to what was run here.
fn join_all<R: Threads + Wait, G: Gate>(
    rt: &R,
    heap: &Heap,
    gate: &G,
    mut own: Part,
    mut threads: Vec<Thread>,
) -> Part
    requires { (assigned : Assigned) × (first : ℕ) × IsDone heap.now assigned (first + length threads.items) 0 first own × AreThreads heap.now assigned (first + length threads.items) threads.items }
    ensures { (assigned : Assigned) (first : ℕ) → IsDone heap.now assigned (first + length threads.items) 0 first own → AreThreads heap.now assigned (first + length threads.items) threads.items → IsDone heap.now assigned (first + length threads.items) 0 (first + length threads.items) result }
{
    while let Some(thread) = threads.pop() {
        let part = ended(rt, heap, gate, thread);
        own = own.join(heap, part);
    }
    own
}

// Runs all parts, from a scope for the threads.
fn run_in<'s, E, R: Threads + Wait + Sync, G: Gate>(
    scope: &Scope<'s, E>,
    rt: &'s R,
    heap: &'s Heap,
    gate: &'s G,
    stays: &'s [AtomicBool],
    mut parts: Vec<Part>,
    mut threads: Vec<Thread>,
) -> Part
    requires some { 0 < length parts.items }
    requires flags { length parts.items ≤ length stays.now }
    requires none { threads.items ≡ [] }
    requires room { length parts.items ≤ vec_capacity threads }
    requires ready { (assigned : Assigned) × AreReady heap.now assigned (length parts.items) parts.items }
    ensures { (assigned : Assigned) → AreReady heap.now assigned (length parts.items) parts.items → IsDone heap.now assigned (length parts.items) 0 (length parts.items) result }
{
    start_all(scope, rt, heap, gate, stays, &mut parts, &mut threads);
    let mut own = together(heap, parts);
    own.run(rt, heap, gate);
    join_all(rt, heap, gate, own, threads)
}

// So many flags, none of which is set.
fn flags(alloc: Global, count: usize) -> Result<Vec<AtomicBool>, NoMemory>
    ensures { IfOk result (λ flags. length flags.items ≡ count) }
{
    let Ok(mut flags) = Vec::with_capacity(alloc, count) else {
        return Err(NoMemory);
    };
    for made in 0..count {
        prove!(made < count);
        let Ok(()) = flags.push(AtomicBool::new(false)) else {
            return Err(NoMemory);
        };
    }
    Ok(flags)
}

/// Runs all parts of a heap's machines, of which there is one at least, the first one here and each other one in a thread of
/// its own. Where a thread cannot be made its part is run here too, beside the first. The error is that memory was refused.
pub fn run_parts<R: Threads + Wait + Sync, G: Gate>(
    rt: &R,
    alloc: Global,
    heap: &Heap,
    gate: &G,
    parts: Vec<Part>,
) -> Result<Part, NoMemory>
    requires some { 0 < length parts.items }
    requires ready { (assigned : Assigned) × AreReady heap.now assigned (length parts.items) parts.items }
    ensures { IfOk result (λ all. (assigned : Assigned) → AreReady heap.now assigned (length parts.items) parts.items → IsDone heap.now assigned (length parts.items) 0 (length parts.items) all) }
{
    let stays = flags(alloc, parts.len())?;
    let Ok(threads) = Vec::with_capacity(alloc, parts.len()) else {
        return Err(NoMemory);
    };
    let flags = stays.as_slice();
    Ok(thread::scope(
        thread::scope_env(),
        rt,
        move |scope| -> Part
            requires some { 0 < length parts.items }
            requires flags { length parts.items ≤ length flags.now }
            requires none { threads.items ≡ [] }
            requires room { length parts.items ≤ vec_capacity threads }
            requires ready { (assigned : Assigned) × AreReady heap.now assigned (length parts.items) parts.items }
            ensures { (assigned : Assigned) → AreReady heap.entry.now assigned (length parts.items) parts.items → IsDone heap.entry.now assigned (length parts.items) 0 (length parts.items) result }
        { run_in(scope, rt, heap, gate, flags, parts, threads) },
    ))
}
