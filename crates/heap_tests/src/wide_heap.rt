//! A heap with larger regions than a trace can have: 64 of 65,536 words.
ghost use Rattle.std.specs.Prelude.{◌<◌, length, All, IfOk};
ghost use Rattle.shen_graph.specs.Valid.{IsValid, most_objects};
ghost use Rattle.shen_graph.specs.Work.{HasScript};
ghost use Rattle.table_heap.specs.State.{IsBundleOf};
ghost use Rattle.table_heap.specs.Running.{CanStart};

use crate::shared_heap::Passes;
use heap_words::Config;
use shen_graph::{Command, Name, Reply, Script, Work};
use std::alloc::Global;
use std::sync::atomic::{AtomicU64, Ordering};
use std::test::Fail;
use table_heap::{Bundle, Heap};

const MAKE: Command = Command::New {
    dst: 1,
    refs: 1,
    nums: 1,
};

// Both mutators want their object in a field of the hub, which is null.
const RACE: Command = Command::Cas {
    obj: 0,
    field: 3,
    expect: 2,
    val: 1,
};

const LOAD: Command = Command::Get {
    dst: 3,
    src: 0,
    field: 3,
};

const IDLE: Command = Command::Drop { dst: 5 };

// For so many commands a mutator lives on while the cycle goes on.
const LONG: u32 = 1_000;

// The pause that begins marking loads and stores each word of marks, of which there are two for 64 words of the heap.
const MARKS: u64 = 2 * 2 * 65_536;

// And no word of the heap.
const HEAP: u64 = 64 * 65_536;

// A script of those of these commands that are in range, and then, up to so many in all, of some that only take time.
fn script(alloc: Global, commands: &[Command], long: u32) -> Result<Script, Fail>
    requires { long < most_objects }
    ensures valid { IfOk result (λ script. All IsValid script) }
    ensures few { IfOk result (λ script. length script < most_objects) }
{
    let mut script = Script::open(alloc)?;
    for number in 0..long as usize {
        let command = if number < commands.len() {
            commands[number]
        } else {
            IDLE
        };
        if command.is_valid() {
            script.push(alloc, command)?;
        }
    }
    Ok(script)
}

// A heap of two mutators, all its machines in one bundle, and work in which they race, and one asks for a cycle and lives on.
fn opened(alloc: Global) -> Result<(Heap, Bundle, Work), Fail>
    ensures heap { IfOk result (λ made. IsBundleOf made.1 made.0) }
    ensures start { IfOk result (λ made. CanStart made.1 made.2) }
    ensures scripts { IfOk result (λ made. HasScript made.2 0 × HasScript made.2 1) }
{
    let config = Config::wide(64, 65_536, 2, 0, 0)?;
    let (heap, mut bundles) = Heap::open(alloc, config, 1)?;
    let Some(bundle) = bundles.pop() else {
        unreachable!()
    };
    let mut scripts = Vec::new(alloc);
    scripts.push(script(alloc, &[MAKE, RACE, LOAD, Command::Gc], LONG)?)?;
    scripts.push(script(alloc, &[MAKE, RACE, LOAD], 3)?)?;
    let work = Work::open(alloc, &scripts)?;
    Ok((heap, bundle, work))
}

// An object of a thread, its first.
fn first_of(thread: u32) -> Reply {
    Reply::Ref(Name { thread, count: 1 })
}

// One of the two gets its object into the field, both find it there, and a cycle begins, by a pause that goes through the marks of the whole heap.
#[test]
fn a_wide_heap_runs(rt: HostRuntime) -> Result<(), Fail> {
    let (heap, mut bundle, mut work) = opened(rt.alloc())?;
    let gate = Passes {
        steps: AtomicU64::new(0),
        last: AtomicU64::new(0),
    };
    bundle.run(&rt, &heap, &mut work, &gate);
    let first = [first_of(1), Reply::Yes, first_of(1), Reply::Ok];
    let second = [first_of(2), Reply::No, first_of(1)];
    let replies = work.replies(0).list();
    assert!(rt; replies.len() == LONG as usize);
    assert!(rt; replies.starts_with(&first));
    assert!(rt; work.replies(1).list() == second.as_slice());
    let steps = gate.steps.load(Ordering::SeqCst);
    assert!(rt; steps > MARKS && steps < HEAP);
    Ok(())
}
