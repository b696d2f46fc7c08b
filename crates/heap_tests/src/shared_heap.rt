//! Heaps whose machines lie in a bundle, which one thread steps.
ghost use Rattle.std.specs.Prelude.{◌≡◌, ◌<◌, ◌≤◌, true, length, All, IfOk};
ghost use Rattle.shen_graph.specs.Valid.{IsValid, most_objects};
ghost use Rattle.shen_graph.specs.Work.{HasScript};
ghost use Rattle.step_core.specs.Machines.{may_begin, made_of_machine};
ghost use Rattle.shared_table.specs.Views.{whole, dealt_to};
ghost use Rattle.table_heap.specs.Core.{heap_opening};
ghost use Rattle.table_heap.specs.State.{config_of, IsBundleOf, IsFresh, HasMachine, machine_at};
ghost use Rattle.table_heap.specs.Running.{CanStart};

use heap_words::Config;
use shen_graph::{Command, Name, Reply, Script, Work};
use std::alloc::Global;
use std::sync::atomic::{AtomicU64, Ordering};
use std::test::Fail;
use table_heap::{Bundle, Gate, Heap, Stepped};

const MAKE: Command = Command::New {
    dst: 1,
    refs: 1,
    nums: 1,
};

const STORE: Command = Command::Set {
    obj: 0,
    field: 3,
    val: 1,
};

const LOAD: Command = Command::Get {
    dst: 2,
    src: 0,
    field: 3,
};

/// The first object of thread 1.
const MADE: Reply = Reply::Ref(Name {
    thread: 1,
    count: 1,
});

/// The script of a thread that runs alone beside so many helpers, its replies, and how many steps all machines make, where that
/// is known.
struct Row {
    helpers: usize,
    commands: &'static [Command],
    replies: &'static [Reply],
    steps: u64,
}

const ROWS: &[Row] = &[
    Row {
        helpers: 0,
        commands: &[MAKE, STORE, LOAD],
        replies: &[MADE, Reply::Ok, MADE],
        steps: 80,
    },
    // Each command takes six steps, and the end of the mutator one: thirteen. The control makes one step in each round too, and
    // looks in every third whether a mutator is left, so it sees in the thirteenth that there is none, and ends in the next.
    Row {
        helpers: 0,
        commands: &[Command::Drop { dst: 1 }, Command::Drop { dst: 1 }],
        replies: &[Reply::Ok, Reply::Ok],
        steps: 27,
    },
    // The mutator asks for a pause, and that begins marking, so that there are units to scan. The control ends when the mutator
    // has; the helper sees that only later.
    Row {
        helpers: 1,
        commands: &[MAKE, Command::Gc],
        replies: &[MADE, Reply::Ok],
        steps: 0,
    },
];

// A script of those of these commands that are in range, ten thousand at most.
pub(crate) fn script(alloc: Global, commands: &[Command]) -> Result<Script, Fail>
    ensures valid { IfOk result (λ script. All IsValid script) }
    ensures few { IfOk result (λ script. length script < most_objects) }
{
    let mut script = Script::open(alloc)?;
    for number in 0..commands.len().min(10_000) {
        if commands[number].is_valid() {
            script.push(alloc, commands[number])?;
        }
    }
    Ok(script)
}

// A heap with all its machines in one bundle.
pub(crate) fn open_alone(alloc: Global, config: Config) -> Result<(Heap, Bundle), Fail>
    ensures config { IfOk result (λ made. config_of made.0 ≡ config) }
    ensures fresh { IfOk result (λ made. IsFresh made.0 made.1 (dealt_to 1 0 (whole (heap_opening config).machines))) }
{
    let (heap, mut bundles) = Heap::open(alloc, config, 1)?;
    let Some(bundle) = bundles.pop() else {
        unreachable!()
    };
    Ok((heap, bundle))
}

// A heap of one mutator and so many helpers, all its machines in one bundle, and work in which the mutator does this.
fn opened(alloc: Global, helpers: usize, commands: &[Command]) -> Result<(Heap, Bundle, Work), Fail>
    ensures heap { IfOk result (λ made. IsBundleOf made.1 made.0) }
    ensures start { IfOk result (λ made. CanStart made.1 made.2) }
    ensures script { IfOk result (λ made. HasScript made.2 0) }
    ensures call { IfOk result (λ made. HasMachine made.1 0 × (may_begin (machine_at made.1 0) ≡ true) × (made_of_machine (machine_at made.1 0) ≡ 0)) }
{
    let config = Config::new(4, 64, 1, helpers, 0)?;
    let (heap, bundle) = open_alone(alloc, config)?;
    let mut scripts = Vec::new(alloc);
    scripts.push(script(alloc, commands)?)?;
    let work = Work::open(alloc, &scripts)?;
    Ok((heap, bundle, work))
}

/// How many steps were made, and which machine made the last one.
#[derive(Drop)]
pub(crate) struct Passes {
    pub(crate) steps: AtomicU64,
    pub(crate) last: AtomicU64,
}

impl Gate for Passes {
    fn pass(&self, number: usize) {
        self.steps.fetch_add(1, Ordering::SeqCst);
        self.last.store(number as u64, Ordering::SeqCst);
    }
}

// In each row it is machine 1 that ends last.
#[test]
fn one_thread_runs_all_machines(rt: HostRuntime) -> Result<(), Fail> {
    for row in ROWS {
        let (heap, mut bundle, mut work) = opened(rt.alloc(), row.helpers, row.commands)?;
        let gate = Passes {
            steps: AtomicU64::new(0),
            last: AtomicU64::new(0),
        };
        bundle.run(&rt, &heap, &mut work, &gate);
        assert!(rt; work.replies(0).list() == row.replies);
        assert!(rt; row.steps == 0 || gate.steps.load(Ordering::SeqCst) == row.steps);
        assert!(rt; gate.last.load(Ordering::SeqCst) == 1);
    }
    Ok(())
}

// Lets the mutator make a call, step by step, and end. It has no more steps to make than these.
fn call(heap: &Heap, bundle: &mut Bundle, command: Command) -> Option<Reply>
    requires heap { IsBundleOf bundle.old heap.now }
    requires here { HasMachine bundle.old 0 }
    requires rest { may_begin (machine_at bundle.old 0) ≡ true }
    requires made { made_of_machine (machine_at bundle.old 0) ≡ 0 }
    requires valid { IsValid command }
{
    bundle.begin(0, command);
    for _ in 0..100 {
        if let Stepped::Done = bundle.step(heap, 0) {
            let reply = bundle.reply(0);
            bundle.finish(0);
            return Some(reply);
        }
    }
    None
}

#[test]
fn a_mutator_is_stepped(rt: HostRuntime) -> Result<(), Fail> {
    let (heap, mut bundle, _) = opened(rt.alloc(), 0, &[])?;
    assert!(rt; call(&heap, &mut bundle, MAKE) == Some(MADE));
    Ok(())
}
