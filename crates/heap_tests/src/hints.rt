//! Hints of marking: whatever is hinted in the middle of it, replies and marks are those that there are without; and machines in a bundle
//! take some.
ghost use Rattle.std.specs.Prelude.{◌≡◌, ◌<◌, true, length, All, IfOk};
ghost use Rattle.shen_core.specs.Progress.{IsRunnable};
ghost use Rattle.shen_core.specs.State.{config_of, seats_of, machine_at};
ghost use Rattle.step_core.specs.Machines.{may_begin};

use crate::calls_step_by_step::call;
use crate::shared_heap::{open_alone, script};
use churn::churn_scripts;
use heap_words::{Config, Place};
use shen_core::Plain;
use shen_graph::{Command, Name, Reply, Script, Work};
use std::alloc::Global;
use std::process::Abort;
use std::sync::Wait;
use std::test::Fail;
use table_heap::{Closed, OpenGate};

// The mutator, and the control behind it.
const MUTATOR: usize = 0;

const CONTROL: usize = 1;

const NEW: Command = Command::New {
    dst: 1,
    refs: 0,
    nums: 0,
};

const STORE: Command = Command::Set {
    obj: 0,
    field: 0,
    val: 1,
};

const FORGET: Command = Command::Drop { dst: 1 };

const TAKE: Command = Command::Xchg {
    dst: 1,
    obj: 0,
    field: 0,
    val: 2,
};

const OBJECT: Reply = Reply::Ref(Name {
    thread: 1,
    count: 1,
});

// An object is made, and named by a field of the hub alone. While objects are marked, the thread takes it out of the field and lets it go.
// In the next cycle it is garbage.
const MADE: &[(Command, Reply)] = &[
    (NEW, OBJECT),
    (STORE, Reply::Ok),
    (FORGET, Reply::Ok),
    (Command::Gc, Reply::Ok),
];

const TAKEN: &[(Command, Reply)] = &[(TAKE, OBJECT), (FORGET, Reply::Ok)];

const AGAIN: &[(Command, Reply)] = &[(Command::Gc, Reply::Ok)];

/// What is hinted: each is the first address of a region.
#[derive(Clone, Copy)]
enum Hinted {
    /// The hub, in region 0.
    Hub,
    /// The object, in region 1.
    Object,
    /// No object, in region 2, which is free.
    Nothing,
}

impl Hinted {
    fn region(self) -> usize
        ensures { result < 3 }
    {
        match self {
            Hinted::Hub => 0,
            Hinted::Object => 1,
            Hinted::Nothing => 2,
        }
    }
}

/// What the marks say of an address.
#[derive(Clone, Copy, Debug, PartialEq, Eq)]
enum Colour {
    White,
    Grey,
    Black,
}

// What is hinted at the claim with which marking begins, and once the thread has taken the object; and in the next cycle, where the object
// is garbage.
const BEFORE: &[(Hinted, Colour)] = &[
    (Hinted::Object, Colour::White),
    (Hinted::Nothing, Colour::White),
];

const BEHIND: &[(Hinted, Colour)] = &[
    (Hinted::Hub, Colour::Grey),
    (Hinted::Hub, Colour::Black),
    (Hinted::Object, Colour::White),
];

const GARBAGE: &[(Hinted, Colour)] = &[
    (Hinted::Object, Colour::White),
    (Hinted::Hub, Colour::Grey),
    (Hinted::Hub, Colour::Black),
];

// The colour of the first address of a region: a region of 64 words has one word of each kind of marks.
fn colour_of(plain: &Plain, region: usize) -> Colour
    requires heap { ((config_of plain.now).regions ≡ 4) × ((config_of plain.now).region_words ≡ 64) }
    requires region { region < 3 }
{
    let config = plain.config();
    if plain.word(config.black_at(region)) & 1 == 1 {
        Colour::Black
    } else if plain.word(config.grey_at(region)) & 1 == 1 {
        Colour::Grey
    } else {
        Colour::White
    }
}

// The control goes on to the place.
fn go_to(rt: &impl Abort, plain: &mut Plain, place: Place)
    requires seats { 1 < seats_of plain.old }
    ensures config { config_of plain.new ≡ config_of plain.old }
    ensures mutator { machine_at plain.new 0 ≡ machine_at plain.old 0 }
{
    for _ in 0..10_000 {
        if plain.place(CONTROL).is_some_and(|at| at.is(place)) {
            return;
        }
        plain.step(CONTROL);
    }
    panic!(rt; "the control does not come to the place");
}

// The control, which stands before a claim, takes each of these hints, and goes on until it stands there again. The colours are those that the
// addresses have then.
fn hint(rt: &impl Abort, plain: &mut Plain, hints: &[(Hinted, Colour)])
    requires heap { ((config_of plain.old).regions ≡ 4) × ((config_of plain.old).region_words ≡ 64) }
    requires seats { 1 < seats_of plain.old }
    ensures config { config_of plain.new ≡ config_of plain.old }
    ensures mutator { machine_at plain.new 0 ≡ machine_at plain.old 0 }
{
    for (hinted, wanted) in hints.iter() {
        let region = hinted.region();
        assert_eq!(rt; colour_of(plain, region), *wanted);
        if !plain.takes_hint(CONTROL) {
            panic!(rt; "the control takes no hint");
        }
        plain.hint(CONTROL, 64 * (region as u64 + 1));
        plain.step(CONTROL);
        go_to(rt, plain, Place::MC);
    }
}

// The thread makes the calls, and these are the replies.
fn make_calls(rt: &impl Abort, plain: &mut Plain, calls: &[(Command, Reply)])
    requires seats { 1 < seats_of plain.old }
    requires rest { may_begin (machine_at plain.old 0) ≡ true }
    ensures config { config_of plain.new ≡ config_of plain.old }
    ensures rest { may_begin (machine_at plain.new 0) ≡ true }
{
    for (command, wanted) in calls.iter() {
        if plain.made(MUTATOR) == u32::MAX {
            panic!(rt; "the thread has no names left");
        }
        let Some(reply) = call(plain, MUTATOR, *command, 1_000) else {
            panic!(rt; "the call did not end");
        };
        assert_eq!(rt; reply, *wanted);
    }
}

// The object is black at the end of the marking in which it was taken, and white at the end of the next one, whatever was hinted.
#[test]
fn hints_change_no_mark(rt: HostRuntime) -> Result<(), Fail> {
    let config = Config::new(4, 64, 1, 0, 0)?;
    for (before, behind, garbage) in [
        ([].as_slice(), [].as_slice(), [].as_slice()),
        (BEFORE, BEHIND, GARBAGE),
    ] {
        let mut plain = Plain::open(rt.alloc(), config)?;
        make_calls(&rt, &mut plain, MADE);
        go_to(&rt, &mut plain, Place::MC);
        hint(&rt, &mut plain, before);
        make_calls(&rt, &mut plain, TAKEN);
        hint(&rt, &mut plain, behind);
        go_to(&rt, &mut plain, Place::P3);
        assert_eq!(rt; colour_of(&plain, Hinted::Object.region()), Colour::Black);
        go_to(&rt, &mut plain, Place::I0);
        make_calls(&rt, &mut plain, AGAIN);
        go_to(&rt, &mut plain, Place::MC);
        hint(&rt, &mut plain, garbage);
        go_to(&rt, &mut plain, Place::P3);
        assert_eq!(rt; colour_of(&plain, Hinted::Object.region()), Colour::White);
    }
    Ok(())
}

// The scripts again, of those of their commands that are in range, which all are.
fn in_range(alloc: Global, scripts: &[Script]) -> Result<Vec<Script>, Fail>
    ensures count { IfOk result (λ made. length made.items ≡ length scripts.now) }
    ensures runnable { IfOk result (λ made. All IsRunnable made.items) }
{
    let mut made = Vec::new(alloc);
    for commands in scripts.iter() {
        made.push(script(alloc, commands.list())?)?;
    }
    Ok(made)
}

// One thread runs all machines of a heap, until they are idle.
fn run_alone<R: Wait>(
    rt: &R,
    alloc: Global,
    config: Config,
    scripts: &[Script],
) -> Result<Closed, Fail>
    requires count { length scripts.now ≡ config.mutators }
    requires runnable { All IsRunnable scripts.now }
{
    let (heap, mut bundle) = open_alone(alloc, config)?;
    let mut work = Work::open(alloc, scripts)?;
    bundle.run(rt, &heap, &mut work, &OpenGate);
    Ok(heap.close(bundle))
}

// In the heap of a churn some of the hints are taken.
#[test]
fn hints_taken(rt: HostRuntime) -> Result<(), Fail> {
    let config = Config::new(16, 256, 3, 2, 2)?;
    let scripts = in_range(rt.alloc(), &churn_scripts(rt.alloc(), 7, 200)?)?;
    let closed = run_alone(&rt, rt.alloc(), config, &scripts)?;
    assert!(rt; closed.hinted() >= 1);
    Ok(())
}
