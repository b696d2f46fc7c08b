ghost use Rattle.std.specs.Prelude.{◌≡◌, ◌≢◌, ◌+◌, ◌<◌, ◌≤◌, ℕ, true, Some, IfOk, IfSome, [], ◌∷◌};
ghost use Rattle.shen_graph.specs.Graph.{Graph};
ghost use Rattle.shen_graph.specs.Valid.{most_objects};
ghost use Rattle.shen_core.specs.State.{config_of, seats_of, machine_at};
ghost use Rattle.heap_world.specs.Asking.{nothing};
ghost use Rattle.heap_world.specs.Represents.{Represents};
ghost use Rattle.image_graph.specs.State as images;
ghost use Rattle.step_core.specs.Actor.{fresh_control};
ghost use Rattle.step_core.specs.Opening.{first_free};
ghost use Rattle.step_core.specs.Machines.{may_begin, is_resting, made_of_machine, reply_in};

use full_cycle::full;
use heap_words::Config;
use image_graph::Image;
use shen_core::{Plain, Stepped};
use shen_graph::{Command, Name, Reply};
use std::alloc::Global;
use std::process::Abort;
use std::test::Fail;

// A call by what `begin`, `step` and `reply` promise alone: steps are made until one says that the call has ended, and the
// reply is there then. No other machine moves. None where so many steps do not end it, or the command is not in range.
pub(crate) fn call(
    plain: &mut Plain,
    number: usize,
    command: Command,
    limit: usize,
) -> Option<Reply>
    requires number { number < seats_of plain.old }
    requires rest { may_begin (machine_at plain.old number) ≡ true }
    requires made { made_of_machine (machine_at plain.old number) < most_objects }
    ensures replied { IfSome result (λ reply. reply_in (machine_at plain.new number) ≡ Some reply) }
    ensures config { config_of plain.new ≡ config_of plain.old }
    ensures others { (other : ℕ) → other ≢ number → machine_at plain.new other ≡ machine_at plain.old other }
{
    if !command.is_valid() {
        return None;
    }
    plain.begin(number, command);
    for _ in 0..limit {
        if let Stepped::Done = plain.step(number) {
            return Some(plain.reply(number));
        }
    }
    None
}

// The words of a heap with one mutator and no helper, in which nobody does anything, as an image: they represent a graph, in which the thread
// has made as many objects as its machine says.
fn image_of(alloc: Global, plain: &Plain) -> Result<Image, Fail>
    requires seats { ((config_of plain.now).mutators ≡ 1) × ((config_of plain.now).helpers ≡ 0) }
    requires rest { is_resting (machine_at plain.now 0) ≡ true }
    requires control { machine_at plain.now 1 ≡ fresh_control (first_free (config_of plain.now).regions) }
    ensures config { IfOk result (λ image. images.config_of image ≡ config_of plain.now) }
    ensures stands { IfOk result (λ image. ∥ ((graph : Graph) × Represents (config_of plain.now) (images.memory_of image) graph (λ mutator. nothing) × (graph.count 1 ≡ made_of_machine (machine_at plain.now 0))) ∥₁) }
{
    let config = plain.config();
    let mut image = Image::open(alloc, config)?;
    for at in 0..config.table_words() {
        image.set_word(at, plain.word(at));
    }
    Ok(image)
}

// A heap that goes on from such an image, whose mutator may be given a command: no pause is wanted, the mutator is outside, and it has
// not ended.
fn goes_on(alloc: Global, mut image: Image, made: u32) -> Result<Plain, Fail>
    requires seats { ((images.config_of image).mutators ≡ 1) × ((images.config_of image).helpers ≡ 0) }
    requires stands { ∥ ((graph : Graph) × Represents (images.config_of image) (images.memory_of image) graph (λ mutator. nothing) × (graph.count 1 ≡ made)) ∥₁ }
    ensures config { IfOk result (λ plain. config_of plain ≡ images.config_of image) }
    ensures rest { IfOk result (λ plain. may_begin (machine_at plain 0) ≡ true) }
    ensures made { IfOk result (λ plain. made_of_machine (machine_at plain 0) ≡ made) }
{
    let config = image.config();
    image.set_word(config.pause_at(), 0);
    image.set_word(config.state_at(0), 0);
    image.set_word(config.left_at(), 1);
    let plain = Plain::open_from(alloc, image, &[made])?;
    Ok(plain)
}

// A heap that goes on from the words with which one begins.
fn resumed(alloc: Global, config: Config) -> Result<Plain, Fail>
    requires seats { (config.mutators ≡ 1) × (config.helpers ≡ 0) }
    ensures config { IfOk result (λ plain. config_of plain ≡ config) }
    ensures rest { IfOk result (λ plain. may_begin (machine_at plain 0) ≡ true) }
    ensures made { IfOk result (λ plain. made_of_machine (machine_at plain 0) ≡ 0) }
{
    let plain = Plain::open(alloc, config)?;
    let image = image_of(alloc, &plain)?;
    goes_on(alloc, image, 0)
}

// A thread asks for a cycle, and needs six steps for it: two to enter, then it loads the phase and the set, asks, and leaves.
// Another one makes an object, whose name is the thread's first.
#[test]
fn calls_go_on_from_an_image(rt: HostRuntime) -> Result<(), Fail> {
    let config = Config::new(4, 64, 1, 0, 0)?;
    for (command, limit, reply, asked) in [(Command::Gc, 6, Reply::Ok, 1), (NEW, 100, made(1), 0)] {
        let mut plain = resumed(rt.alloc(), config)?;
        let given = call(&mut plain, 0, command, limit);
        assert!(rt;
            given == Some(reply) && plain.word(config.ask_at()) == asked && plain.place(0) == None
        );
    }
    Ok(())
}

const NEW: Command = Command::New {
    dst: 1,
    refs: 0,
    nums: 0,
};

// The reply to the `New` that makes the first thread's object of this count.
fn made(count: u32) -> Reply {
    Reply::Ref(Name { thread: 1, count })
}

// The first thread makes an object, whose count is this one, into its root 1.
fn make(rt: &impl Abort, plain: &mut Plain, count: u32)
    requires seats { 0 < seats_of plain.old }
    requires rest { may_begin (machine_at plain.old 0) ≡ true }
    ensures config { config_of plain.new ≡ config_of plain.old }
    ensures rest { (is_resting (machine_at plain.new 0) ≡ true) × (may_begin (machine_at plain.new 0) ≡ true) }
    ensures others { (other : ℕ) → other ≢ 0 → machine_at plain.new other ≡ machine_at plain.old other }
{
    if plain.made(0) == u32::MAX {
        panic!(rt; "the thread has no names left");
    }
    let Some(reply) = call(plain, 0, NEW, 100) else {
        panic!(rt; "the call did not end");
    };
    assert_eq!(rt; reply, made(count));
}

// A heap that goes on from the collected words of one in which nobody does anything.
fn collected(alloc: Global, plain: &Plain) -> Result<Plain, Fail>
    requires seats { ((config_of plain.now).mutators ≡ 1) × ((config_of plain.now).helpers ≡ 0) }
    requires rest { is_resting (machine_at plain.now 0) ≡ true }
    requires control { machine_at plain.now 1 ≡ fresh_control (first_free (config_of plain.now).regions) }
    ensures config { IfOk result (λ later. config_of later ≡ config_of plain.now) }
    ensures rest { IfOk result (λ later. may_begin (machine_at later 0) ≡ true) }
{
    let mut image = image_of(alloc, plain)?;
    full(&mut image);
    goes_on(alloc, image, plain.made(0))
}

// Behind the hub, of 19 words in region 0, a thread makes two objects of three words in region 1, and keeps the second. All words of that
// region are its buffer. After a full collection, which lets the buffer go, the second object stands in region 0, and the heap goes on
// from there: the thread's next object is its third, in a new buffer of all words of region 1.
#[test]
fn a_collected_heap_goes_on(rt: HostRuntime) -> Result<(), Fail> {
    let config = Config::new(4, 64, 1, 0, 0)?;
    let mut plain = Plain::open(rt.alloc(), config)?;
    make(&rt, &mut plain, 1);
    make(&rt, &mut plain, 2);
    let used = [plain.word(config.top_at(0)), plain.word(config.top_at(1))];
    let mut later = collected(rt.alloc(), &plain)?;
    let left = [later.word(config.top_at(0)), later.word(config.top_at(1))];
    make(&rt, &mut later, 3);
    let made = [later.word(config.top_at(0)), later.word(config.top_at(1))];
    assert_eq!(rt; [used, left, made], [[19, 64], [22, 0], [22, 64]]);
    Ok(())
}
