//! The steps of a case again, on a heap that threads could share: each by `Bundle::step`.
ghost use Rattle.std.specs.Prelude.{◌≡◌, ◌≢◌, ◌<◌, ℕ, true, Some, IfOk};
ghost use Rattle.step_core.specs.Machines.{may_begin};
ghost use Rattle.table_heap.specs.State.{config_in, HasMachine, machine_at, IsBundleOf, IsSameBundle};
ghost use Rattle.table_heap.specs.Running.{AreAtWork, next_for};
ghost use Rattle.heap_tests.specs.Ordered.{IsOrdered, IsPlaying};

use crate::scene::{Case, Turn, scripts};
use heap_words::Config;
use shen_graph::{Reply, Work};
use std::alloc::Global;
use std::test::Fail;
use table_heap::{Bundle, Heap, Stepped};

// Orders what follows, of a machine that stands between two calls: its next command, or its end.
fn order(bundle: &mut Bundle, work: &Work, number: usize, between: bool)
    requires here { HasMachine bundle.old number }
    requires work { AreAtWork bundle.old work.now }
    requires between { between ≡ true → may_begin (machine_at bundle.old number) ≡ true }
    ensures { IsOrdered bundle.old bundle.new (next_for (config_in bundle.old) work.now number) number }
{
    if !between {
        return;
    }
    match work.next(number) {
        Some(command) => bundle.begin(number, command),
        None => bundle.finish(number),
    }
}

// One turn of a machine by its script, which begins or ends a call where it is known to stand between two.
fn turn(heap: &Heap, bundle: &mut Bundle, work: &mut Work, number: usize, between: bool) -> Stepped
    requires heap { IsBundleOf bundle.old heap.now }
    requires here { HasMachine bundle.old number }
    requires work { AreAtWork bundle.old work.old }
    requires between { between ≡ true → may_begin (machine_at bundle.old number) ≡ true }
    ensures same { IsSameBundle bundle.old bundle.new }
    ensures work { AreAtWork bundle.new work.new }
    ensures others { (other : ℕ) → other ≢ number → machine_at bundle.new other ≡ machine_at bundle.old other }
    ensures done { result ≡ Stepped.Done → may_begin (machine_at bundle.new number) ≡ true }
{
    order(bundle, work, number, between);
    let said = bundle.step(heap, number);
    if let Stepped::Done = said {
        work.told(number, bundle.reply(number));
    }
    said
}

/// A heap with all its machines, the work of its threads, and which of these are known to stand between two calls.
#[derive(Drop)]
pub(crate) struct Shared {
    heap: Heap,
    bundle: Bundle,
    work: Work,
    config: Config,
    between: [bool; 8],
}

impl Shared {
    /// Before the first step.
    pub(crate) fn open(alloc: Global, case: &Case) -> Result<Shared, Fail>
        ensures { IfOk result (λ shared. IsPlaying shared.heap shared.bundle shared.work shared.config shared.between) }
    {
        let scripts = scripts(alloc, case.scripts)?;
        let mutators = scripts.len();
        let config = Config::new(case.regions, 64, mutators, 0, 0)?;
        let work = Work::of(alloc, scripts)?;
        let (heap, mut bundles) = Heap::open(alloc, config, 1)?;
        let Some(bundle) = bundles.pop() else {
            unreachable!()
        };
        let between = [true; 8];
        Ok(Shared {
            heap,
            bundle,
            work,
            config,
            between,
        })
    }

    /// Makes a step of the same machine. Whether it says the same.
    pub(crate) fn repeats(&mut self, turn_then: Turn) -> bool
        requires { IsPlaying self.old.heap self.old.bundle self.old.work self.old.config self.old.between }
        ensures { IsPlaying self.new.heap self.new.bundle self.new.work self.new.config self.new.between }
    {
        let number = turn_then.number;
        if number >= self.config.seats() {
            return false;
        }
        let between = number < self.config.mutators() && self.between[number];
        let said = turn(
            &self.heap,
            &mut self.bundle,
            &mut self.work,
            number,
            between,
        );
        if number < self.config.mutators() {
            self.between[number] = said == Stepped::Done;
        }
        said == turn_then.said
    }

    /// Whether the threads were answered so.
    pub(crate) fn answered(&self, replies: &[&[Reply]]) -> bool
        requires { IsPlaying self.now.heap self.now.bundle self.now.work self.now.config self.now.between }
    {
        for thread in 0..replies.len().min(self.config.mutators()) {
            if self.work.replies(thread).list() != replies[thread] {
                return false;
            }
        }
        true
    }
}
