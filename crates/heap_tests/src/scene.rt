//! A trace on a heap of one thread, played item by item.
ghost use Rattle.std.specs.Prelude.{◌≡◌, ◌≤◌, true, length, All, IfOk};
ghost use Rattle.shen_core.specs.Progress.{IsRunnable, IsInSeats, CanRun};
ghost use Rattle.shen_core.specs.State.{config_of};
ghost use Rattle.shen_core.specs.Agendas.{IsWalkOf};

use heap_words::{Config, Item, Place, Schedule};
use shen_core::{Plain, Stepped, Walk};
use shen_graph::{Command, Reply, Script, Work};
use std::alloc::Global;
use std::test::Fail;

/// The scripts of a heap's threads, what is made before a machine is stopped, which one it is, and what is made then; and what the
/// threads are answered in all.
pub(crate) struct Case {
    pub(crate) regions: usize,
    pub(crate) scripts: &'static [&'static [Command]],
    pub(crate) before: &'static [Item],
    pub(crate) stopped: usize,
    pub(crate) after: &'static [Item],
    pub(crate) replies: &'static [&'static [Reply]],
}

/// A step: whose, where it stood, and what it said.
#[derive(Clone, Copy, Debug, PartialEq, Eq)]
pub(crate) struct Turn {
    pub(crate) number: usize,
    pub(crate) place: Place,
    pub(crate) said: Stepped,
}

// A script of those of these commands that are in range, a hundred at most.
fn script(alloc: Global, commands: &[Command]) -> Result<Script, Fail>
    ensures { IfOk result (λ script. IsRunnable script) }
{
    let mut script = Script::open(alloc)?;
    for number in 0..commands.len().min(100) {
        if commands[number].is_valid() {
            script.push(alloc, commands[number])?;
        }
    }
    Ok(script)
}

/// The scripts of so many threads, eight at most.
pub(crate) fn scripts(alloc: Global, lists: &[&[Command]]) -> Result<Vec<Script>, Fail>
    ensures runnable { IfOk result (λ scripts. All IsRunnable scripts.items) }
    ensures count { IfOk result (λ scripts. length scripts.items ≤ 8) }
{
    let mut scripts = Vec::new(alloc);
    for number in 0..lists.len().min(8) {
        scripts.push(script(alloc, lists[number])?)?;
    }
    Ok(scripts)
}

// Whether a heap has the machine of an item, and a mutator where it counts replies.
fn is_in_seats(config: Config, item: Item) -> bool
    ensures { result ≡ true → IsInSeats config item }
{
    match item {
        Item::Steps { number, .. } | Item::Until { number, .. } => number < config.seats(),
        Item::Replies { number, .. } => number < config.mutators(),
    }
}

// The items of a case, with the one that stops its machine, those that the heap has machines for.
fn schedule(alloc: Global, config: Config, case: &Case, place: Place) -> Result<Schedule, Fail>
    ensures { IfOk result (λ items. All (IsInSeats config) items) }
{
    let mut items = Vec::new(alloc);
    items.extend_from_slice(case.before)?;
    items.push(Item::Until {
        number: case.stopped,
        place,
    })?;
    items.extend_from_slice(case.after)?;
    let mut schedule = Schedule::open(alloc)?;
    for number in 0..items.len() {
        if is_in_seats(config, items[number]) {
            schedule.push(alloc, items[number])?;
        }
    }
    Ok(schedule)
}

// A heap before its first event, and work for its threads.
fn opened(alloc: Global, case: &Case) -> Result<(Plain, Work), Fail>
    ensures { IfOk result (λ opened. CanRun opened.0 opened.1) }
{
    let scripts = scripts(alloc, case.scripts)?;
    let config = Config::new(case.regions, 64, scripts.len(), 0, 0)?;
    let work = Work::of(alloc, scripts)?;
    let plain = Plain::open(alloc, config)?;
    Ok((plain, work))
}

/// A case that is played, and the steps so far.
#[derive(Drop)]
pub(crate) struct Scene {
    pub(crate) plain: Plain,
    pub(crate) work: Work,
    pub(crate) walk: Walk,
    turns: Vec<Turn>,
}

impl Scene {
    /// Before the first step.
    pub(crate) fn open(alloc: Global, case: &Case, place: Place) -> Result<Scene, Fail>
        ensures { IfOk result (λ scene. CanRun scene.plain scene.work × IsWalkOf (config_of scene.plain) scene.walk) }
    {
        let (plain, work) = opened(alloc, case)?;
        let walk = Walk::open(schedule(alloc, plain.config(), case, place)?);
        Ok(Scene {
            plain,
            work,
            walk,
            turns: Vec::new(alloc),
        })
    }

    // Makes the next step. Whether there was one.
    fn goes_on(&mut self) -> Result<bool, Fail>
        requires { CanRun self.old.plain self.old.work × IsWalkOf (config_of self.old.plain) self.old.walk }
        ensures { CanRun self.new.plain self.new.work × IsWalkOf (config_of self.new.plain) self.new.walk }
    {
        let Some(seen) = self.walk.next(&mut self.plain, &mut self.work) else {
            return Ok(false);
        };
        self.turns.push(Turn {
            number: seen.number,
            place: seen.place,
            said: seen.said,
        })?;
        Ok(true)
    }

    /// Makes the steps of so many items, counted from the first.
    pub(crate) fn goes_to(&mut self, items: usize) -> Result<(), Fail>
        requires { CanRun self.old.plain self.old.work × IsWalkOf (config_of self.old.plain) self.old.walk }
        ensures { CanRun self.new.plain self.new.work × IsWalkOf (config_of self.new.plain) self.new.walk }
    {
        for _ in 0..10_000 {
            let next = self.walk.find(&self.plain, &self.work);
            if next.is_none() || !self.walk.is_at_item() || self.walk.begun() > items {
                return Ok(());
            }
            let _ = self.goes_on()?;
        }
        Ok(())
    }

    /// Makes all other steps. Whether the machines have ended then.
    pub(crate) fn ends(&mut self) -> Result<bool, Fail>
        requires { CanRun self.old.plain self.old.work × IsWalkOf (config_of self.old.plain) self.old.walk }
        ensures { CanRun self.new.plain self.new.work × IsWalkOf (config_of self.new.plain) self.new.walk }
    {
        for _ in 0..10_000 {
            if !self.goes_on()? {
                return Ok(true);
            }
        }
        Ok(false)
    }

    /// Where a machine stands; None where it makes no step, or the heap has no such machine.
    pub(crate) fn place(&self, number: usize) -> Option<Place> {
        if number < self.plain.seats() {
            self.plain.place(number)
        } else {
            None
        }
    }

    /// The word at an index of the table, if there is one.
    pub(crate) fn word(&self, at: usize) -> Option<u64> {
        if at < self.plain.config().table_words() {
            Some(self.plain.word(at))
        } else {
            None
        }
    }

    /// The configuration of the heap.
    pub(crate) fn config(&self) -> Config {
        self.plain.config()
    }

    /// The steps that were made.
    pub(crate) fn turns(&self) -> &[Turn] {
        &self.turns
    }

    /// Whether the threads were answered so.
    pub(crate) fn answered(&self, replies: &[&[Reply]]) -> bool
        requires { CanRun self.now.plain self.now.work × IsWalkOf (config_of self.now.plain) self.now.walk }
    {
        for thread in 0..replies.len().min(self.plain.config().mutators()) {
            if self.work.replies(thread).list() != replies[thread] {
                return false;
            }
        }
        true
    }
}
