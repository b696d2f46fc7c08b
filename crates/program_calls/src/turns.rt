//! The gate through which one machine goes at a time.
ghost use Rattle.std.specs.Prelude.{◌≡◌, ◌≤◌, ◌<◌, ◌+◌, IfOk, IfSome, OnOk};
ghost use Rattle.std.specs.List.{AllByRecursion};
ghost use Rattle.heap_words.specs.Ranges.{seat_count};
ghost use Rattle.trace_reading.specs.Spelling.{IsItem};
ghost use Rattle.trace_runs.specs.Words.{usual_steps};
ghost use Rattle.program_calls.specs.Noted.{IsOfSteps, steps_named};

use heap_words::{Config, Item, NoMemory, Schedule};
use std::alloc::Global;
use std::sync::atomic::{AtomicBool, AtomicU64, Ordering};
use std::thread;
use table_heap::Gate;

/// A gate that lets machines through one at a time, and notes whose step it was, as far as there is room. It holds each machine at first
/// until all have come, for a while.
#[derive(Drop)]
pub struct Turns {
    // Whether each machine has come.
    came: Vec<AtomicBool>,
    // How many have.
    present: AtomicU64,
    // Whether a machine is between the gate and the end of its step.
    taken: AtomicBool,
    // How many steps were made.
    made: AtomicU64,
    // The machine of each step.
    machines: Vec<AtomicU64>,
}

// How often a machine that has come looks at most whether all have.
const LOOKS: u64 = 100_000;

// The most steps of an item of a schedule.
const MOST_COUNT: u64 = 4_000_000_000;

// The most steps of a schedule, as many as a replay makes where the words do not say.
const MOST_STEPS: u64 = 100_000_000;

// So many flags, none of which is set.
fn flags(alloc: Global, count: usize) -> Result<Vec<AtomicBool>, NoMemory> {
    let Ok(mut flags) = Vec::with_capacity(alloc, count) else {
        return Err(NoMemory);
    };
    for _ in 0..count {
        if flags.push(AtomicBool::new(false)).is_err() {
            return Err(NoMemory);
        }
    }
    Ok(flags)
}

// So many numbers, each of which is 0.
fn zeros(alloc: Global, count: usize) -> Result<Vec<AtomicU64>, NoMemory> {
    let Ok(mut zeros) = Vec::with_capacity(alloc, count) else {
        return Err(NoMemory);
    };
    for _ in 0..count {
        if zeros.push(AtomicU64::new(0)).is_err() {
            return Err(NoMemory);
        }
    }
    Ok(zeros)
}

// Adds so many steps of a machine to a schedule, if there are any.
#[tactic(auto, using(crate::proofs::Schedules::items_one, crate::proofs::Schedules::of_steps_one, crate::proofs::Schedules::steps_one))]
fn put(
    alloc: Global,
    schedule: &mut Schedule,
    config: &Config,
    number: usize,
    count: u64,
) -> Result<(), NoMemory>
    requires here { number < seat_count config.now.mutators config.now.helpers }
    requires few { count ≤ 4000000000 }
    requires items { AllByRecursion (IsItem config.now) schedule.old }
    requires of_steps { AllByRecursion IsOfSteps schedule.old }
    ensures items { OnOk result (AllByRecursion (IsItem config.now) schedule.new) }
    ensures of_steps { OnOk result (AllByRecursion IsOfSteps schedule.new) }
    ensures steps { OnOk result (steps_named schedule.new ≡ steps_named schedule.old + count) }
{
    if count > 0 {
        schedule.push(alloc, Item::Steps { number, count })?;
    }
    Ok(())
}

impl Turns {
    /// A gate for so many machines, with room for the notes of so many steps.
    pub fn with_room(alloc: Global, machines: usize, steps: usize) -> Result<Turns, NoMemory> {
        Ok(Turns {
            came: flags(alloc, machines)?,
            present: AtomicU64::new(0),
            taken: AtomicBool::new(false),
            made: AtomicU64::new(0),
            machines: zeros(alloc, steps)?,
        })
    }

    /// The schedule of the steps that were made, and how many they are: an item for each stretch of steps of one machine. None where there
    /// was no room for all, or they are more than a replay makes.
    pub fn schedule(
        &self,
        alloc: Global,
        config: &Config,
    ) -> Result<Option<(Schedule, u64)>, NoMemory>
        ensures items { IfOk result (λ found. IfSome found (λ scheduled. AllByRecursion (IsItem config.now) scheduled.0)) }
        ensures of_steps { IfOk result (λ found. IfSome found (λ scheduled. AllByRecursion IsOfSteps scheduled.0)) }
        ensures steps { IfOk result (λ found. IfSome found (λ scheduled. scheduled.1 ≡ steps_named scheduled.0)) }
        ensures few { IfOk result (λ found. IfSome found (λ scheduled. scheduled.1 ≤ usual_steps)) }
    {
        let steps = self.made.load(Ordering::SeqCst);
        if steps > self.machines.len() as u64 || steps > MOST_STEPS {
            return Ok(None);
        }
        let mut schedule = Schedule::open(alloc)?;
        let (mut last, mut count) = (0, 0);
        for step in 0..steps as usize {
            let number = self.machines[step].load(Ordering::SeqCst) as usize;
            if number >= config.seats() {
                return Ok(None);
            }
            if number != last || count == MOST_COUNT {
                put(alloc, &mut schedule, config, last, count)?;
                last = number;
                count = 0;
            }
            count += 1;
        }
        put(alloc, &mut schedule, config, last, count)?;
        Ok(Some((schedule, steps)))
    }

    // Waits for a while until all machines have come, where this one comes.
    fn come(&self, number: usize) {
        let Some(came) = self.came.get(number) else {
            return;
        };
        if came.swap(true, Ordering::SeqCst) {
            return;
        }
        self.present.fetch_add(1, Ordering::SeqCst);
        for _ in 0..LOOKS {
            if self.present.load(Ordering::SeqCst) >= self.came.len() as u64 {
                return;
            }
            thread::yield_now();
        }
    }
}

impl Gate for Turns {
    fn pass(&self, number: usize) {
        self.come(number);
        for _ in 0..u64::MAX {
            if !self.taken.swap(true, Ordering::SeqCst) {
                return;
            }
            thread::yield_now();
        }
    }

    fn leave(&self, number: usize) {
        let step = self.made.fetch_add(1, Ordering::SeqCst);
        if let Some(machine) = self.machines.get(step as usize) {
            machine.store(number as u64, Ordering::SeqCst);
        }
        self.taken.store(false, Ordering::SeqCst);
    }

    fn has_hints(&self) -> bool {
        false
    }
}
