//! Schedules as items.

use crate::course::{Course, Ending};
use crate::handing::empty_scripts;
use find_play::Test;
use heap_words::{Item, NoMemory, Place};
use shen_core::Stepped;
use shen_graph::{Command, Script};
use std::alloc::Global;

/// What a run of a schedule was.
#[derive(Drop)]
pub struct Shape {
    /// The commands of each thread, that of thread 1 first.
    pub scripts: Vec<Script>,
    /// How it ended.
    pub ending: Ending,
    /// Its steps up to the end of the last mutator.
    pub steps: u64,
}

// A run of a test, the commands that its threads have given, and how many steps it may still make.
#[derive(Drop)]
struct Logged {
    course: Course,
    scripts: Vec<Script>,
    left: u64,
}

impl Logged {
    fn open(alloc: Global, test: &Test, steps: u64) -> Result<Logged, NoMemory> {
        Ok(Logged {
            course: Course::open(alloc, test)?,
            scripts: empty_scripts(alloc, test.config.mutators())?,
            left: steps,
        })
    }

    // Notes the command that the machine's next step begins, if it begins one.
    fn note(&mut self, alloc: Global, number: usize) -> Result<(), NoMemory> {
        if self.course.place(number).is_some() || !self.course.has_next(number) {
            return Ok(());
        }
        let Some(command) = self.course.next(number) else {
            return Ok(());
        };
        if number < self.scripts.len() {
            let Ok(()) = self.scripts[number].push(alloc, command) else {
                return Err(NoMemory);
            };
        }
        Ok(())
    }

    // One step of a machine, as far as there are steps left. What the machine said.
    fn step(&mut self, alloc: Global, test: &Test, number: usize) -> Result<Stepped, NoMemory> {
        if self.left == 0 {
            return Ok(Stepped::Idle);
        }
        self.note(alloc, number)?;
        match self.course.step(alloc, test, number)? {
            Some(seen) => {
                self.left = self.left.saturating_sub(1);
                Ok(seen.said)
            }
            None => Ok(Stepped::Idle),
        }
    }

    // Steps of one machine, so many or fewer.
    fn steps(
        &mut self,
        alloc: Global,
        test: &Test,
        number: usize,
        count: u64,
    ) -> Result<(), NoMemory> {
        for _ in 0..count {
            if let Stepped::Idle = self.step(alloc, test, number)? {
                return Ok(());
            }
        }
        Ok(())
    }

    // Steps of one machine until it stands at the place.
    fn until(
        &mut self,
        alloc: Global,
        test: &Test,
        number: usize,
        place: Place,
    ) -> Result<(), NoMemory> {
        for _ in 0..self.left {
            if self.course.is_at_place(number, place) {
                return Ok(());
            }
            if let Stepped::Idle = self.step(alloc, test, number)? {
                return Ok(());
            }
        }
        Ok(())
    }

    // Steps of a mutator until it has given so many replies; behind each that waits the control makes one.
    fn replies(
        &mut self,
        alloc: Global,
        test: &Test,
        number: usize,
        count: u64,
    ) -> Result<(), NoMemory> {
        let control = self.course.seats() - 1;
        for _ in 0..self.left {
            if self.course.replies(number) >= count {
                return Ok(());
            }
            match self.step(alloc, test, number)? {
                Stepped::Idle => return Ok(()),
                Stepped::Again => {
                    let _ = self.step(alloc, test, control)?;
                }
                Stepped::More | Stepped::Done => {}
            }
        }
        Ok(())
    }

    // The items of a schedule.
    fn items(&mut self, alloc: Global, test: &Test, items: &[Item]) -> Result<(), NoMemory> {
        for item in items {
            match *item {
                Item::Steps { number, count } => self.steps(alloc, test, number, count)?,
                Item::Until { number, place } => self.until(alloc, test, number, place)?,
                Item::Replies { number, count } => self.replies(alloc, test, number, count)?,
            }
        }
        Ok(())
    }

    // Rounds until all mutators have ended, or no steps are left.
    fn rounds(&mut self, alloc: Global, test: &Test) -> Result<(), NoMemory> {
        for _ in 0..self.left {
            if self.left == 0 || self.course.is_over() {
                return Ok(());
            }
            for number in 0..self.course.seats() {
                let _ = self.step(alloc, test, number)?;
            }
        }
        Ok(())
    }
}

/// Runs the items of a schedule and then rounds, of so many steps at most, with the commands that the threads of the test give by the
/// replies of that very run. None where the run is longer.
pub fn run_items(
    alloc: Global,
    test: &Test,
    items: &[Item],
    steps: u64,
) -> Result<Option<Shape>, NoMemory> {
    let mut run = Logged::open(alloc, test, steps)?;
    run.items(alloc, test, items)?;
    run.rounds(alloc, test)?;
    if !run.course.is_over() {
        return Ok(None);
    }
    let made = run.course.steps();
    match run.course.ending(alloc, test, run.left)? {
        Some(ending) => Ok(Some(Shape {
            scripts: run.scripts,
            ending,
            steps: made,
        })),
        None => Ok(None),
    }
}

/// Where a machine stands behind the items of a schedule, if it is inside a call or a round, and how many replies it has given.
pub fn place_behind(
    alloc: Global,
    test: &Test,
    items: &[Item],
    number: usize,
    steps: u64,
) -> Result<(Option<Place>, u64), NoMemory> {
    let mut run = Logged::open(alloc, test, steps)?;
    run.items(alloc, test, items)?;
    Ok((run.course.place(number), run.course.replies(number)))
}
