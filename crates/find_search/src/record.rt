//! What a search keeps of the runs that it makes.

use crate::course::Course;
use crate::tally::{Found, Tally};
use find_play::{Test, Verdict};
use heap_words::{Item, NoMemory};
use std::alloc::Global;

/// What was counted, and the machines that made the steps of the schedule that is run.
#[derive(Drop)]
pub(crate) struct Record {
    pub(crate) tally: Tally,
    pub(crate) picks: Vec<usize>,
}

fn add_step(items: &mut Vec<Item>, number: usize) -> Result<(), NoMemory> {
    if let Some(
        Item::Steps {
            number: last,
            count,
        },
    ) = items.last().copied()
    {
        if last == number {
            let at = items.len().saturating_sub(1);
            if at < items.len() {
                items[at] = Item::Steps {
                    number,
                    count: count.saturating_add(1),
                };
            }
            return Ok(());
        }
    }
    match items.push(Item::Steps { number, count: 1 }) {
        Ok(()) => Ok(()),
        Err(_) => Err(NoMemory),
    }
}

// Turns of machines as items, one for each machine that makes some steps.
fn items_of(alloc: Global, picks: &[usize]) -> Result<Vec<Item>, NoMemory> {
    let mut items = Vec::new(alloc);
    for number in picks {
        add_step(&mut items, *number)?;
    }
    Ok(items)
}

impl Record {
    /// Nothing was run.
    pub(crate) fn open(alloc: Global) -> Record {
        Record {
            tally: Tally::open(alloc),
            picks: Vec::new(alloc),
        }
    }

    /// A schedule begins.
    pub(crate) fn begin(&mut self) {
        self.tally.schedules = self.tally.schedules.saturating_add(1);
        self.picks.clear();
    }

    /// Makes a step of a machine. Whether it had one to make.
    pub(crate) fn step(
        &mut self,
        alloc: Global,
        test: &Test,
        course: &mut Course,
        number: usize,
    ) -> Result<bool, NoMemory> {
        let Ok(()) = self.picks.push(number) else {
            return Err(NoMemory);
        };
        self.tally.steps = self.tally.steps.saturating_add(1);
        let made = course.step(alloc, test, number)?;
        Ok(made.is_some())
    }

    /// A schedule is left before its end, since it has no more steps.
    pub(crate) fn cut(&mut self) {
        self.tally.cut = self.tally.cut.saturating_add(1);
    }

    /// Counts a run that is over. The schedule, with its preemptions, where it breaks the test.
    pub(crate) fn end(
        &mut self,
        alloc: Global,
        test: &Test,
        course: &mut Course,
        preemptions: u64,
    ) -> Result<Option<Found>, NoMemory> {
        let Some(ending) = course.ending(alloc, test, test.bounds.steps)? else {
            self.cut();
            return Ok(None);
        };
        self.tally.ended(ending)?;
        match ending.verdict {
            Verdict::Holds => Ok(None),
            verdict => Ok(Some(Found {
                items: items_of(alloc, &self.picks)?,
                verdict,
                preemptions,
            })),
        }
    }
}
