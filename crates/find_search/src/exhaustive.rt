//! All schedules within the bounds of a test.

use crate::course::Course;
use crate::mixing::mixed;
use crate::record::Record;
use crate::tally::{Found, Tally};
use crate::tree::{Tree, Turn};
use crate::turns::{Turns, goes_alone, possible_turns};
use find_play::Test;
use heap_words::NoMemory;
use std::alloc::Global;
use std::collections::HashMap;

/// How to search.
#[derive(Clone, Copy)]
pub struct Plan {
    /// Whether helpers and the control take part everywhere, and not only where a thread waits.
    pub everywhere: bool,
    /// Whether to leave out schedules that are like others.
    pub reduced: bool,
    /// Whether to go on behind the first schedule that breaks the test.
    pub through: bool,
    /// The most schedules that are run.
    pub most: u64,
}

/// What is kept from one run to the next.
#[derive(Drop)]
struct Searching {
    plan: Plan,
    preemptions: u64,
    tree: Tree,
    // By state and turn the fewest preemptions with which it was met.
    met: HashMap<u64, u64>,
    record: Record,
    turns: Vec<Turn>,
}

impl Searching {
    // Whether a turn was met before at this state with no more preemptions; it is noted.
    fn is_met(&mut self, state: u64, number: usize, spent: u64) -> Result<bool, NoMemory> {
        if !self.plan.reduced {
            return Ok(false);
        }
        let key = mixed(state, number as u64);
        if let Some(before) = self.met.get(&key) {
            if *before <= spent {
                return Ok(true);
            }
        }
        match self.met.insert(key, spent) {
            Ok(_) => Ok(false),
            Err(_) => Err(NoMemory),
        }
    }

    // Adds the schedules that depart at this step.
    fn depart(
        &mut self,
        parent: Option<usize>,
        course: &Course,
        turns: &Turns,
        spent: u64,
        state: u64,
    ) -> Result<(), NoMemory> {
        let usual = turns.usual;
        if self.plan.reduced && turns.cost(usual) == Some(0) && goes_alone(course, usual) {
            return Ok(());
        }
        for number in 0..course.seats() {
            let Some(cost) = turns.cost(number) else {
                continue;
            };
            if number == usual {
                continue;
            }
            let spent = spent.saturating_add(cost);
            if spent > self.preemptions {
                self.record.tally.barred = self.record.tally.barred.saturating_add(1);
                continue;
            }
            if self.is_met(state, number, spent)? {
                continue;
            }
            let turn = Turn {
                step: course.steps(),
                number,
            };
            self.tree.add(parent, turn, spent)?;
        }
        Ok(())
    }

    // The machine of the next step: the one by which the schedule departs here, or the usual one, where other schedules depart. None
    // where this was met before.
    fn pick(
        &mut self,
        branch: Option<usize>,
        course: &Course,
        turns: &Turns,
        spent: u64,
    ) -> Result<Option<usize>, NoMemory> {
        if let Some(turn) = self.turns.last().copied() {
            if turn.step == course.steps() {
                self.turns.pop();
                return Ok(Some(turn.number));
            }
            return Ok(Some(turns.usual));
        }
        let state = course.state_sum();
        self.depart(branch, course, turns, spent, state)?;
        if self.is_met(state, turns.usual, spent)? {
            self.record.tally.met = self.record.tally.met.saturating_add(1);
            return Ok(None);
        }
        Ok(Some(turns.usual))
    }

    // Begins a schedule.
    fn begin(&mut self, branch: Option<usize>) -> Result<(), NoMemory> {
        self.record.begin();
        self.turns.clear();
        match branch {
            Some(branch) => self.tree.turns(branch, &mut self.turns),
            None => Ok(()),
        }
    }

    // Runs a schedule. The course at its end; None where it was left before.
    fn run(
        &mut self,
        alloc: Global,
        test: &Test,
        branch: Option<usize>,
    ) -> Result<Option<Course>, NoMemory> {
        self.begin(branch)?;
        let mut course = Course::open(alloc, test)?;
        let mut last = None;
        let mut spent = 0u64;
        for _ in 0..test.bounds.steps {
            if course.is_over() {
                return Ok(Some(course));
            }
            let Some(turns) = possible_turns(&mut course, last, self.plan.everywhere) else {
                break;
            };
            let Some(number) = self.pick(branch, &course, &turns, spent)? else {
                return Ok(None);
            };
            spent = spent.saturating_add(turns.cost(number).unwrap_or(0));
            if !self.record.step(alloc, test, &mut course, number)? {
                break;
            }
            last = Some(number);
        }
        self.record.cut();
        Ok(None)
    }

    // Runs a schedule, and counts it. The schedule where it breaks the test.
    fn look(
        &mut self,
        alloc: Global,
        test: &Test,
        branch: Option<usize>,
        spent: u64,
    ) -> Result<Option<Found>, NoMemory> {
        match self.run(alloc, test, branch)? {
            Some(mut course) => self.record.end(alloc, test, &mut course, spent),
            None => Ok(None),
        }
    }
}

/// Runs the schedules of a test, those with fewer preemptions first, up to the first that breaks it, or all. What was counted, and the
/// first schedule that breaks the test.
pub fn search_all(
    alloc: Global,
    test: &Test,
    plan: Plan,
) -> Result<(Tally, Option<Found>), NoMemory> {
    let mut searching = Searching {
        plan,
        preemptions: test.bounds.preemptions,
        tree: Tree::open(alloc, test.bounds.preemptions)?,
        met: HashMap::new(alloc),
        record: Record::open(alloc),
        turns: Vec::new(alloc),
    };
    let mut found = searching.look(alloc, test, None, 0)?;
    for _ in 1..plan.most {
        if found.is_some() && !plan.through {
            break;
        }
        let Some((branch, spent)) = searching.tree.take() else {
            break;
        };
        let next = searching.look(alloc, test, Some(branch), spent)?;
        if found.is_none() {
            found = next;
        }
    }
    let unrun = searching.tree.waiting();
    let record = searching.record;
    let mut tally = record.tally;
    tally.unrun = unrun;
    Ok((tally, found))
}
