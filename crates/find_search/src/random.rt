//! Schedules by chance.

use crate::course::{Course, SEATS};
use crate::exhaustive::Plan;
use crate::mixing::mixed;
use crate::record::Record;
use crate::tally::{Found, Tally};
use crate::turns::{Turns, possible_turns};
use find_play::Test;
use heap_words::NoMemory;
use std::alloc::Global;

/// How schedules are drawn.
#[derive(Clone, Copy)]
pub enum Draw {
    /// Each step is one of any machine that may go, each as likely as another.
    Uniform,
    /// Machines have priorities in a random order, and the one that may go and has the highest makes the step. At so many random steps
    /// less one the machine whose turn it was gets the lowest one.
    Depth(u64),
}

/// Numbers by a seed.
#[derive(Clone, Copy)]
struct Chance {
    state: u64,
}

impl Chance {
    // The next number below a limit, which is not 0.
    fn below(&mut self, limit: u64) -> u64 {
        self.state = self.state.wrapping_add(0x9E37_79B9_7F4A_7C15);
        mixed(7, self.state) % limit.max(1)
    }
}

/// The priorities of machines, and the steps at which they change.
#[derive(Drop)]
struct Priorities {
    of: [u64; 12],
    // The next lowest one.
    lowest: u64,
    changes: Vec<u64>,
}

impl Priorities {
    // Random ones, and so many changes within so many steps.
    fn draw(
        alloc: Global,
        chance: &mut Chance,
        depth: u64,
        steps: u64,
    ) -> Result<Priorities, NoMemory> {
        let mut of = [0; 12];
        for number in 0..SEATS {
            of[number] = chance
                .below(1_000_000_000)
                .saturating_add(1_000_000_000_000);
        }
        let mut changes = Vec::new(alloc);
        for _ in 1..depth {
            let Ok(()) = changes.push(chance.below(steps.max(1))) else {
                return Err(NoMemory);
            };
        }
        Ok(Priorities {
            of,
            lowest: 1_000_000_000_000,
            changes,
        })
    }

    fn lower(&mut self, number: usize) {
        self.lowest = self.lowest.saturating_sub(1);
        if number < SEATS {
            self.of[number] = self.lowest;
        }
    }

    fn highest(&self, turns: &Turns) -> usize {
        let mut best = turns.usual;
        let mut most = 0;
        for number in 0..SEATS {
            if turns.cost(number).is_some() && self.of[number] > most {
                best = number;
                most = self.of[number];
            }
        }
        best
    }
}

// One of the machines that may go.
fn any_of(chance: &mut Chance, turns: &Turns) -> usize {
    let mut count = 0u64;
    for number in 0..SEATS {
        if turns.cost(number).is_some() {
            count = count.saturating_add(1);
        }
    }
    let mut left = chance.below(count);
    for number in 0..SEATS {
        if turns.cost(number).is_some() {
            if left == 0 {
                return number;
            }
            left = left.saturating_sub(1);
        }
    }
    turns.usual
}

/// What is kept from one run to the next.
#[derive(Drop)]
struct Drawing {
    plan: Plan,
    draw: Draw,
    chance: Chance,
    record: Record,
    // The most steps of a run so far.
    longest: u64,
}

impl Drawing {
    // Runs a schedule. The course at its end, and its preemptions; None where it was left before.
    fn run(&mut self, alloc: Global, test: &Test) -> Result<Option<(Course, u64)>, NoMemory> {
        self.record.begin();
        let depth = match self.draw {
            Draw::Uniform => 0,
            Draw::Depth(depth) => depth,
        };
        let mut priorities = Priorities::draw(alloc, &mut self.chance, depth, self.longest)?;
        let mut course = Course::open(alloc, test)?;
        let mut last = None;
        let mut spent = 0u64;
        for _ in 0..test.bounds.steps {
            if course.is_over() {
                self.longest = self.longest.max(course.steps());
                return Ok(Some((course, spent)));
            }
            let Some(turns) = possible_turns(&mut course, last, self.plan.everywhere) else {
                return Ok(None);
            };
            if let Some(last) = last {
                if priorities.changes.contains(&course.steps()) || course.is_back(last) {
                    priorities.lower(last);
                }
            }
            let number = match self.draw {
                Draw::Uniform => any_of(&mut self.chance, &turns),
                Draw::Depth(_) => priorities.highest(&turns),
            };
            spent = spent.saturating_add(turns.cost(number).unwrap_or(0));
            if !self.record.step(alloc, test, &mut course, number)? {
                return Ok(None);
            }
            last = Some(number);
        }
        Ok(None)
    }

    // Runs a schedule, and counts it. The schedule where it breaks the test.
    fn look(&mut self, alloc: Global, test: &Test) -> Result<Option<Found>, NoMemory> {
        let Some((mut course, spent)) = self.run(alloc, test)? else {
            self.record.cut();
            return Ok(None);
        };
        self.record.end(alloc, test, &mut course, spent)
    }
}

/// Runs schedules that are drawn by a seed, up to the first that breaks the test, or as many as the plan has.
pub fn draw_schedules(
    alloc: Global,
    test: &Test,
    plan: Plan,
    draw: Draw,
    seed: u64,
) -> Result<(Tally, Option<Found>), NoMemory> {
    let mut drawing = Drawing {
        plan,
        draw,
        chance: Chance { state: seed },
        record: Record::open(alloc),
        longest: 1,
    };
    let mut found = None;
    for _ in 0..plan.most {
        let next = drawing.look(alloc, test)?;
        if found.is_none() {
            found = next;
        }
        if found.is_some() && !plan.through {
            break;
        }
    }
    let record = drawing.record;
    Ok((record.tally, found))
}
