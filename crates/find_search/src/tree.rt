//! The schedules that are to be run: each departs at one step from another one.

use heap_words::NoMemory;
use std::alloc::Global;

/// A machine whose turn a step is, where another would have been the usual one.
#[derive(Clone, Copy)]
pub(crate) struct Turn {
    /// The step, counted from 0.
    pub step: u64,
    /// The machine.
    pub number: usize,
}

#[derive(Clone, Copy)]
struct Branch {
    // The schedule from which this one departs; None for the first.
    parent: Option<usize>,
    turn: Turn,
}

/// Schedules, each with the one that it departs from, and those that are still to be run by their preemptions.
#[derive(Drop)]
pub(crate) struct Tree {
    branches: Vec<Branch>,
    pending: Vec<Vec<usize>>,
}

impl Tree {
    /// No schedules, of so many preemptions at most.
    pub(crate) fn open(alloc: Global, preemptions: u64) -> Result<Tree, NoMemory> {
        let mut pending = Vec::new(alloc);
        for _ in 0..preemptions.min(1000) + 1 {
            let Ok(()) = pending.push(Vec::new(alloc)) else {
                return Err(NoMemory);
            };
        }
        Ok(Tree {
            branches: Vec::new(alloc),
            pending,
        })
    }

    /// Adds a schedule that is to be run, of so many preemptions.
    pub(crate) fn add(
        &mut self,
        parent: Option<usize>,
        turn: Turn,
        spent: u64,
    ) -> Result<(), NoMemory> {
        let number = self.branches.len();
        let Ok(()) = self.branches.push(Branch { parent, turn }) else {
            return Err(NoMemory);
        };
        let level = spent as usize;
        if level < self.pending.len() {
            let Ok(()) = self.pending[level].push(number) else {
                return Err(NoMemory);
            };
        }
        Ok(())
    }

    /// The next schedule that is to be run, of those with the fewest preemptions, and how many these are.
    pub(crate) fn take(&mut self) -> Option<(usize, u64)> {
        for level in 0..self.pending.len() {
            if let Some(number) = self.pending[level].pop() {
                return Some((number, level as u64));
            }
        }
        None
    }

    /// How many schedules are to be run.
    pub(crate) fn waiting(&self) -> u64 {
        let mut count = 0u64;
        for level in 0..self.pending.len() {
            count = count.saturating_add(self.pending[level].len() as u64);
        }
        count
    }

    /// The turns by which a schedule departs from the usual ones, the last of them first.
    pub(crate) fn turns(&self, number: usize, turns: &mut Vec<Turn>) -> Result<(), NoMemory> {
        turns.clear();
        let mut at = Some(number);
        for _ in 0..self.branches.len() {
            let Some(number) = at else {
                return Ok(());
            };
            if number >= self.branches.len() {
                return Ok(());
            }
            let branch = self.branches[number];
            let Ok(()) = turns.push(branch.turn) else {
                return Err(NoMemory);
            };
            at = branch.parent;
        }
        Ok(())
    }
}
