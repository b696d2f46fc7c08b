//! What is counted in a search.

use crate::course::Ending;
use find_play::Verdict;
use heap_words::{Item, NoMemory};
use std::alloc::Global;
use std::collections::HashSet;

/// What a search has met.
#[derive(Drop)]
pub struct Tally {
    /// Schedules that were run, to their end or to where they were left.
    pub schedules: u64,
    /// Those that were run to their end.
    pub whole: u64,
    /// Those that were left at a state that was met before.
    pub met: u64,
    /// Those that were left since they had no more steps.
    pub cut: u64,
    /// Turns that were not taken since they would have been one preemption too many.
    pub barred: u64,
    /// Schedules that were not run, since there were to be no more.
    pub unrun: u64,
    /// Steps that were made.
    pub steps: u64,
    /// Runs whose claims hold.
    pub holding: u64,
    /// Runs of which an assertion fails.
    pub failing: u64,
    /// Runs in which a thread is stuck.
    pub stuck: u64,
    histories: HashSet<u64>,
    outcomes: HashSet<u64>,
}

/// A schedule that breaks a test, as turns of machines.
#[derive(Drop)]
pub struct Found {
    /// Steps of machines, one item for each turn.
    pub items: Vec<Item>,
    /// The verdict on its run.
    pub verdict: Verdict,
    /// Its preemptions.
    pub preemptions: u64,
}

impl Tally {
    /// Nothing was met.
    pub fn open(alloc: Global) -> Tally {
        Tally {
            schedules: 0,
            whole: 0,
            met: 0,
            cut: 0,
            barred: 0,
            unrun: 0,
            steps: 0,
            holding: 0,
            failing: 0,
            stuck: 0,
            histories: HashSet::new(alloc),
            outcomes: HashSet::new(alloc),
        }
    }

    /// Counts the end of a run.
    pub(crate) fn ended(&mut self, ending: Ending) -> Result<(), NoMemory> {
        self.whole = self.whole.saturating_add(1);
        match ending.verdict {
            Verdict::Holds => self.holding = self.holding.saturating_add(1),
            Verdict::Fails(_) => self.failing = self.failing.saturating_add(1),
            Verdict::Stuck(_) => self.stuck = self.stuck.saturating_add(1),
        }
        let Ok(_) = self.histories.insert(ending.history) else {
            return Err(NoMemory);
        };
        let Ok(_) = self.outcomes.insert(ending.outcome) else {
            return Err(NoMemory);
        };
        Ok(())
    }

    /// How many different histories were met, up to the order of entries of different threads.
    pub fn histories(&self) -> u64 {
        self.histories.len() as u64
    }

    /// How many different outcomes were met.
    pub fn outcomes(&self) -> u64 {
        self.outcomes.len() as u64
    }
}
