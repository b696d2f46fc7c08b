//! Schedules made short, item by item.
ghost use Rattle.std.specs.Prelude.{◌<◌, length};

use crate::{Shape, place_behind, run_items};
use find_play::{Test, Verdict};
use heap_words::{Item, NoMemory};
use std::alloc::Global;

/// A schedule that breaks a test, and what its run was.
#[derive(Drop)]
pub struct Short {
    /// The items.
    pub items: Vec<Item>,
    /// The run of these items and of the rounds behind them.
    pub shape: Shape,
}

/// What is to be kept while a schedule is made short.
#[derive(Clone, Copy)]
struct Goal<'a> {
    alloc: Global,
    test: &'a Test,
    wanted: Verdict,
    steps: u64,
}

// Whether two verdicts are of one kind.
fn are_alike(one: Verdict, other: Verdict) -> bool {
    matches!(
        (one, other),
        (Verdict::Holds, Verdict::Holds)
            | (Verdict::Fails(_), Verdict::Fails(_))
            | (Verdict::Stuck(_), Verdict::Stuck(_))
    )
}

// The machine of an item.
fn machine_of(item: Item) -> usize {
    match item {
        Item::Steps { number, .. } | Item::Until { number, .. } | Item::Replies { number, .. } =>
            number,
    }
}

// Puts an item at the end; steps of the machine that makes steps there already are added to those.
fn put(items: &mut Vec<Item>, item: Item) -> Result<(), NoMemory> {
    if let (
        Some(Item::Steps { number, count }),
        Item::Steps {
            number: next,
            count: more,
        },
    ) = (items.last().copied(), item)
    {
        if number == next {
            let last = items.len().saturating_sub(1);
            if last < items.len() {
                items[last] = Item::Steps {
                    number,
                    count: count.saturating_add(more),
                };
            }
            return Ok(());
        }
    }
    match items.push(item) {
        Ok(()) => Ok(()),
        Err(_) => Err(NoMemory),
    }
}

impl Goal<'_> {
    // The items with others in place of one of them.
    fn replaced(&self, items: &[Item], at: usize, others: &[Item]) -> Result<Vec<Item>, NoMemory> {
        let mut made = Vec::new(self.alloc);
        for (index, item) in items.iter().enumerate() {
            if index == at {
                for other in others {
                    put(&mut made, *other)?;
                }
            } else {
                put(&mut made, *item)?;
            }
        }
        Ok(made)
    }

    // The run of these items, where it has the verdict.
    fn tried(&self, items: Vec<Item>) -> Result<Option<Short>, NoMemory> {
        match run_items(self.alloc, self.test, &items, self.steps)? {
            Some(shape) if are_alike(shape.ending.verdict, self.wanted) => {
                Ok(Some(Short { items, shape }))
            }
            _ => Ok(None),
        }
    }

    // The schedule with others in place of an item, where its run has the verdict, else as it was.
    fn with(&self, short: Short, at: usize, others: &[Item]) -> Result<(Short, bool), NoMemory> {
        let items = self.replaced(&short.items, at, others)?;
        match self.tried(items)? {
            Some(shorter) => Ok((shorter, true)),
            None => Ok((short, false)),
        }
    }

    // Leaves items out, as long as one can be.
    fn fewer(&self, short: Short) -> Result<Short, NoMemory> {
        let mut short = short;
        let mut at = short.items.len();
        while at > 0 {
            at -= 1;
            if at < short.items.len() {
                let (next, _) = self.with(short, at, &[])?;
                short = next;
            }
        }
        Ok(short)
    }

    // Says an item by replies and a place where that is enough.
    fn clearer(&self, short: Short, at: usize) -> Result<Short, NoMemory>
        requires { at < length short.items.items }
    {
        let item = short.items[at];
        let Item::Steps { number, .. } = item else {
            return Ok(short);
        };
        let (place, count) = place_behind(
            self.alloc,
            self.test,
            &short.items[..at + 1],
            number,
            self.steps,
        )?;
        let replies = Item::Replies { number, count };
        let mutator = number < self.test.config.mutators();
        match place {
            Some(place) => {
                let until = Item::Until { number, place };
                let (short, done) = self.with(short, at, &[until])?;
                if done || count == 0 || !mutator {
                    return Ok(short);
                }
                let (short, _) = self.with(short, at, &[replies, until])?;
                Ok(short)
            }
            None if mutator && count > 0 => {
                let (short, _) = self.with(short, at, &[replies])?;
                Ok(short)
            }
            None => Ok(short),
        }
    }
}

/// A shorter schedule whose run with the test has a verdict of the same kind. None where the run of the items themselves, and of rounds
/// behind them, has none.
pub fn shrink(
    alloc: Global,
    test: &Test,
    items: Vec<Item>,
    wanted: Verdict,
    steps: u64,
) -> Result<Option<Short>, NoMemory> {
    let goal = Goal {
        alloc,
        test,
        wanted,
        steps,
    };
    let Some(mut short) = goal.tried(items)? else {
        return Ok(None);
    };
    for _ in 0..100 {
        let before = short.items.len();
        short = goal.fewer(short)?;
        if short.items.len() == before {
            break;
        }
    }
    let mut at = short.items.len();
    while at > 0 {
        at -= 1;
        if at < short.items.len() {
            short = goal.clearer(short, at)?;
        }
    }
    for _ in 0..100 {
        let before = short.items.len();
        short = goal.fewer(short)?;
        if short.items.len() == before {
            break;
        }
    }
    Ok(Some(short))
}
