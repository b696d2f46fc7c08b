//! A search, and the trace that breaks the test.
ghost use Rattle.std.specs.Prelude.{IfOk, IfSome};
ghost use Rattle.find_search.specs.Judged.{IsBreak};

use crate::judging::{Judged, judge};
use crate::shrinking::shrink;
use crate::spelling::spelled;
use crate::{Draw, Found, Plan, Tally, draw_schedules, search_all};
use find_play::{Test, Verdict};
use heap_words::NoMemory;
use std::alloc::Global;

/// A trace that breaks a test.
#[derive(Drop)]
pub struct Break {
    /// The text of the trace.
    pub text: Vec<u8>,
    /// The verdict on it.
    pub verdict: Verdict,
}

/// What came of a search.
#[derive(Drop)]
pub struct Hunted {
    /// What was counted.
    pub tally: Tally,
    /// Whether a schedule was found that breaks the test.
    pub found: bool,
    /// The preemptions of the schedule that was found first.
    pub preemptions: u64,
    /// Its trace, made short. None where no schedule was found, or the replay of its trace does not break the test within the steps.
    pub broken: Option<Break>,
}

// The trace of a schedule that was found, made short, where its replay breaks the test.
fn break_of(alloc: Global, test: &Test, found: Found, steps: u64) -> Result<Option<Break>, NoMemory>
    ensures { IfOk result (λ broken. IfSome broken (λ it. IsBreak test.now it.text.items steps it.verdict)) }
{
    let Some(short) = shrink(alloc, test, found.items, found.verdict, test.bounds.steps)? else {
        return Ok(None);
    };
    let text = spelled(
        alloc,
        test.version,
        test.config,
        &short.shape.scripts,
        &short.items,
    )?;
    match judge(alloc, test, &text, steps)? {
        Judged::Nothing | Judged::Verdict(Verdict::Holds) => Ok(None),
        Judged::Verdict(verdict) => Ok(Some(Break { text, verdict })),
    }
}

/// Runs schedules of a test: all, or those that are drawn by a seed. The trace of the first that breaks the test is judged by its own
/// replay, of so many steps at most.
pub fn hunt(
    alloc: Global,
    test: &Test,
    plan: Plan,
    drawn: Option<(Draw, u64)>,
    steps: u64,
) -> Result<Hunted, NoMemory>
    ensures { IfOk result (λ hunted. IfSome hunted.broken (λ it. IsBreak test.now it.text.items steps it.verdict)) }
{
    let (tally, found) = match drawn {
        None => search_all(alloc, test, plan)?,
        Some((draw, seed)) => draw_schedules(alloc, test, plan, draw, seed)?,
    };
    match found {
        None => Ok(Hunted {
            tally,
            found: false,
            preemptions: 0,
            broken: None,
        }),
        Some(found) => {
            let preemptions = found.preemptions;
            let broken = break_of(alloc, test, found, steps)?;
            Ok(Hunted {
                tally,
                found: true,
                preemptions,
                broken,
            })
        }
    }
}
