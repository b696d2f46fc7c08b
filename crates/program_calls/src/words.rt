//! The words of the command line.
ghost use Rattle.std.specs.Prelude.{◌+◌, ◌<◌, ◌≤◌, length, IfSome};

use find_search::{Draw, Plan};
use trace_reading::number_in;

/// What the words ask for.
#[derive(Clone, Copy)]
pub struct Asked {
    /// How schedules are drawn, and by which seed; None where all are run.
    pub drawn: Option<(Draw, u64)>,
    /// What is to be run.
    pub plan: Plan,
}

/// The most schedules where the words do not say how many.
const USUAL: u64 = 1_000_000;

/// The most that the words may ask for.
const MOST: u64 = 4_000_000_000;

/// The deepest draw.
const DEEPEST: u64 = 1000;

// The number of the word at this index, 1 to so many.
fn number_at(words: &[String], at: usize, most: u64) -> Option<u64>
    ensures { IfSome result (λ _. at < length words.now) }
{
    match number_in(most, words.get(at)?.as_bytes()) {
        Some(0) => None,
        found => found,
    }
}

// The plan before any option.
fn plain_plan(most: u64) -> Plan {
    Plan {
        everywhere: false,
        reduced: true,
        through: false,
        most,
    }
}

// What the first words ask for, and how many these are.
fn kind_of(words: &[String]) -> Option<(Asked, usize)> {
    let first = words.first()?;
    let plan = plain_plan(USUAL);
    match first.as_bytes() {
        b"all" => Some((Asked { drawn: None, plan }, 1)),
        b"uniform" => {
            let seed = number_at(words, 1, u64::MAX)?;
            let plan = plain_plan(number_at(words, 2, MOST)?);
            let drawn = Some((Draw::Uniform, seed));
            Some((Asked { drawn, plan }, 3))
        }
        b"depth" => {
            let depth = number_at(words, 1, DEEPEST)?;
            let seed = number_at(words, 2, u64::MAX)?;
            let plan = plain_plan(number_at(words, 3, MOST)?);
            let drawn = Some((Draw::Depth(depth), seed));
            Some((Asked { drawn, plan }, 4))
        }
        _ => None,
    }
}

// An option behind the first words. How many words it is.
fn take_option(words: &[String], at: usize, asked: &mut Asked) -> Option<usize>
    ensures { IfSome result (λ count. (0 < count) × (at + count ≤ length words.now)) }
{
    let all = asked.drawn.is_none();
    let plan = &mut asked.plan;
    match words.get(at)?.as_bytes() {
        b"--cycles" if !plan.everywhere => plan.everywhere = true,
        b"--through" if !plan.through => plan.through = true,
        b"--unreduced" if all && plan.reduced => plan.reduced = false,
        b"--most" if all && plan.most == USUAL => {
            plan.most = number_at(words, at + 1, MOST)?;
            return Some(2);
        }
        _ => return None,
    }
    Some(1)
}

/// What the words ask for: `all`, `uniform SEED COUNT` or `depth D SEED COUNT`, and behind that `--cycles`, `--through`, and with `all`
/// also `--unreduced` and `--most COUNT`. None where they are none of these.
pub fn asked_by(words: &[String]) -> Option<Asked> {
    let (mut asked, mut at) = kind_of(words)?;
    while at < words.len() {
        at += take_option(words, at, &mut asked)?;
    }
    Some(asked)
}
