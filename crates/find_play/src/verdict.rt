//! How a run of a test ended.
ghost use Rattle.std.specs.Prelude.{◌≡◌, ◌<◌, true, false, None, Ok, length, position, All, IfOk, IfSome};
ghost use Rattle.find_play.specs.Verdict.{is_command, is_stuck, verdict_by, HasCommand, IsVerdictOn, HasNoVerdict};

use crate::cast::{Cast, played};
use crate::claims_hold::broken;
use crate::{Next, Test};
use heap_words::NoMemory;
use shen_graph::{GraphText, History};
use std::alloc::Global;

/// How a run ended.
#[derive(Clone, Copy)]
pub enum Verdict {
    /// All assertions hold.
    Holds,
    /// The assertion of this number, counted from 1, is the first that does not hold.
    Fails(u64),
    /// This thread, counted from 1, is the first that would go back to the beginning of a loop once more than it may.
    Stuck(usize),
}

// Whether no thread is at a command.
fn are_over(cast: &Cast) -> bool
    ensures over { result ≡ true → All (λ act. is_command act ≡ false) cast.now.acts }
    ensures goes_on { result ≡ false → HasCommand cast.now.acts }
{
    for number in 0..8 {
        if let Next::Command(_) = cast.act(number) {
            return false;
        }
    }
    true
}

// The first thread that would go back once more than it may.
fn stuck(cast: &Cast) -> Option<usize>
    ensures first { result ≡ position is_stuck cast.now.acts }
    ensures below { IfSome result (λ number. number < 8) }
{
    for number in 0..8 {
        if let Next::TooLong = cast.act(number) {
            return Some(number);
        }
    }
    None
}

// The verdict by what was found.
fn verdict_by(stuck: Option<usize>, broken: Option<u64>) -> Verdict
    requires { IfSome stuck (λ number. number < 8) }
    ensures { result ≡ verdict_by stuck broken }
{
    match (stuck, broken) {
        (Some(number), _) => Verdict::Stuck(number + 1),
        (None, Some(assertion)) => Verdict::Fails(assertion),
        (None, None) => Verdict::Holds,
    }
}

/// The verdict on a run of a test, by its history and the graph that it leaves. None where its history is not one that the test's
/// threads make from their beginning to their end: an entry is not the command that its thread is to give there, or a thread is at a
/// command behind the last.
pub fn verdict_on(
    alloc: Global,
    test: &Test,
    history: &History,
    graph: &GraphText,
) -> Result<Option<Verdict>, NoMemory>
    ensures some { IfOk result (λ found. IfSome found (λ verdict. IsVerdictOn test.now.programs.items test.now.bounds.returns (length test.now.notes) test.now.places.items test.now.claims.items history.now.list graph.now.rows verdict)) }
    ensures none { result ≡ Ok None → HasNoVerdict test.now.programs.items test.now.bounds.returns (length test.now.notes) history.now.list }
{
    let Some(cast) = played(alloc, test, history)? else {
        return Ok(None);
    };
    if !are_over(&cast) {
        return Ok(None);
    }
    let first = broken(
        alloc,
        &test.places,
        &test.claims,
        cast.notes(),
        history,
        graph,
    )?;
    Ok(Some(verdict_by(stuck(&cast), first)))
}
